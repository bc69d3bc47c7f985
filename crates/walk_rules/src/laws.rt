//! What walks rely on in a tree holds in every planned tree.

ghost use Rattle.tree_plan.specs.Shape.{Shape, IsPlanned};
ghost use Rattle.walk_rules.specs.Hierarchy.{IsHierarchy};

use tree_plan::{law_edges, law_paths};

/// Every planned tree is a hierarchy. The function does nothing; its contract is the law.
pub fn law_hierarchy()
    ensures { (t : Shape) → IsPlanned t → IsHierarchy t }
{
    law_edges();
    law_paths();
}
