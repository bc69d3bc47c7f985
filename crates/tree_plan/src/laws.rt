//! What holds of every planned tree. Each of these functions does nothing; its contract is the law.

ghost use Rattle.std.specs.Prelude.{ℕ};
ghost use Rattle.tree_plan.specs.Shape.{Shape, IsPlanned};
ghost use Rattle.tree_plan.specs.Laws.{LogarithmLaws, PlacedLaws, CutLaws, EdgeLaws, LevelLaws};
ghost use Rattle.tree_plan.specs.Laws.{PathLaws, BelowLaws, NodeLaws};

/// The logarithm that fixes the numbers of levels is the least exponent that reaches its number.
pub fn law_log2up()
    ensures { (x : ℕ) → LogarithmLaws x }
{}

/// Which CPUs are placed, and that all of them have groups or none.
pub fn law_placed()
    ensures { (t : Shape) → IsPlanned t → PlacedLaws t }
{}

/// What the groups of a planned tree are made of, and how many there are.
pub fn law_cuts()
    ensures { (t : Shape) → IsPlanned t → CutLaws t }
{}

/// Children, their parents and their child numbers.
pub fn law_edges()
    ensures { (t : Shape) → IsPlanned t → EdgeLaws t }
{}

/// The levels of groups and of their parents.
pub fn law_levels()
    ensures { (t : Shape) → IsPlanned t → LevelLaws t }
{}

/// The paths of CPUs from the leaf to the top.
pub fn law_paths()
    ensures { (t : Shape) → IsPlanned t → PathLaws t }
{}

/// The CPUs below a group, and below its children.
pub fn law_below()
    ensures { (t : Shape) → IsPlanned t → BelowLaws t }
{}

/// Groups within a node and across nodes, and which of them are full.
pub fn law_nodes()
    ensures { (t : Shape) → IsPlanned t → NodeLaws t }
{}
