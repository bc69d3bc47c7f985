//! The planned tree and its readers.

ghost use Rattle.std.specs.Prelude.{◌≡◌, ◌<◌, ◌≤◌, ◌↔◌, true, IfOk, IsNone, Some, option_map};
ghost use Rattle.std.specs.Prelude.{length, slice_get};
ghost use Rattle.std.specs.Bool.{OnTrue, OnFalse};
ghost use Rattle.tm_base.specs.Children.{of_cpu, of_group};
ghost use Rattle.tree_plan.specs.Shape.{Shape, IsWithinLimits, IsPlanned, joined, tree_of};
ghost use Rattle.tree_plan.specs.Paths.{cpu_count_of, is_placed_in, group_count_of, level_count_of};
ghost use Rattle.tree_plan.specs.Paths.{level_of, place_of, child_count_of, child_at, parent_of};
ghost use Rattle.tree_plan.specs.Paths.{bit_of, group_at_of, groups_of, IsTop};
ghost use Rattle.tree_plan.specs.Store.{first_child_of, group_of, link_of};

use crate::cutting::{
    Group, Link, cut_groups, first_children, link_children, link_cpus, placed_cpus,
};
use std::alloc::Global;
use std::marker::Model;
use tm_base::{Child, CpuId, CpuSet, GroupId, NoMemory};

/// The tree of a machine. A contract sees it as its `Shape`: the machine and the levels of groups.
/// Groups are numbered level by level from the leaves, and in a level in ascending order.
#[derive(Debug, Drop)]
pub struct Tree {
    nodes: u8,
    cpus: u8,
    isolated: CpuSet,
    /// The placed CPUs in ascending order.
    placed: Vec<CpuId>,
    groups: Vec<Group>,
    /// Of each group: which of all children its first one is.
    firsts: Vec<usize>,
    /// Of each child: the placed CPUs in ascending order, and then the groups but for the top.
    links: Vec<Link>,
    /// Of each CPU by its number.
    seats: Vec<Option<Link>>,
}

impl Model for Tree {
    ghost use Rattle.tree_plan.specs.Shape.{Shape, tree_of};
    ghost use Rattle.tree_plan.specs.Codes.{shape_code};
    ghost use Rattle.tree_plan.specs.Store.{IsStored};

    ghost Value = { Shape };

    ghost coded = { shape_code };

    ghost view = { λ t. tree_of t.nodes t.cpus t.isolated };

    ghost invariant = { λ t.
        IsStored t.nodes t.cpus t.isolated t.placed.items t.groups.items t.firsts.items
        t.links.items t.seats.items };
}

/// Plans the tree of a machine of 1 to 8 nodes with 1 to 64 CPUs each, of which some aren't
/// isolated. It is the one that the kernel's `tmigr_setup_groups` builds where all placed CPUs join
/// in ascending order before the start; for one placed CPU alone nothing is set up, as the kernel's
/// `tmigr_init` does for one possible CPU. The only error is want of memory. The work is linear in
/// the number of CPUs.
pub fn plan(alloc: Global, nodes: u8, cpus: u8, isolated: &CpuSet) -> Result<Tree, NoMemory>
    requires { IsWithinLimits nodes cpus isolated.now }
    ensures tree { IfOk result (λ t. t ≡ tree_of nodes cpus isolated.now) }
    ensures planned { IfOk result IsPlanned }
{
    let count = u16::from(nodes) * u16::from(cpus);
    let groups = cut_groups(alloc, nodes, cpus, isolated)?;
    let placed = placed_cpus(alloc, count, isolated)?;
    let firsts = first_children(alloc, groups.as_slice())?;
    let links = link_children(alloc, groups.as_slice())?;
    let seats = link_cpus(alloc, count, isolated, links.as_slice())?;
    Ok(Tree {
        nodes,
        cpus,
        isolated: isolated.copy(),
        placed,
        groups,
        firsts,
        links,
        seats,
    })
}

impl Tree {
    /// The number of CPUs, 1 to 512, isolated ones too.
    pub fn cpu_count(&self) -> u16
        ensures count { result ≡ cpu_count_of self.now }
        ensures planned { IsPlanned self.now }
    {
        u16::from(self.nodes) * u16::from(self.cpus)
    }

    /// Whether the CPU is placed, that is, not isolated.
    pub fn is_placed(&self, c: CpuId) -> bool
        requires { c.0 < cpu_count_of self.now }
        ensures { result ≡ is_placed_in self.now c.0 }
    {
        !self.isolated.has(c)
    }

    /// The number of groups, at most 73; 0 where one placed CPU is alone.
    pub fn group_count(&self) -> u16
        ensures { result ≡ group_count_of self.now }
    {
        self.groups.len() as u16
    }

    /// The number of levels built, at most 3; 0 where one placed CPU is alone. Level 0 has the
    /// leaves.
    pub fn levels(&self) -> u8
        ensures { result ≡ level_count_of self.now }
    {
        match self.groups.last() {
            Some(top) => top.level + 1,
            None => 0,
        }
    }

    /// The level of a group.
    pub fn level(&self, g: GroupId) -> u8
        requires { g.0 < group_count_of self.now }
        ensures { result ≡ level_of self.now g.0 }
    {
        self.group(g).level
    }

    /// The index of a group in its level.
    pub fn place(&self, g: GroupId) -> u16
        requires { g.0 < group_count_of self.now }
        ensures { result ≡ place_of self.now g.0 }
    {
        self.group(g).place
    }

    /// The number of children of a group, 1 to 8. They have the child numbers from 0 on.
    pub fn children(&self, g: GroupId) -> u8
        requires { g.0 < group_count_of self.now }
        ensures { result ≡ child_count_of self.now g.0 }
    {
        self.group(g).children
    }

    /// The child of a group with this child number; None exactly where the group has no such child.
    pub fn child(&self, g: GroupId, bit: u8) -> Option<Child>
        ensures { result ≡ child_at self.now g.0 bit }
    {
        if g.0 >= self.group_count() {
            return None;
        }
        if bit >= self.children(g) {
            return None;
        }
        Some(self.member(self.first(g) + usize::from(bit)))
    }

    /// The group that has this group as a child. Only the top has none.
    pub fn parent(&self, g: GroupId) -> Option<GroupId>
        requires { g.0 < group_count_of self.now }
        ensures parent { option_map (λ p. p.0) result ≡ parent_of self.now (of_group g.0) }
        ensures top { IsNone result ↔ IsTop self.now g.0 }
    {
        self.group_link(g).map(|link| link.parent)
    }

    /// The child number of a group in its parent (the kernel keeps it as the one bit of
    /// `childmask`), 0 at the top.
    pub fn bit(&self, g: GroupId) -> u8
        requires { g.0 < group_count_of self.now }
        ensures { result ≡ bit_of self.now (of_group g.0) }
    {
        match self.group_link(g) {
            Some(link) => link.bit,
            None => 0,
        }
    }

    /// The child number of a placed CPU in its leaf, 0 where it has none.
    pub fn cpu_bit(&self, c: CpuId) -> u8
        requires { is_placed_in self.now c.0 ≡ true }
        ensures { result ≡ bit_of self.now (of_cpu c.0) }
    {
        match self.cpu_link(c) {
            Some(link) => link.bit,
            None => 0,
        }
    }

    /// The group of a CPU's path at a level. For a placed CPU it is None exactly where the tree has
    /// no such level, for an isolated one always.
    pub fn group_at(&self, c: CpuId, level: u8) -> Option<GroupId>
        requires { c.0 < cpu_count_of self.now }
        ensures group { option_map (λ g. g.0) result ≡ group_at_of self.now c.0 level }
        ensures none { OnTrue (is_placed_in self.now c.0)
            (IsNone result ↔ (level_count_of self.now ≤ level)) }
        ensures isolated { OnFalse (is_placed_in self.now c.0) (IsNone result) }
    {
        let Some(link) = self.cpu_link(c) else {
            return None;
        };
        let mut at = link.parent;
        for _below in 0..level {
            let Some(above) = self.parent(at) else {
                return None;
            };
            at = above;
        }
        Some(at)
    }

    /// A group as it is kept.
    fn group(&self, g: GroupId) -> Group
        requires { g.0 < group_count_of self.now }
        ensures { result ≡ group_of self.now g.0 }
    {
        self.groups[usize::from(g.0)]
    }

    /// Which of all children a group's first one is.
    fn first(&self, g: GroupId) -> usize
        requires { g.0 < group_count_of self.now }
        ensures first { result ≡ first_child_of self.now g.0 }
        ensures planned { IsPlanned self.now }
    {
        self.firsts[usize::from(g.0)]
    }

    /// One of all children: these are the placed CPUs, and then the groups but for the top.
    fn member(&self, index: usize) -> Child
        requires { index < length (joined (groups_of self.now)) }
        ensures { slice_get (joined (groups_of self.now)) index ≡ Some result }
    {
        match self.placed.get(index) {
            Some(cpu) => Child::Cpu(*cpu),
            None => Child::Group(GroupId((index - self.placed.len()) as u16)),
        }
    }

    /// The link of a CPU to its leaf, None where it has none.
    fn cpu_link(&self, c: CpuId) -> Option<Link>
        requires { c.0 < cpu_count_of self.now }
        ensures link { result ≡ link_of self.now (of_cpu c.0) }
        ensures planned { IsPlanned self.now }
    {
        self.seats[usize::from(c.0)]
    }

    /// The link of a group to its parent, None at the top.
    fn group_link(&self, g: GroupId) -> Option<Link>
        requires { g.0 < group_count_of self.now }
        ensures link { result ≡ link_of self.now (of_group g.0) }
        ensures planned { IsPlanned self.now }
    {
        self.links
            .get(self.placed.len() + usize::from(g.0))
            .copied()
    }
}
