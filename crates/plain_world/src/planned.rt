//! A planned tree that can be compared, and where the paths of its CPUs go.

ghost use Rattle.std.specs.Prelude.{◌≡◌, ℕ, ◌<◌, ◌==◌, ◌&&◌, ◌||◌, IfOk, OnOk};
ghost use Rattle.std.specs.Prelude.{option_map};
ghost use Rattle.tm_base.specs.Children.{of_cpu};
ghost use Rattle.tree_plan.specs.Paths.{bit_of, cpu_count_of, group_at_of, is_placed_in};
ghost use Rattle.tree_plan.specs.Shape.{IsPlanned, IsWithinLimits, tree_of};
ghost use Rattle.walk_rules.specs.Hierarchy.{at_top, group_on, side};
ghost use Rattle.plain_world.specs.Planned.{IsListOf, lists};

use std::alloc::Global;
use std::marker::Model;
use tm_base::{CPU_SET_SIZE, CpuId, CpuSet, GroupId, NoMemory};
use tree_plan::{Tree, law_edges, law_paths, plan};

/// The tree of a machine, with what it was planned for.
#[derive(Drop)]
pub struct PlannedTree {
    pub(crate) nodes: u8,
    pub(crate) cpus: u8,
    /// The isolated CPUs in ascending order.
    pub(crate) isolated: Vec<u16>,
    tree: Tree,
}

impl Model for PlannedTree {
    ghost use Rattle.std.specs.Prelude.{◌≡◌};
    ghost use Rattle.tree_plan.specs.Shape.{IsPlanned, Shape};
    ghost use Rattle.tree_plan.specs.Codes.{shape_code};
    ghost use Rattle.plain_world.specs.Planned.{IsListOf};

    ghost Value = { Shape };

    ghost coded = { shape_code };

    ghost view = { λ t. t.tree };

    ghost invariant = { λ t. (t.tree.nodes ≡ t.nodes) × (t.tree.cpus ≡ t.cpus)
        × IsListOf t.tree.isolated t.isolated.items × IsPlanned t.tree };
}

/// Puts a number at the end of a list, if it is in the set that the list is made of.
fn push_if(list: &mut Vec<u16>, cpu: u16, is_in: bool) -> Result<(), NoMemory>
    ensures { OnOk result ((c : ℕ) → lists list.new.items c
        ≡ (lists list.old.items c || (is_in && cpu == c))) }
{
    if is_in {
        list.push(cpu)?;
        Ok(())
    } else {
        Ok(())
    }
}

/// The CPUs of a set, in ascending order.
fn list_of(alloc: Global, set: &CpuSet) -> Result<Vec<u16>, NoMemory>
    ensures { IfOk result (λ list. IsListOf set.now list.items) }
{
    // For its contract: no CPU of a set is above its size.
    set.has(CpuId(0));
    let mut list = Vec::new(alloc);
    for cpu in 0..CPU_SET_SIZE {
        push_if(&mut list, cpu, set.has(CpuId(cpu)))?;
    }
    Ok(list)
}

impl PlannedTree {
    /// Plans the tree of a machine of 1 to 8 nodes with 1 to 64 CPUs each, of which some aren't
    /// isolated. The only error is want of memory.
    pub fn plan(
        alloc: Global,
        nodes: u8,
        cpus: u8,
        isolated: &CpuSet,
    ) -> Result<PlannedTree, NoMemory>
        requires { IsWithinLimits nodes cpus isolated.now }
        ensures tree { IfOk result (λ t. t ≡ tree_of nodes cpus isolated.now) }
        ensures planned { IfOk result IsPlanned }
    {
        let tree = plan(alloc, nodes, cpus, isolated)?;
        let isolated = list_of(alloc, isolated)?;
        Ok(PlannedTree {
            nodes,
            cpus,
            isolated,
            tree,
        })
    }

    /// The tree itself.
    pub fn tree(&self) -> &Tree
        ensures tree { result.now ≡ self.now }
        ensures planned { IsPlanned self.now }
    {
        &self.tree
    }

    /// The number of CPUs, 1 to 512, isolated ones too.
    pub fn cpu_count(&self) -> u16
        ensures { result ≡ cpu_count_of self.now }
    {
        self.tree.cpu_count()
    }

    /// Whether a CPU is placed, that is, there is such a CPU and it isn't isolated.
    pub fn is_placed(&self, cpu: CpuId) -> bool
        ensures { result ≡ is_placed_in self.now cpu.0 }
    {
        cpu.0 < self.tree.cpu_count() && self.tree.is_placed(cpu)
    }

    /// The group of a CPU's path at a level, where there is one.
    pub fn group_at(&self, cpu: CpuId, level: u8) -> Option<GroupId>
        ensures { option_map (λ g. g.0) result ≡ group_at_of self.now cpu.0 level }
    {
        law_paths();
        if cpu.0 >= self.tree.cpu_count() {
            return None;
        }
        self.tree.group_at(cpu, level)
    }

    /// The group of a CPU's path at a level; group 0 stands in where the path has none.
    pub fn group_on(&self, cpu: CpuId, level: u8) -> GroupId
        ensures { result.0 ≡ group_on self.now cpu.0 level }
    {
        self.group_at(cpu, level).unwrap_or(GroupId(0))
    }

    /// Whether the path of a CPU has no group above a level.
    pub fn at_top(&self, cpu: CpuId, level: u8) -> bool
        requires { level < 255 }
        ensures { result ≡ at_top self.now cpu.0 level }
    {
        self.group_at(cpu, level + 1).is_none()
    }

    /// The child number of a CPU in its leaf, 0 where it has none.
    fn cpu_side(&self, cpu: CpuId) -> u8
        ensures { result ≡ bit_of self.now (of_cpu cpu.0) }
    {
        law_edges();
        let tree = self.tree();
        if self.is_placed(cpu) {
            tree.cpu_bit(cpu)
        } else {
            0
        }
    }

    /// The child number, in the group of a CPU's path at a level, of the child through which the
    /// path goes; 0 where it has no such group.
    pub fn side(&self, cpu: CpuId, level: u8) -> u8
        ensures side { result ≡ side self.now cpu.0 level }
        ensures a_child { result < 8 }
    {
        law_edges();
        law_paths();
        let tree = self.tree();
        if level == 0 {
            return self.cpu_side(cpu);
        }
        match self.group_at(cpu, level - 1) {
            Some(below) => tree.bit(below),
            None => 0,
        }
    }
}
