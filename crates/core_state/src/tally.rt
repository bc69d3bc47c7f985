//! What is noted of all CPUs, so that asking for it costs no walk over them.

ghost use Rattle.std.specs.Prelude.{◌≡◌, ◌<◌, ◌&&◌, ◌↔◌, IfOk, IsTrue, length, replicate, true};
ghost use Rattle.std.specs.Prelude.{slice_index_or, slice_set};
ghost use Rattle.tree_plan.specs.Paths.{cpu_count_of, is_placed_in};
ghost use Rattle.core_parts.specs.core_world.World.{no_cpu};
ghost use Rattle.core_parts.specs.Status.{with_status};
ghost use Rattle.core_state.specs.Tally.{IsTallied, MayCountIn, MayCountOut, TalliesFirst};
ghost use Rattle.core_state.specs.Tally.{TalliesOneMore, one_if};

use core_parts::{CoreCpu, CpuStatus};
use std::alloc::Global;
use std::marker::Model;
use tm_base::{CpuId, NoMemory};
use tree_plan::Tree;
use wheel_core::TimerBase;

/// How many CPUs each CPU has marked, and how many placed CPUs are online.
#[derive(Drop)]
pub struct Tally {
    marks: Vec<u16>,
    online: u16,
}

impl Model for Tally {
    ghost use Rattle.core_state.specs.Tally.{CpuTally};

    ghost Value = { CpuTally };

    ghost view = { λ t. record { marks = t.marks.items; online = t.online } };
}

/// Whether a CPU is placed and online; `online` says whether it is online.
pub(crate) fn is_placed_online(tree: &Tree, cpu: CpuId, online: bool) -> bool
    requires { cpu.0 < cpu_count_of tree.now }
    ensures { result ≡ (is_placed_in tree.now cpu.0 && online) }
{
    tree.is_placed(cpu) && online
}

/// Whether a CPU of the one status is counted as one of the other: it has the same mark, and is
/// online or not in both.
fn counts_alike(before: CpuStatus, after: CpuStatus) -> bool
    ensures mark { result ≡ true → before.mark ≡ after.mark }
    ensures online { result ≡ true → before.online ≡ after.online }
{
    before.mark == after.mark && before.online == after.online
}

impl Tally {
    /// Room for so many CPUs, none of which is counted yet.
    pub fn new(alloc: Global, count: u16) -> Result<Tally, NoMemory>
        ensures marks { IfOk result (λ tally. tally.marks ≡ replicate count 0) }
        ensures online { IfOk result (λ tally. tally.online ≡ 0) }
    {
        let mut marks = Vec::new(alloc);
        for _cpu in 0..count {
            marks.push(0)?;
        }
        Ok(Tally { marks, online: 0 })
    }

    /// Whether a CPU has marked another one.
    pub(crate) fn has_marked(&self, cpu: CpuId) -> bool
        requires { cpu.0 < length self.now.marks }
        ensures { IsTrue result ↔ (0 < slice_index_or self.now.marks cpu.0 0) }
    {
        self.marks[usize::from(cpu.0)] > 0
    }

    /// Whether a placed CPU is online besides this one, which may be such a CPU itself.
    pub(crate) fn counts_others(&self, placed_online: bool) -> bool
        ensures { IsTrue result ↔ (one_if placed_online < self.now.online) }
    {
        if placed_online {
            self.online > 1
        } else {
            self.online > 0
        }
    }

    /// Counts a CPU in, by its mark and by whether it is placed and online.
    fn count_in(&mut self, mark: Option<u16>, placed_online: bool)
        requires { MayCountIn self.old mark placed_online }
        ensures { TalliesOneMore self.old self.new mark placed_online }
    {
        if let Some(by) = mark {
            let by = usize::from(by);
            if by < self.marks.len() {
                self.marks[by] += 1;
            }
        }
        if placed_online {
            self.online += 1;
        }
    }

    /// Counts a CPU out that was counted in by this mark and by whether it is placed and online.
    fn count_out(&mut self, mark: Option<u16>, placed_online: bool)
        requires { MayCountOut self.old mark placed_online }
        ensures { TalliesOneMore self.new self.old mark placed_online }
    {
        if let Some(by) = mark {
            let by = usize::from(by);
            if by < self.marks.len() {
                self.marks[by] -= 1;
            }
        }
        if placed_online {
            self.online -= 1;
        }
    }

    /// A CPU is counted with another status. Most steps change neither its mark nor whether it is
    /// online, and then nothing is counted anew.
    pub(crate) fn recount<B: TimerBase>(
        &mut self,
        tree: &Tree,
        cpus: &Vec<CoreCpu<B>>,
        cpu: CpuId,
        status: CpuStatus,
    )
        requires cpu { cpu.0 < length cpus.now.items }
        requires each_cpu { length cpus.now.items ≡ cpu_count_of tree.now }
        requires tallied { IsTallied tree.now cpus.now.items self.old }
        ensures { IsTallied tree.now (slice_set cpus.now.items cpu.0
            (with_status (slice_index_or cpus.now.items cpu.0 no_cpu) status)) self.new }
    {
        tree.cpu_count();
        let before = cpus[usize::from(cpu.0)].status();
        if counts_alike(before, status) {
            return;
        }
        self.count_out(before.mark, is_placed_online(tree, cpu, before.online));
        self.count_in(status.mark, is_placed_online(tree, cpu, status.online));
    }

    /// No CPU is counted any more.
    fn clear(&mut self)
        ensures marks { self.new.marks ≡ replicate (length self.old.marks) 0 }
        ensures online { self.new.online ≡ 0 }
    {
        self.marks.fill(0);
        self.online = 0;
    }

    /// Counts the CPUs of a tree, of which none is counted yet.
    fn count_all<B: TimerBase>(&mut self, tree: &Tree, cpus: &Vec<CoreCpu<B>>)
        requires each_cpu { length cpus.now.items ≡ cpu_count_of tree.now }
        requires none { TalliesFirst tree.now cpus.now.items 0 self.old }
        ensures { IsTallied tree.now cpus.now.items self.new }
    {
        for cpu in 0..tree.cpu_count() {
            let status = cpus[usize::from(cpu)].status();
            self.count_in(
                status.mark,
                is_placed_online(tree, CpuId(cpu), status.online),
            );
        }
    }
}

/// The tally of the CPUs of a tree, in the room of one that counted as many.
pub(crate) fn tally_in<B: TimerBase>(room: Tally, tree: &Tree, cpus: &Vec<CoreCpu<B>>) -> Tally
    requires each_cpu { length cpus.now.items ≡ cpu_count_of tree.now }
    requires room { length room.marks ≡ length cpus.now.items }
    ensures { IsTallied tree.now cpus.now.items result }
{
    let mut tally = room;
    tally.clear();
    tally.count_all(tree, cpus);
    tally
}
