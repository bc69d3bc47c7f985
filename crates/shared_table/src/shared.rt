//! A run as its threads share it.

ghost use Rattle.std.specs.Prelude.{◌≡◌, ℕ, ◌≤◌, ◌<◌, [], IfErr, IfOk, length, vec_capacity};
ghost use Rattle.std.specs.Prelude.{◌+◌, OnOk, suc, vec_len};
ghost use Rattle.std.specs.Sync.Mutex.{mutex_guard_value};
ghost use Rattle.core_world.specs.Covered.{IsSettled};
ghost use Rattle.core_world.specs.World.{cpu_of};
ghost use Rattle.shared_rule.specs.Rule.{seat_of, tail_of};
ghost use Rattle.shared_table.specs.Begun.{IsBoxRoom, IsSpareSeat, RoomsFit};
ghost use Rattle.shared_table.specs.Begun.{begun_passes, boxes_from, passes_from};
ghost use Rattle.shared_table.specs.Ended.{AreAllPasses};
ghost use Rattle.shared_table.specs.Readied.{MayBegin};

use crate::cpu_box::CpuBox;
use crate::cutting::{box_off, pass_off};
use crate::first_words::layout;
use crate::leaf::leaf;
use crate::ready::Ready;
use shared_rule::{CoreCpu, CoreGroup, CoreParts, Opening, Pass, Run, RunName, Seat, Tally};
use std::alloc::Global;
use std::marker::PhantomData;
use std::sync::{Mutex, MutexGuard, Wait};
use tm_base::{CpuId, Jiffy, NoMemory};
use wheel_core::TimerBase;

/// What is kept of the core for the end of the run: its clock, and room for its groups, for where
/// its timers are queued, for its CPUs and for what it counts of them; and room for the boxes as
/// they come out of their locks.
#[derive(Drop)]
pub(crate) struct Rooms<N: RunName, B: TimerBase> {
    pub(crate) clock: Jiffy,
    pub(crate) groups: Vec<CoreGroup>,
    pub(crate) holders: Vec<Option<CpuId>>,
    pub(crate) cpus: Vec<CoreCpu<B>>,
    pub(crate) tally: Tally,
    pub(crate) boxes: Vec<CpuBox<N, B>>,
}

/// A run: its words, and the box of each CPU behind a lock of its own. It may be lent to several
/// threads.
#[derive(Drop)]
pub struct Shared<N: RunName, B: TimerBase> {
    pub(crate) run: Run<N, B>,
    pub(crate) boxes: Vec<Mutex<CpuBox<N, B>>>,
    pub(crate) rooms: Rooms<N, B>,
    /// The seat that has given all parts away, and takes them in at the end.
    pub(crate) seat: Seat,
    ghost each: { vec_len boxes ≡ length N.opening.cpus },
    ghost room: { IsBoxRoom (length N.opening.cpus) (vec_len rooms.boxes)
        (vec_capacity rooms.boxes) },
    ghost spare: { IsSpareSeat N.table seat.table_id seat.me },
    ghost kept: { RoomsFit N.opening rooms.clock (vec_len rooms.groups) (vec_len rooms.holders)
        rooms.cpus.items (vec_capacity rooms.cpus) (length rooms.tally.marks) },
}

impl<N: RunName, B: TimerBase> Shared<N, B> {
    /// Begins a run over a table that is ready: a box for each CPU behind its lock, and a pass
    /// for each CPU in order, outside an interrupt and without a receipt; with these passes the run
    /// may be ended. Want of memory gives back what was ready.
    pub fn begin(
        alloc: Global,
        ready: Ready<B>,
    ) -> Result<(Shared<N, B>, Vec<Pass>), (Ready<B>, NoMemory)>
        requires table { ready.table ≡ N.table }
        requires opening { ready.core ≡ N.opening }
        ensures passes { IfOk result
            (λ r. r.1.items ≡ begun_passes N.table N.opening ready.made) }
        ensures all { IfOk result
            (λ r. AreAllPasses N.table (length N.opening.cpus) r.1.items) }
        ensures settled { OnOk result (IsSettled N.opening) }
        ensures err { IfErr result (λ e. e.0 ≡ ready) }
    {
        let count = ready.opening.core.tree().cpu_count();
        let (boxes, passes, taken) = match make_room(alloc, count) {
            Ok(room) => room,
            Err(refused) => return Err((ready, refused)),
        };
        Ok(begun(alloc, ready, boxes, passes, taken))
    }

    /// The words of the run, with its tree.
    pub fn run(&self) -> &Run<N, B> {
        &self.run
    }

    /// Takes the lock of a CPU, and answers its box. A lock tells of the box behind it only what
    /// the type says; so its CPU is looked at, and where it were another one the lock is taken
    /// again. No clause says that this never happens.
    pub fn lock<R: Wait>(&self, rt: &R, cpu: CpuId) -> MutexGuard<'_, CpuBox<N, B>>
        requires { cpu.0 < length N.opening.cpus }
        ensures { (mutex_guard_value result).box.cpu ≡ cpu.0 }
    {
        let cpu_box = &self.boxes[usize::from(cpu.0)];
        for _ in rt.forever() {
            let guard = cpu_box.lock(rt);
            if guard.cpu() == cpu {
                return guard;
            }
        }
        unreachable!()
    }
}

/// Room for so many boxes behind their locks, for as many passes, and for the boxes at the end.
fn make_room<N: RunName, B: TimerBase>(
    alloc: Global,
    count: u16,
) -> Result<(Vec<Mutex<CpuBox<N, B>>>, Vec<Pass>, Vec<CpuBox<N, B>>), NoMemory>
    ensures boxes { IfOk result (λ r. (vec_len r.0 ≡ 0) × (count ≤ vec_capacity r.0)) }
    ensures passes { IfOk result (λ r. (r.1.items ≡ []) × (count ≤ vec_capacity r.1)) }
    ensures taken { IfOk result (λ r. IsBoxRoom count (vec_len r.2) (vec_capacity r.2)) }
{
    let boxes = Vec::with_capacity(alloc, usize::from(count))?;
    let passes = Vec::with_capacity(alloc, usize::from(count))?;
    let taken = Vec::with_capacity(alloc, usize::from(count))?;
    Ok((boxes, passes, taken))
}

/// The run of a table that is ready, where there is room for its boxes and passes.
fn begun<N: RunName, B: TimerBase>(
    alloc: Global,
    ready: Ready<B>,
    boxes: Vec<Mutex<CpuBox<N, B>>>,
    passes: Vec<Pass>,
    taken: Vec<CpuBox<N, B>>,
) -> (Shared<N, B>, Vec<Pass>)
    requires table { ready.table ≡ N.table }
    requires opening { ready.core ≡ N.opening }
    requires boxes { (vec_len boxes ≡ 0) × (length N.opening.cpus ≤ vec_capacity boxes) }
    requires passes { (passes.items ≡ []) × (length N.opening.cpus ≤ vec_capacity passes) }
    requires taken { IsBoxRoom (length N.opening.cpus) (vec_len taken) (vec_capacity taken) }
    ensures passes { result.1.items ≡ begun_passes N.table N.opening ready.made }
    ensures all { AreAllPasses N.table (length N.opening.cpus) result.1.items }
    ensures settled { IsSettled N.opening }
{
    let (mut boxes, mut passes) = (boxes, passes);
    let Ready {
        opening,
        words,
        mut seat,
        cpus: room,
    } = ready;
    let layout = layout(&opening.core);
    let Opening { core, made } = opening;
    core.tree();
    let CoreParts {
        tree,
        clock,
        groups,
        cpus,
        holders,
        tally,
    } = core.into_parts();
    let run = Run {
        words,
        tree,
        layout,
        name: PhantomData,
    };
    fill_boxes(&run, &mut seat, groups.as_slice(), cpus, &mut boxes);
    fill_passes(alloc, &run, &mut seat, made, &mut passes);
    let rooms = Rooms {
        clock,
        groups,
        holders,
        cpus: room,
        tally,
        boxes: taken,
    };
    (
        Shared {
            run,
            boxes,
            rooms,
            seat,
        },
        passes,
    )
}

/// The boxes of all CPUs, in order, each with the first part that the seat then has.
fn fill_boxes<N: RunName, B: TimerBase>(
    run: &Run<N, B>,
    seat: &mut Seat,
    groups: &[CoreGroup],
    cpus: Vec<CoreCpu<B>>,
    boxes: &mut Vec<Mutex<CpuBox<N, B>>>,
)
    requires may { (made : ℕ) × MayBegin N.opening made }
    requires groups { groups.now ≡ N.opening.groups }
    requires cpus { cpus.items ≡ N.opening.cpus }
    requires room { (vec_len boxes.old ≡ 0) × (length N.opening.cpus ≤ vec_capacity boxes.old) }
    requires table { seat.old.table_id ≡ N.table }
    requires all { seat.old.me
        ≡ seat_of (boxes_from N.opening 0 (length N.opening.cpus)) seat.old.me.0.passes }
    ensures each { vec_len boxes.new ≡ length N.opening.cpus }
    ensures table { seat.new.table_id ≡ N.table }
    ensures left { seat.new.me ≡ seat_of [] seat.old.me.0.passes }
{
    let count = run.layout.cpus;
    let mut rest = cpus.into_iter();
    for cpu in 0..count {
        match rest.next() {
            Some(own) => push_box(run, seat, groups, CpuId(cpu), own, boxes),
            None => unreachable!(),
        }
    }
}

/// The box of the next CPU.
fn push_box<N: RunName, B: TimerBase>(
    run: &Run<N, B>,
    seat: &mut Seat,
    groups: &[CoreGroup],
    cpu: CpuId,
    own: CoreCpu<B>,
    boxes: &mut Vec<Mutex<CpuBox<N, B>>>,
)
    requires may { (made : ℕ) × MayBegin N.opening made }
    requires groups { groups.now ≡ N.opening.groups }
    requires cpu { cpu.0 < length N.opening.cpus }
    requires own { own ≡ cpu_of N.opening cpu.0 }
    requires room { vec_len boxes.old < vec_capacity boxes.old }
    requires table { seat.old.table_id ≡ N.table }
    requires first { (rest : ℕ) × (seat.old.me
        ≡ seat_of (boxes_from N.opening cpu.0 (suc rest)) seat.old.me.0.passes) }
    ensures one { vec_len boxes.new ≡ vec_len boxes.old + 1 }
    ensures room { vec_capacity boxes.old ≤ vec_capacity boxes.new }
    ensures table { seat.new.table_id ≡ N.table }
    ensures left { seat.new.me
        ≡ seat_of (tail_of seat.old.me.0.boxes) seat.old.me.0.passes }
{
    let slot = leaf(&run.tree, groups, cpu);
    let cpu_box = box_off(run, seat, cpu, own, slot);
    boxes.push(Mutex::new(cpu_box)).unwrap();
}

/// The passes of all CPUs, in order, each with the first part that the seat then has.
fn fill_passes<N: RunName, B: TimerBase>(
    alloc: Global,
    run: &Run<N, B>,
    seat: &mut Seat,
    made: u32,
    passes: &mut Vec<Pass>,
)
    requires room { length N.opening.cpus ≤ vec_capacity passes.old }
    requires none { passes.old.items ≡ [] }
    requires table { seat.old.table_id ≡ N.table }
    requires all { seat.old.me
        ≡ seat_of [] (passes_from N.opening made 0 (length N.opening.cpus)) }
    ensures passes { passes.new.items ≡ begun_passes N.table N.opening made }
    ensures table { seat.new.table_id ≡ N.table }
    ensures left { seat.new.me ≡ seat_of [] [] }
{
    let count = run.layout.cpus;
    for cpu in 0..count {
        let pass = pass_off(alloc, run, seat, CpuId(cpu), made);
        passes.push(pass).unwrap();
    }
}
