//! The seats of all passes, and of all boxes, become one again as a run ends.

ghost use Rattle.std.specs.Prelude.{◌≡◌, [], ◌∷◌, ◌++◌, ◌+◌, ◌≤◌, length, vec_capacity};
ghost use Rattle.shared_rule.specs.Rule.{Each, seen, together};
ghost use Rattle.shared_rule.specs.Passes.{IsOfRun, passes_of};
ghost use Rattle.shared_table.specs.Begun.{IsFree};
ghost use Rattle.shared_table.specs.Ended.{BeganWith};
ghost use Rattle.shared_table.specs.Joined.{owns_of, with_boxes, with_passes};

use crate::cpu_box::CpuBox;
use shared_rule::{BoxPart, CoreCpu, Pass, Run, RunName, Seat, Together, law_seats};
use wheel_core::TimerBase;

/// A seat takes another in.
fn take_in<N: RunName, B: TimerBase>(run: &Run<N, B>, seat: &mut Seat, other: Seat)
    requires table { seat.old.table_id ≡ N.table }
    requires other { other.table_id ≡ N.table }
    requires slots { other.me.1 ≡ [] }
    ensures table { seat.new.table_id ≡ N.table }
    ensures joined { seat.new.me ≡ (together seat.old.me.0 other.me.0, seat.old.me.1) }
{
    law_seats();
    run.words.shared.join_seat::<Together>(seat, other);
}

/// A seat takes that of a pass in.
fn take_pass<N: RunName, B: TimerBase>(run: &Run<N, B>, seat: &mut Seat, pass: Pass)
    requires table { seat.old.table_id ≡ N.table }
    requires pass { IsOfRun N.table pass }
    ensures table { seat.new.table_id ≡ N.table }
    ensures joined { seat.new.me
        ≡ (together seat.old.me.0 (seen [] (passes_of pass.seated)), seat.old.me.1) }
{
    take_in(run, seat, pass.into_seat());
}

/// A seat takes in those of all passes of a run, in the order in which they are given.
pub fn join_passes<N: RunName, B: TimerBase>(run: &Run<N, B>, seat: &mut Seat, passes: Vec<Pass>)
    requires table { seat.old.table_id ≡ N.table }
    requires passes { Each (IsOfRun N.table) passes.items }
    ensures table { seat.new.table_id ≡ N.table }
    ensures joined { seat.new.me ≡ with_passes seat.old.me passes.items }
{
    for pass in passes {
        take_pass(run, seat, pass);
    }
}

/// Does nothing: its contract says with which core the run of a part began.
fn law_began<N: RunName, B: TimerBase>(part: &BoxPart<N, B>)
    ensures { BeganWith N.opening part.now }
{
    let _ = &part.cpu;
}

/// A seat takes in that of a box, whose CPU is answered.
fn take_box<N: RunName, B: TimerBase>(
    run: &Run<N, B>,
    seat: &mut Seat,
    cpu_box: CpuBox<N, B>,
) -> CoreCpu<B>
    requires { seat.old.table_id ≡ N.table }
    ensures table { seat.new.table_id ≡ N.table }
    ensures joined { seat.new.me
        ≡ (together seat.old.me.0 (seen (cpu_box.box ∷ []) []), seat.old.me.1) }
    ensures own { result ≡ cpu_box.box.own }
    ensures free { IsFree cpu_box }
    ensures began { BeganWith N.opening cpu_box }
{
    law_began(&cpu_box.part);
    let (status, bases, other) = cpu_box.part.into_parts();
    take_in(run, seat, other);
    CoreCpu::from_parts(status, bases)
}

/// A seat takes in those of all boxes, in the order in which they are given; their CPUs are written
/// behind one another, for which there is room.
pub fn join_boxes<N: RunName, B: TimerBase>(
    run: &Run<N, B>,
    seat: &mut Seat,
    boxes: Vec<CpuBox<N, B>>,
    cpus: &mut Vec<CoreCpu<B>>,
)
    requires table { seat.old.table_id ≡ N.table }
    requires room { length cpus.old.items + length boxes.items ≤ vec_capacity cpus.old }
    ensures table { seat.new.table_id ≡ N.table }
    ensures joined { seat.new.me ≡ with_boxes seat.old.me boxes.items }
    ensures cpus { cpus.new.items ≡ cpus.old.items ++ owns_of boxes.items }
    ensures free { Each IsFree boxes.items }
    ensures began { Each (BeganWith N.opening) boxes.items }
{
    for cpu_box in boxes {
        let own = take_box(run, seat, cpu_box);
        cpus.push(own).unwrap();
    }
}
