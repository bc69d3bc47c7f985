//! The seat of a whole core, cut into one for each box and each pass.

ghost use Rattle.std.specs.Prelude.{◌≡◌, ℕ, suc, ◌<◌, [], length};
ghost use Rattle.core_world.specs.World.{cpu_of};
ghost use Rattle.shared_rule.specs.Rule.{seat_of, tail_of};
ghost use Rattle.shared_rule.specs.Whole.{leaf_of};
ghost use Rattle.shared_table.specs.Begun.{begun_pass, boxes_from, first_box_of, passes_from};
ghost use Rattle.shared_table.specs.Readied.{HasNoneBehind};
ghost use Rattle.std.specs.Prelude.{None};

use crate::cpu_box::CpuBox;
use event_queue::Event;
use shared_rule::{
    BoxOff, BoxPart, CoreCpu, Pass, PassOff, Receipts, Run, RunName, Seat, law_seats,
};
use std::alloc::Global;
use tm_base::CpuId;
use wheel_core::TimerBase;

/// The box of a CPU as a run begins, whose part is the first that the seat has.
pub(crate) fn box_off<N: RunName, B: TimerBase>(
    run: &Run<N, B>,
    seat: &mut Seat,
    cpu: CpuId,
    own: CoreCpu<B>,
    leaf: Option<Event>,
) -> CpuBox<N, B>
    requires table { seat.old.table_id ≡ N.table }
    requires first { (rest : ℕ) × (seat.old.me
        ≡ seat_of (boxes_from N.opening cpu.0 (suc rest)) seat.old.me.0.passes) }
    requires cpu { cpu.0 < length N.opening.cpus }
    requires own { own ≡ cpu_of N.opening cpu.0 }
    requires leaf { leaf ≡ leaf_of N.opening cpu.0 }
    requires walkless { own.walk ≡ None }
    requires whole { HasNoneBehind own.bases }
    ensures table { seat.new.table_id ≡ N.table }
    ensures left { seat.new.me
        ≡ seat_of (tail_of seat.old.me.0.boxes) seat.old.me.0.passes }
    ensures part { result.box ≡ first_box_of N.opening cpu.0 }
{
    law_seats();
    let off = run.words.shared.split_seat::<BoxOff>(seat);
    let (status, bases) = own.into_parts();
    CpuBox {
        part: BoxPart::new(run, cpu, status, bases, leaf, off),
    }
}

/// The pass of a CPU as a run begins, whose part is the first that the seat has.
pub(crate) fn pass_off<N: RunName, B: TimerBase>(
    alloc: Global,
    run: &Run<N, B>,
    seat: &mut Seat,
    cpu: CpuId,
    made: u32,
) -> Pass
    requires table { seat.old.table_id ≡ N.table }
    requires first { (rest : ℕ) × (seat.old.me
        ≡ seat_of [] (passes_from N.opening made cpu.0 (suc rest))) }
    ensures table { seat.new.table_id ≡ N.table }
    ensures left { seat.new.me ≡ seat_of [] (tail_of seat.old.me.0.passes) }
    ensures pass { result ≡ begun_pass N.table N.opening made cpu.0 }
{
    law_seats();
    let off = run.words.shared.split_seat::<PassOff>(seat);
    Pass::new(cpu, made, Receipts::new(alloc), off)
}
