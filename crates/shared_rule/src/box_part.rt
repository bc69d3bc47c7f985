//! What lies behind a CPU's lock.

ghost use Rattle.std.specs.Prelude.{◌≡◌, ◌<◌, ◌∷◌, [], length, option_map};
ghost use Rattle.core_state.specs.Shown.{as_cpu, shown_cpu};
ghost use Rattle.core_state.specs.Status.{record_of};
ghost use Rattle.shared_rule.specs.Rule.{Each, seat_of};
ghost use Rattle.shared_rule.specs.Plays.{Agree, PartFits};

use crate::Seat;
use crate::meeting::meet;
use crate::receipts::Receipts;
use crate::run::{Run, RunName};
use core_state::CpuStatus;
use cpu_bases::Bases;
use event_queue::Event;
use shared_words::CpuState;
use std::marker::{Model, PhantomData};
use tm_base::CpuId;
use walk_rules::Walk;
use wheel_core::TimerBase;

/// The bytes of a pass that is brought into a part.
#[derive(Drop)]
pub struct Guest {
    /// The CPU of the pass.
    pub cpu: CpuId,
    /// The number of walks begun with it.
    pub walks: u32,
    /// The entries that it wrote.
    pub receipts: Receipts,
}

/// The part of one CPU: what the CPU is, its timers, its walk, and its seat, whose view is this
/// content. A pass may be brought into it.
#[derive(Drop)]
pub struct BoxPart<N: RunName, B: TimerBase> {
    pub cpu: CpuId,
    pub status: CpuStatus,
    pub bases: Bases<B>,
    /// The CPU's slot in its leaf, None where it is empty or the CPU has no group.
    pub leaf: Option<Event>,
    /// The word of a group that the CPU's walk read last.
    pub read: u64,
    /// The bytes of the pass that is brought.
    pub guest: Option<Guest>,
    pub seat: Seat,
    pub name: PhantomData<N>,
}

impl<N: RunName, B: TimerBase> Model for BoxPart<N, B> {
    ghost use Rattle.std.specs.Coded.{codes};
    ghost use Rattle.tree_plan.specs.Codes.{shape_code};
    ghost use Rattle.shared_rule.specs.Parts.{HeldPart};

    ghost Value = { HeldPart };

    ghost coded = { Prim.hlevel (codes, shape_code) };

    ghost use Rattle.shared_rule.specs.Parts.{PartHolds, box_held, guest_room, looked_of};

    ghost view = { λ p. record {
      box = box_held N.opening p.cpu.0 p.status p.bases.plain p.leaf p.read
          (looked_of p.seat.me.0.boxes);
      brought = p.seat.me.0.passes;
      room = p.bases.room;
      receipts_room = guest_room p.guest;
    } };

    ghost invariant = { λ p.
        PartHolds N.table p.seat.table_id
        (box_held N.opening p.cpu.0 p.status p.bases.plain p.leaf p.read
        (looked_of p.seat.me.0.boxes))
        p.guest p.seat.me };
}

/// The CPU of a number.
fn cpu_of_number(number: Option<u16>) -> Option<CpuId>
    ensures { result ≡ option_map as_cpu number }
{
    match number {
        Some(number) => Some(CpuId(number)),
        None => None,
    }
}

impl<N: RunName, B: TimerBase> BoxPart<N, B> {
    ghost use Rattle.shared_rule.specs.Whole.{no_looks};
    ghost use Rattle.shared_rule.specs.Parts.{box_held};

    /// The CPU.
    pub fn cpu(&self) -> CpuId
        ensures { result.0 ≡ self.now.box.cpu }
    {
        self.cpu
    }

    /// The CPU's timers and its journal.
    pub fn bases(&self) -> &Bases<B>
        ensures plain { result.now.plain ≡ self.now.box.own.bases }
        ensures room { result.now.room ≡ self.now.room }
    {
        &self.bases
    }

    /// What the CPU shows of itself.
    pub fn state(&self) -> CpuState
        ensures { result ≡ shown_cpu self.now.box.own }
    {
        CpuState {
            online: self.status.online,
            idle: self.status.idle,
            inside: self.status.inside,
            remote: cpu_of_number(self.status.mark),
            wakeup: self.status.wakeup,
        }
    }

    /// The CPU's walk, None exactly where there is none.
    pub fn walk(&self) -> Option<Walk>
        ensures { result ≡ self.now.box.own.walk }
    {
        self.status.walk
    }

    /// Does nothing: its contract says what every part keeps. It is of the core with which its run
    /// began, it fits, and it agrees with each pass that is brought.
    pub fn law(&self)
        ensures opening { self.now.box.opening ≡ N.opening }
        ensures fits { PartFits self.now.box }
        ensures agrees { Each (Agree self.now.box) self.now.brought }
    {
        let _ = &self.cpu;
    }

    /// The part of a CPU with this content, of whose seat the view is that content.
    pub fn new(
        run: &Run<N, B>,
        cpu: CpuId,
        status: CpuStatus,
        bases: Bases<B>,
        leaf: Option<Event>,
        seat: Seat,
    ) -> BoxPart<N, B>
        requires table { seat.table_id ≡ N.table }
        requires cpu { cpu.0 < length N.opening.cpus }
        requires view { seat.me ≡ seat_of (box_held N.opening cpu.0 status bases.plain leaf 0
            no_looks ∷ []) [] }
        ensures { result ≡ record {
          box = box_held N.opening cpu.0 status bases.plain leaf 0 no_looks;
          brought = [];
          room = bases.room;
          receipts_room = 0;
        } }
    {
        let mut seat = seat;
        meet(run, &mut seat, cpu);
        BoxPart {
            cpu,
            status,
            bases,
            leaf,
            read: 0,
            guest: None,
            seat,
            name: PhantomData,
        }
    }

    /// Takes the part apart.
    pub fn into_parts(self) -> (CpuStatus, Bases<B>, Seat)
        requires { self.brought ≡ [] }
        ensures table { result.2.table_id ≡ N.table }
        ensures view { result.2.me ≡ seat_of (self.box ∷ []) [] }
        ensures own { record_of result.0 result.1.plain ≡ self.box.own }
        ensures room { result.1.room ≡ self.room }
        ensures fits { PartFits self.box }
    {
        let BoxPart {
            cpu: _,
            status,
            bases,
            leaf: _,
            read: _,
            guest: _,
            seat,
            name: _,
        } = self;
        (status, bases, seat)
    }
}
