//! A thread's pass.

ghost use Rattle.std.specs.Prelude.{◌≡◌, ◌≢◌, ◌+◌, ◌≤◌, [], ◌∷◌, None, length, IsOk, OnErr, OnOk};
ghost use Rattle.atomic_table.specs.Seated.{TableId};
ghost use Rattle.shared_rule.specs.declared.parts.PassView.{PassView};
ghost use Rattle.shared_rule.specs.Rule.{seat_of};
ghost use Rattle.shared_rule.specs.Passes.{IsPassIn, IsSeatOf, away, receipts_of, seated_of};
ghost use Rattle.shared_rule.specs.Passes.{walks_of, with_receipts_room};
ghost use Rattle.shared_rule.specs.Parts.{IsGuest};

use crate::Seat;
use crate::box_part::Guest;
use crate::receipts::Receipts;
use std::marker::Model;
use std::mem;
use tm_base::{CpuId, NoMemory};

/// One CPU's seat for its thread, with the entries that it wrote and the number of walks begun with
/// it. While it is brought into a part it has no seat, and its bytes are there.
#[derive(Drop)]
pub struct Pass {
    pub(crate) cpu: CpuId,
    pub(crate) walks: u32,
    pub(crate) receipts: Receipts,
    pub(crate) seat: Option<Seat>,
}

impl Model for Pass {
    ghost use Rattle.std.specs.Prelude.{option_map};
    ghost use Rattle.std.specs.Coded.{codes};
    ghost use Rattle.tree_plan.specs.Codes.{shape_code};
    ghost use Rattle.atomic_table.specs.Seated.{table_id_coded};
    ghost use Rattle.shared_rule.specs.Passes.{HeldPass, PassHolds, seat_in};

    ghost Value = { HeldPass };

    ghost coded = { Prim.hlevel (codes, shape_code, table_id_coded) };

    ghost view = { λ p. record {
      cpu = p.cpu.0;
      room = p.receipts.capacity;
      seated = seat_in (option_map (λ s. (s.table_id, s.me)) p.seat);
    } };

    ghost invariant = { λ p.
        PassHolds (option_map (λ s. (s.table_id, s.me)) p.seat) p.cpu.0 p.walks
        p.receipts.receipts };
}

impl Pass {
    /// The pass of a CPU with its bytes and its seat.
    pub fn new(cpu: CpuId, walks: u32, receipts: Receipts, seat: Seat) -> Pass
        requires { (p : PassView) × IsSeatOf seat.me p cpu.0 walks receipts.receipts }
        ensures { result ≡ record {
          cpu = cpu.0;
          room = receipts.capacity;
          seated = seated_of seat.table_id seat.me.0.passes;
        } }
    {
        Pass {
            cpu,
            walks,
            receipts,
            seat: Some(seat),
        }
    }

    /// The CPU.
    pub fn cpu(&self) -> CpuId
        ensures { result.0 ≡ self.now.cpu }
    {
        self.cpu
    }

    /// The number of walks begun with it, those among them with which it began; 0 while it is
    /// brought into a part.
    pub fn walks(&self) -> u32
        ensures { result ≡ walks_of self.now.seated }
    {
        self.walks
    }

    /// Receipts for the entries that it wrote, in order; none while it is brought into a part.
    pub fn receipts(&self) -> &Receipts
        ensures receipts { result.now.receipts ≡ receipts_of self.now.seated }
        ensures room { result.now.capacity ≡ self.now.room }
    {
        &self.receipts
    }

    /// Takes memory for `n` more receipts, where there is less. Want of memory leaves the pass as
    /// it was.
    pub fn reserve(&mut self, n: usize) -> Result<(), NoMemory>
        ensures enough { length (receipts_of self.old.seated) + n ≤ self.old.room
            → IsOk result }
        ensures ok { OnOk result (self.new ≡ with_receipts_room n self.old) }
        ensures err { OnErr result (self.new ≡ self.old) }
    {
        self.receipts.reserve(n)
    }

    /// Does nothing: its contract says that a pass and its seat are of one CPU.
    pub fn law(&self)
        ensures { (table : TableId) (p : PassView) → IsPassIn table self.now p
            → p.cpu ≡ self.now.cpu }
    {
        let _ = &self.cpu;
    }

    /// Its seat, which knows the pass alone.
    pub fn into_seat(self) -> Seat
        requires { self.seated ≢ None }
        ensures { (p : PassView) × IsPassIn result.table_id self p
            × (result.me ≡ seat_of [] (p ∷ [])) }
    {
        let Pass {
            cpu: _,
            walks: _,
            receipts: _,
            seat,
        } = self;
        match seat {
            Some(seat) => seat,
            None => unreachable!(),
        }
    }

    /// Takes seat and bytes out.
    pub(crate) fn take(&mut self) -> (Guest, Seat)
        requires { self.old.seated ≢ None }
        ensures away { self.new ≡ away self.old }
        ensures seat { (p : PassView) × IsPassIn result.1.table_id self.old p
            × (result.1.me ≡ seat_of [] (p ∷ [])) × IsGuest result.0 p }
        ensures room { result.0.receipts.capacity ≡ self.old.room }
        ensures cpu { result.0.cpu.0 ≡ self.old.cpu }
    {
        let guest = Guest {
            cpu: self.cpu,
            walks: mem::replace(&mut self.walks, 0),
            receipts: self.receipts.take(),
        };
        match self.seat.take() {
            Some(seat) => (guest, seat),
            None => unreachable!(),
        }
    }

    /// Puts seat and bytes back.
    pub(crate) fn put(&mut self, guest: Guest, seat: Seat)
        requires part { (p : PassView) × (seat.me ≡ seat_of [] (p ∷ [])) × IsGuest guest p }
        requires cpu { guest.cpu.0 ≡ self.old.cpu }
        ensures { self.new ≡ record {
          cpu = self.old.cpu;
          room = guest.receipts.capacity;
          seated = seated_of seat.table_id seat.me.0.passes;
        } }
    {
        self.walks = guest.walks;
        self.receipts = guest.receipts;
        self.seat = Some(seat);
    }
}
