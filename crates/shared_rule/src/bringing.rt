//! A pass is brought into a part, and goes from it.

ghost use Rattle.std.specs.Prelude.{◌≡◌, [], None};
ghost use Rattle.shared_rule.specs.Rule.{Each};
ghost use Rattle.shared_rule.specs.Plays.{Agree};
ghost use Rattle.shared_rule.specs.Passes.{IsOfRun, away};
ghost use Rattle.shared_rule.specs.Parts.{HasGuest, pass_parted, with_guest, without_guest};

use crate::box_part::BoxPart;
use crate::meeting::meet;
use crate::pass::Pass;
use crate::run::{Run, RunName};
use crate::{PassRenewed, Together, law_seats};
use wheel_core::TimerBase;

/// The pass goes into the part, bytes and seat.
pub fn bring<N: RunName, B: TimerBase>(run: &Run<N, B>, part: &mut BoxPart<N, B>, pass: &mut Pass)
    requires pass { IsOfRun N.table pass.old }
    requires alone { part.old.brought ≡ [] }
    ensures part { part.new ≡ with_guest part.old pass.old }
    ensures pass { pass.new ≡ away pass.old }
    ensures agrees { Each (Agree part.new.box) part.new.brought }
{
    law_seats();
    let (guest, seat) = pass.take();
    run.words.shared.join_seat::<Together>(&mut part.seat, seat);
    part.guest = Some(guest);
    meet(run, &mut part.seat, part.cpu);
}

/// The pass goes from the part, bytes and seat. Where the part is that of its own CPU, it takes the
/// journal as it is now along.
pub fn part_off<N: RunName, B: TimerBase>(
    run: &Run<N, B>,
    part: &mut BoxPart<N, B>,
    pass: &mut Pass,
)
    requires pass { pass.old.seated ≡ None }
    requires brought { HasGuest pass.old.cpu part.old }
    ensures part { part.new ≡ without_guest part.old }
    ensures pass { pass.new ≡ pass_parted N.table pass.old.cpu part.old }
{
    law_seats();
    let seat = run.words.shared.split_seat::<PassRenewed>(&mut part.seat);
    match part.guest.take() {
        Some(guest) => pass.put(guest, seat),
        None => unreachable!(),
    }
}
