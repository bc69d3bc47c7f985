//! What a seat is told besides by every step: that its parts fit and agree.

ghost use Rattle.std.specs.Prelude.{◌≡◌, ◌<◌, [], ◌∷◌, length};
ghost use Rattle.shared_rule.specs.declared.parts.BoxView.{BoxView};
ghost use Rattle.shared_rule.specs.Rule.{seat_of};
ghost use Rattle.shared_rule.specs.Plays.{Sound};
ghost use Rattle.shared_rule.specs.Parts as parts;

use crate::run::{Run, RunName};
use crate::{Said, Seat, View, core_laws};
use atomic_table::Play;
use shared_words::SharedWord;
use tm_base::CpuId;
use wheel_core::TimerBase;

/// A load of the word of a part's CPU, which tells that the parts of a seat fit and agree.
pub struct Meets;

impl Play<Said, View> for Meets {
    ghost then = { parts.Meets };
}

/// The seat of a part learns that its parts fit and agree, by a load of the word of its CPU.
pub(crate) fn meet<N: RunName, B: TimerBase>(run: &Run<N, B>, seat: &mut Seat, cpu: CpuId)
    requires table { seat.old.table_id ≡ N.table }
    requires part { (b : BoxView) × (b.cpu ≡ cpu.0)
        × (seat.old.me ≡ seat_of (b ∷ []) seat.old.me.0.passes) }
    requires cpu { cpu.0 < length N.opening.cpus }
    ensures table { seat.new.table_id ≡ N.table }
    ensures same { seat.new.me ≡ seat.old.me }
    ensures sound { Sound seat.new.me }
{
    core_laws();
    let place = run.layout.index(SharedWord::Cpu(cpu));
    run.words.shared.load::<Meets>(seat, place);
}
