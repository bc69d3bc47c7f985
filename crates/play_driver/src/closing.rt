//! The end of a play.

ghost use Rattle.std.specs.Prelude.{◌<◌, OnOk};
ghost use Rattle.play_rules.specs.Moments.{closing, left};
ghost use Rattle.play_rules.specs.Parts.{Gains, Prints, lines_told};

use crate::listeners::Listener;
use crate::telling::Telling;
use play_rules::PlayMachine;
use tm_base::{Jiffy, NoMemory, TimerId};
use tm_report::Line;

/// A line for each timer that is still queued, by ascending timer.
fn left_over<M: PlayMachine, L: Listener>(
    machine: &M,
    telling: &mut Telling<L>,
) -> Result<(), NoMemory>
    ensures prints { OnOk result
        (Prints
        (lines_told (left M.rules (M.rules.timers (M.world machine.now)) 0 (M.world machine.now))
        (M.world machine.now))
        telling.old telling.new (M.world machine.now)) }
    ensures gains { Gains telling.old.text telling.new.text }
{
    for number in 0..machine.timers() {
        let timer = TimerId(number);
        if let Some(held) = machine.queued(timer) {
            telling.tell(&Line::Left {
                timer,
                cpu: held.cpu,
                class: held.class,
                wheel: held.wheel,
            })?;
        }
    }
    Ok(())
}

/// The last lines of a play: the timers that are still queued, and the end.
pub fn close<M: PlayMachine, L: Listener>(
    machine: &M,
    end: Jiffy,
    telling: &mut Telling<L>,
) -> Result<(), NoMemory>
    ensures prints { OnOk result
        (Prints (lines_told (closing M.rules end (M.world machine.now)) (M.world machine.now))
        telling.old telling.new (M.world machine.now)) }
    ensures gains { Gains telling.old.text telling.new.text }
{
    left_over(machine, telling)?;
    telling.tell(&Line::End { now: end })
}
