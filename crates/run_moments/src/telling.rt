//! What is told of a round: its lines, its work, and who answers after it.

ghost use Rattle.std.specs.Prelude.{◌≡◌, ◌+◌, ◌++◌, OnOk, [], ◌∷◌};
ghost use Rattle.std.specs.Option.{option_copied};
ghost use Rattle.tm_report.specs.Lines.{line_text, report_text};
ghost use Rattle.play_rules.specs.Parts.{Gains, counted};
ghost use Rattle.run_plain.specs.step_play.Rules.Seen.{InRun, resting};
ghost use Rattle.run_plain.specs.run_story.Stories.{covers_of, is_run, runs_told};
ghost use Rattle.run_moments.specs.Runs.{TellsRound};

use core_plays::RunPlayer;
use play_driver::{Telling, covers};
use tm_base::NoMemory;
use tm_report::{Line, Report};
use tm_script::Moment;
use wheel_base::WheelBase;

/// Whether a line tells of a timer that ran.
fn is_run(line: &Line) -> bool
    ensures { result ≡ is_run line.now }
{
    matches!(line, Line::Run { .. })
}

/// Tells a line of a round, and counts it where it tells of a timer that ran.
fn tell_one(line: &Line, telling: &mut Telling<Report>) -> Result<(), NoMemory>
    ensures text { OnOk result (telling.new.text ≡ telling.old.text ++ line_text line.now) }
    ensures work { OnOk result
        (telling.new.work ≡ counted (telling.old.work + runs_told (line.now ∷ []))) }
    ensures gains { Gains telling.old.text telling.new.text }
{
    telling.count_all(u32::from(is_run(line)));
    telling.tell(line)
}

/// Tells the lines of a round, and counts the timers that ran.
fn tell_all(lines: &[Line], telling: &mut Telling<Report>) -> Result<(), NoMemory>
    ensures text { OnOk result (telling.new.text ≡ telling.old.text ++ report_text lines.now) }
    ensures work { OnOk result
        (counted telling.new.work ≡ counted (telling.old.work + runs_told lines.now)) }
    ensures gains { Gains telling.old.text telling.new.text }
{
    for line in lines {
        tell_one(line, telling)?;
    }
    Ok(())
}

/// Who answers for each idle CPU that has a global timer, in a moment of the script.
fn told_covers(
    player: &RunPlayer<WheelBase>,
    m: Option<&Moment>,
    telling: &mut Telling<Report>,
) -> Result<(), NoMemory>
    requires fit { InRun resting player.now }
    ensures text { OnOk result (telling.new.text ≡
        telling.old.text ++ report_text (covers_of (option_copied m.entry) player.now)) }
    ensures work { OnOk result (counted telling.new.work ≡ counted telling.old.work) }
    ensures gains { Gains telling.old.text telling.new.text }
{
    match m {
        Some(_) => covers(player, telling),
        None => Ok(()),
    }
}

/// Tells of a round with so many interrupts, which left the core as it is: its lines, and who
/// answers in the moment.
pub(crate) fn tell_round(
    player: &RunPlayer<WheelBase>,
    interrupts: u16,
    lines: &[Line],
    m: Option<&Moment>,
    telling: &mut Telling<Report>,
) -> Result<(), NoMemory>
    requires fit { InRun resting player.now }
    ensures tells { OnOk result
        (TellsRound interrupts (option_copied m.entry) player.now lines.now
        telling.old telling.new) }
    ensures gains { Gains telling.old.text telling.new.text }
{
    telling.count_all(1 + u32::from(interrupts));
    tell_all(lines, telling)?;
    told_covers(player, m, telling)?;
    Ok(())
}
