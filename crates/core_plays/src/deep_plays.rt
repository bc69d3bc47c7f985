//! Playing a script on the core while its idle CPUs sleep under one broadcast device.

ghost use Rattle.std.specs.Prelude.{IfErr, OnOk};
ghost use Rattle.tm_script.specs.Grammar.{IsScript};
ghost use Rattle.core_plays.specs.Deep.{BreaksDeep, DeepToEnd};

use crate::plays::{law_plays, started};
use crate::sleeping::deep_on;
use core_machine::law_steps_are_play;
use job_table::Jobs;
use play_driver::DriveFault;
use std::alloc::Global;
use tm_report::Report;
use tm_script::Script;

/// Plays a script from its start into a report, as `play` does, while each idle CPU sleeps under
/// one broadcast device (the kernel's `tick_handle_oneshot_broadcast`). In a moment the device
/// fires where its time has come, and the CPUs with an interrupt are the online active ones and
/// those that it wakes. After the moment it is settled; where its time isn't what it was after the
/// moment before, or `NEVER` before the first one, the line `device` follows the moment's lines.
///
/// The refusals are those of `play`, and come where they come there.
pub fn deep<J: Jobs>(
    alloc: Global,
    script: &Script,
    jobs: &J,
    report: &mut Report,
) -> Result<(), DriveFault>
    requires { IsScript script.now }
    ensures whole { OnOk result
        (DeepToEnd (J.replies jobs.now) (J.count jobs.now) script.now report.old report.new) }
    ensures fault { IfErr result (λ fault.
        BreaksDeep (J.replies jobs.now) (J.count jobs.now) script.now fault report.old report.new) }
{
    law_plays();
    law_steps_are_play();
    let mut player = started(alloc, script)?;
    let played = deep_on(alloc, &mut player, script, jobs, report);
    drop(player);
    played
}
