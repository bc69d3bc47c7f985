//! The lines that tell what an interrupt ran.

ghost use Rattle.std.specs.Prelude.{◌≡◌, ◌++◌, OnOk, map};
ghost use Rattle.run_shares.specs.Lines.{ran_line, reply_shown_of};

use shared_acts::{Ran, RanReply, Runs};
use tm_base::{CpuId, Jiffy, NoMemory};
use tm_report::{Line, ShownReply};

/// What a line shows of what became of a timer.
fn shown_of(reply: RanReply) -> ShownReply
    ensures { result ≡ reply_shown_of reply }
{
    match reply {
        RanReply::Done => ShownReply::Done,
        RanReply::Mark(mark) => ShownReply::Mark(mark),
        RanReply::Again { class, wheel } => ShownReply::Again { class, wheel },
        RanReply::Skip { cpu } => ShownReply::Skip { cpu },
    }
}

/// The line of a timer that was run by a CPU.
fn ran_line(now: Jiffy, runner: CpuId, ran: Ran) -> Line
    ensures { result ≡ ran_line now runner ran }
{
    Line::Run {
        now,
        runner,
        timer: ran.timer,
        home: ran.home,
        wheel: ran.wheel,
        reply: shown_of(ran.reply),
    }
}

/// A line for each timer that was run, in order.
pub fn tell_runs(
    runs: &Runs,
    now: Jiffy,
    runner: CpuId,
    lines: &mut Vec<Line>,
) -> Result<(), NoMemory>
    ensures { OnOk result
        (lines.new.items ≡ lines.old.items ++ map (ran_line now runner) runs.now.runs) }
{
    for i in 0..runs.len() {
        let Some(ran) = runs.get(i) else {
            unreachable!();
        };
        lines.push(ran_line(now, runner, *ran))?;
    }
    Ok(())
}
