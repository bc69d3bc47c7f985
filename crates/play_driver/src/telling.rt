//! What is told of a play: its lines, their tally, and the work that was done for it.

ghost use Rattle.std.specs.Prelude.{◌≡◌, ◌+◌, ◌++◌, OnOk, OnErr};
ghost use Rattle.play_rules.specs.Parts.{counted};
ghost use Rattle.play_rules.specs.Tallies.{no_lines, tallied, tallied_run};
ghost use Rattle.tm_report.specs.Lines.{line_text};

use crate::listeners::Listener;
use play_rules::Tally;
use std::marker::Model;
use tm_base::{CpuId, NoMemory};
use tm_report::{Line, Report, ShownReply};

/// Whoever hears the lines of a play, with the tally of these and the count of work, both in
/// numbers that stand still at 2^32 - 1.
#[derive(Drop)]
pub struct Telling<L: Listener> {
    listener: L,
    tally: Tally,
    work: u32,
}

impl<L: Listener> Model for Telling<L> {
    ghost use Rattle.play_rules.specs.Parts.{Progress};

    ghost Value = { Progress };

    ghost view = { λ t. record { text = L.heard t.listener; tally = t.tally; work = t.work } };
}

/// The tally with a timer more that ran.
fn tallied_run(tally: Tally, runner: CpuId, home: CpuId, reply: ShownReply) -> Tally
    ensures { result ≡ tallied_run tally runner home reply }
{
    let remote = if runner == home {
        tally.remote
    } else {
        tally.remote.saturating_add(1)
    };
    let armed = match reply {
        ShownReply::Again { .. } => tally.armed.saturating_add(1),
        _ => tally.armed,
    };
    Tally {
        runs: tally.runs.saturating_add(1),
        remote,
        armed,
        ..tally
    }
}

/// The tally with a line more.
fn tallied(tally: Tally, line: &Line) -> Tally
    ensures { result ≡ tallied tally line.now }
{
    match *line {
        Line::Arm { .. } => Tally {
            armed: tally.armed.saturating_add(1),
            ..tally
        },
        Line::Run {
            runner,
            home,
            reply,
            ..
        } => tallied_run(tally, runner, home, reply),
        Line::Cancel { .. } => Tally {
            cancels: tally.cancels.saturating_add(1),
            ..tally
        },
        Line::Idle { .. } => Tally {
            idles: tally.idles.saturating_add(1),
            ..tally
        },
        Line::Stay { .. } => Tally {
            stays: tally.stays.saturating_add(1),
            ..tally
        },
        Line::Wake { .. } => Tally {
            wakes: tally.wakes.saturating_add(1),
            ..tally
        },
        Line::Refused { .. } => Tally {
            refused: tally.refused.saturating_add(1),
            ..tally
        },
        Line::RefusedQueued { .. } => Tally {
            refused: tally.refused.saturating_add(1),
            ..tally
        },
        Line::Left { .. } => Tally {
            left: tally.left.saturating_add(1),
            ..tally
        },
        _ => tally,
    }
}

impl<L: Listener> Telling<L> {
    /// The lines go on from what was heard, with nothing tallied and no work done.
    pub fn new(listener: L) -> Telling<L>
        ensures text { result.text ≡ L.heard listener }
        ensures tally { result.tally ≡ no_lines }
        ensures work { result.work ≡ 0 }
    {
        Telling {
            listener,
            tally: Tally {
                runs: 0,
                remote: 0,
                armed: 0,
                cancels: 0,
                idles: 0,
                stays: 0,
                wakes: 0,
                refused: 0,
                left: 0,
            },
            work: 0,
        }
    }

    /// Tells a line. Want of memory leaves all as it was.
    pub fn tell(&mut self, line: &Line) -> Result<(), NoMemory>
        ensures text { OnOk result (self.new.text ≡ self.old.text ++ line_text line.now) }
        ensures tally { OnOk result (self.new.tally ≡ tallied self.old.tally line.now) }
        ensures work { self.new.work ≡ self.old.work }
        ensures err { OnErr result (self.new ≡ self.old) }
    {
        self.listener.hear(line)?;
        self.tally = tallied(self.tally, line);
        Ok(())
    }

    /// Counts a piece of work.
    pub fn count(&mut self)
        ensures text { self.new.text ≡ self.old.text }
        ensures tally { self.new.tally ≡ self.old.tally }
        ensures work { self.new.work ≡ counted (self.old.work + 1) }
    {
        self.work = self.work.saturating_add(1);
    }

    /// Counts so many pieces of work.
    pub fn count_all(&mut self, more: u32)
        ensures text { self.new.text ≡ self.old.text }
        ensures tally { self.new.tally ≡ self.old.tally }
        ensures work { self.new.work ≡ counted (self.old.work + more) }
    {
        self.work = self.work.saturating_add(more);
    }

    /// The work so far.
    pub fn work(&self) -> u32
        ensures { result ≡ self.now.work }
    {
        self.work
    }

    /// The tally so far.
    pub fn tally(&self) -> Tally
        ensures { result ≡ self.now.tally }
    {
        self.tally
    }
}

impl Telling<Report> {
    /// Tells the lines of another report, with its work; they aren't tallied. Want of memory leaves
    /// all as it was.
    pub fn append(&mut self, other: &Telling<Report>) -> Result<(), NoMemory>
        ensures text { OnOk result (self.new.text ≡ self.old.text ++ other.now.text) }
        ensures tally { self.new.tally ≡ self.old.tally }
        ensures work { OnOk result
            (self.new.work ≡ counted (self.old.work + other.now.work)) }
        ensures err { OnErr result (self.new ≡ self.old) }
    {
        self.listener.append(&other.listener)?;
        self.work = self.work.saturating_add(other.work);
        Ok(())
    }

    /// The report.
    pub fn into_report(self) -> Report
        ensures { result ≡ self.text }
    {
        self.listener
    }
}
