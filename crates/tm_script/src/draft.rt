//! A script as far as it was read.

ghost use Rattle.std.specs.Prelude.{◌≡◌, ◌+◌, ◌-◌, ◌<◌, ◌^◌, [], OnOk};
ghost use Rattle.tm_script.specs.Faults.{known_after, beginning};
ghost use Rattle.tm_script.specs.Reading.{start, closed_with, draft_after, script_of};

use crate::known::{Known, Place, Said};
use crate::lists::{Moments, Ops};
use crate::syntax::{Moment, Op, Script, What};
use std::alloc::Global;
use std::mem;
use tm_base::{CpuSet, Jiffy, NoMemory};

/// What was read, the last moment open for further operations.
#[derive(Drop)]
pub struct Draft {
    /// What the lines so far said.
    pub known: Known,
    /// The isolated CPUs.
    pub isolated: CpuSet,
    /// The closed moments.
    pub moments: Moments,
    /// The operations of the open moment.
    pub ops: Ops,
    /// The end, where that was read.
    pub end: Jiffy,
}

impl Known {
    /// What is known before the first line.
    fn new() -> Known
        ensures { result ≡ beginning }
    {
        Known {
            line: 1,
            place: Place::VersionLine,
            version: 0,
            nodes: 0,
            cpus: 0,
            timers: 0,
            last: None,
            ops: 0,
            closed: false,
        }
    }

    /// What is known behind a line that says this.
    fn after(self, said: &Said) -> Known
        requires lines { self.line < 2 ^ 32 - 1 }
        requires ops { self.ops < 2 ^ 32 - 1 }
        ensures { result ≡ known_after self said.now }
    {
        let mut known = self;
        known.line += 1;
        match said {
            Said::Version(version) => {
                known.version = *version;
                known.place = Place::NodesLine;
            }
            Said::NodeCount(nodes) => {
                known.nodes = *nodes;
                known.place = Place::CpusLine;
            }
            Said::CpuCount(cpus) => {
                known.cpus = *cpus;
                known.place = Place::TimersLine;
            }
            Said::TimerCount(timers) => {
                known.timers = *timers;
                known.place = if known.version == 1 {
                    Place::Body
                } else {
                    Place::IsolatedLine
                };
            }
            Said::IsolatedCpus(_) => known.place = Place::Body,
            Said::Opening(at) => {
                known.last = Some(*at);
                known.ops = 0;
                known.closed = false;
            }
            Said::Operation(_, what) => {
                known.ops += 1;
                known.closed = matches!(what, What::Offline | What::Online);
            }
            Said::Ending(_) => known.place = Place::Over,
        }
        known
    }
}

impl Draft {
    /// Nothing so far.
    pub fn new(alloc: Global) -> Draft
        ensures { result ≡ start }
    {
        Draft {
            known: Known::new(),
            isolated: CpuSet::new(),
            moments: Moments::new(alloc),
            ops: Ops::new(alloc),
            end: 0,
        }
    }

    /// Puts the open moment, where there is one, behind the closed ones.
    fn close(&mut self, alloc: Global) -> Result<(), NoMemory>
        ensures { OnOk result (self.new ≡ record self.old {
          moments = closed_with self.old.moments self.old.known.last self.old.ops;
          ops = [];
        }) }
    {
        let ops = mem::replace(&mut self.ops, Ops::new(alloc));
        if let Some(at) = self.known.last {
            self.moments.push(Moment { at, ops })?;
        }
        Ok(())
    }

    /// Takes in what a line says.
    pub fn take(&mut self, alloc: Global, said: Said) -> Result<(), NoMemory>
        requires lines { self.old.known.line < 2 ^ 32 - 1 }
        requires ops { self.old.known.ops < 2 ^ 32 - 1 }
        ensures { OnOk result (self.new ≡ draft_after self.old said) }
    {
        let line = self.known.line;
        let after = self.known.after(&said);
        match said {
            Said::IsolatedCpus(cpus) => self.isolated = cpus,
            Said::Opening(_) => self.close(alloc)?,
            Said::Operation(cpu, what) => self.ops.push(Op { line, cpu, what })?,
            Said::Ending(end) => {
                self.close(alloc)?;
                self.end = end;
            }
            _ => {}
        }
        self.known = after;
        Ok(())
    }

    /// The script.
    pub fn script(self) -> Script
        ensures { result ≡ script_of self }
    {
        let Draft {
            known,
            isolated,
            moments,
            ops: _,
            end,
        } = self;
        Script {
            version: known.version,
            nodes: known.nodes,
            cpus: known.cpus,
            timers: known.timers,
            isolated,
            moments,
            end,
        }
    }
}
