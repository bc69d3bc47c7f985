//! What was seen of a machine so far. Each answer may be unknown.

ghost use Rattle.std.specs.Prelude.{◌≡◌, ◌==◌, ◌<◌, ◌++◌, ◌∷◌, [], length, position, find};
ghost use Rattle.std.specs.Prelude.{IfSome, None, get_or};
ghost use Rattle.std.specs.List.{remove};
ghost use Rattle.std.specs.Prelude.{OnErr, OnOk};
ghost use Rattle.linux_seen.specs.Seen.{cpu_at, group_at, later, put_cpu, put_group, timed};
ghost use Rattle.linux_seen.specs.Seen.{unknown_cpu, unknown_group};

use linux_lines::Exchange;
use std::alloc::Global;
use std::marker::Model;
use tm_base::{CpuId, NoMemory};

/// A group's state as a trace shows it, without the count of exchanges.
#[derive(Clone, Copy)]
pub struct Word {
    /// The set of active children: bit k stands for child k.
    pub active: u8,
    /// The migrator's bit, or 0 where there is none.
    pub migrator: u8,
}

/// An exchange with its line. It is late where others that come before it have no line yet, since a
/// CPU may be held up between exchange and line.
#[derive(Clone, Copy)]
pub struct Late {
    /// The number of its line.
    pub line: u64,
    /// The number of its CPU's line before that; the exchange was made between them.
    pub before: u64,
    /// The CPU that made it.
    pub cpu: CpuId,
    pub exchange: Exchange,
}

/// Where a group stands.
#[derive(Clone, Copy)]
pub struct Spot {
    /// Its level, 0 for a leaf.
    pub level: u8,
    /// Its node, or none at the levels across nodes.
    pub node: Option<u64>,
}

/// What was seen of a group.
#[derive(Clone, Copy)]
pub struct GroupSeen {
    pub pointer: u64,
    pub spot: Option<Spot>,
    /// Its parent; 0 where it is the top.
    pub parent: Option<u64>,
    /// Its number in its parent.
    pub bit: Option<u8>,
    /// Whether an exchange on that parent was seen that came from this group.
    pub told: bool,
    /// Its state, before the late exchanges where there are some.
    pub word: Option<Word>,
    /// Whether an exchange on it is late.
    pub late: bool,
    /// The expiry of its event in its parent (`groupevt`); `NO_EXPIRY` where there is none or it is
    /// ignored.
    pub event: Option<u64>,
}

/// Where a walk may go on.
#[derive(Clone, Copy)]
pub struct Next {
    /// The group at which the walk makes its next exchange.
    pub group: u64,
    /// The group from which it comes, or 0 for the CPU itself.
    pub from: u64,
    /// Whether it is known to go on.
    pub surely: bool,
}

/// The walk of a CPU.
#[derive(Clone, Copy)]
pub enum Walk {
    /// The trace began, or lines were lost, since its last end.
    Unknown,
    /// There is none.
    Closed,
    /// A walk of activation.
    Rising(Next),
    /// A walk of deactivation that goes on.
    Falling(Next),
    /// A walk of deactivation after its last exchange.
    Ending,
    /// The CPU has hung a group below a parent, and tells the parent where that group is active.
    Hung(Next),
}

/// Whose timers a CPU runs.
#[derive(Clone, Copy)]
pub enum Run {
    /// The trace began, or lines were lost, since its last line.
    Unknown,
    /// None but its own.
    Own,
    /// Those of this CPU (`tmigr_handle_remote_cpu`).
    Of(CpuId),
}

/// A group to which a CPU came to run timers of others (`tmigr_handle_remote_up`).
#[derive(Clone, Copy)]
pub struct Look {
    pub group: u64,
    /// The number there of the child from which the CPU came, where it is known.
    pub bit: Option<u8>,
}

/// What was seen of a CPU.
#[derive(Clone, Copy)]
pub struct CpuSeen {
    pub cpu: CpuId,
    pub leaf: Option<u64>,
    /// Its number in its leaf.
    pub bit: Option<u8>,
    /// Whether an exchange of its own on its leaf was seen.
    pub told: bool,
    pub active: Option<bool>,
    pub walk: Walk,
    /// The number of its last line.
    pub last: u64,
    /// Whose timers it runs.
    pub run: Run,
    /// The expiry of its event in its leaf (`cpuevt`); `NO_EXPIRY` where there is none or it is
    /// ignored.
    pub event: Option<u64>,
    /// The first expiry that it told and that stands for it while it sleeps; `NO_EXPIRY` for none.
    pub timer: Option<u64>,
    /// The wakeup that it keeps for the hierarchy; `NO_EXPIRY` for none.
    pub wakeup: Option<u64>,
    /// The wakeup that its walk has found: the first event of a sleeping top to which it came, or
    /// `NO_EXPIRY`.
    pub first: Option<u64>,
    /// The group to which it came last to run timers of others.
    pub looks: Option<Look>,
    /// The group at which its walk of deactivation has to end, since its exchange there left a
    /// migrator.
    pub left: Option<u64>,
    /// Whether the update there found that group asleep all the same.
    pub slept: bool,
}

/// A group of which nothing was seen.
pub fn unknown_group(pointer: u64) -> GroupSeen
    ensures { result ≡ unknown_group pointer }
{
    GroupSeen {
        pointer,
        spot: None,
        parent: None,
        bit: None,
        told: false,
        word: None,
        late: false,
        event: None,
    }
}

/// A CPU of which nothing was seen.
pub fn unknown_cpu(cpu: CpuId) -> CpuSeen
    ensures { result ≡ unknown_cpu cpu }
{
    CpuSeen {
        cpu,
        leaf: None,
        bit: None,
        told: false,
        active: None,
        walk: Walk::Unknown,
        last: 0,
        run: Run::Unknown,
        event: None,
        timer: None,
        wakeup: None,
        first: None,
        looks: None,
        left: None,
        slept: false,
    }
}

/// What was seen of a machine so far.
#[derive(Drop)]
pub struct Seen {
    groups: Vec<GroupSeen>,
    cpus: Vec<CpuSeen>,
    clock: Option<u64>,
    late: Vec<Late>,
}

impl Model for Seen {
    ghost use Rattle.linux_seen.specs.Seen.{Sight};

    ghost Value = { Sight };

    ghost view = { λ s. record {
      groups = s.groups.items;
      cpus = s.cpus.items;
      clock = s.clock;
      late = s.late.items;
    } };
}

/// The later of two times.
fn later(now: Option<u64>, at: u64) -> u64
    ensures { result ≡ later now at }
{
    match now {
        Some(time) => time.max(at),
        None => at,
    }
}

fn find_group(groups: &[GroupSeen], pointer: u64) -> Option<GroupSeen>
    ensures { result ≡ find (λ g. g.pointer == pointer) groups.now }
{
    groups.iter().copied().find(|g| g.pointer == pointer)
}

fn find_cpu(cpus: &[CpuSeen], cpu: CpuId) -> Option<CpuSeen>
    ensures { result ≡ find (λ c. c.cpu.0 == cpu.0) cpus.now }
{
    cpus.iter().copied().find(|c| c.cpu.0 == cpu.0)
}

fn place_of_group(groups: &[GroupSeen], pointer: u64) -> Option<usize>
    ensures value { result ≡ position (λ g. g.pointer == pointer) groups.now }
    ensures within { IfSome result (λ at. at < length groups.now) }
{
    groups.iter().position(|g| g.pointer == pointer)
}

fn place_of_cpu(cpus: &[CpuSeen], cpu: CpuId) -> Option<usize>
    ensures value { result ≡ position (λ c. c.cpu.0 == cpu.0) cpus.now }
    ensures within { IfSome result (λ at. at < length cpus.now) }
{
    cpus.iter().position(|c| c.cpu.0 == cpu.0)
}

fn put_group(groups: &mut Vec<GroupSeen>, group: GroupSeen) -> Result<(), NoMemory>
    ensures ok { OnOk result (groups.new.items ≡ put_group groups.old.items group) }
    ensures err { OnErr result (groups.new.items ≡ groups.old.items) }
{
    match place_of_group(groups.as_slice(), group.pointer) {
        Some(at) => groups[at] = group,
        None => groups.push(group)?,
    }
    Ok(())
}

fn put_cpu(cpus: &mut Vec<CpuSeen>, cpu: CpuSeen) -> Result<(), NoMemory>
    ensures ok { OnOk result (cpus.new.items ≡ put_cpu cpus.old.items cpu) }
    ensures err { OnErr result (cpus.new.items ≡ cpus.old.items) }
{
    match place_of_cpu(cpus.as_slice(), cpu.cpu) {
        Some(at) => cpus[at] = cpu,
        None => cpus.push(cpu)?,
    }
    Ok(())
}

impl Seen {
    /// Nothing yet; takes no memory.
    pub fn new(alloc: Global) -> Seen
        ensures { result ≡ record { groups = []; cpus = []; clock = None; late = [] } }
    {
        Seen {
            groups: Vec::new(alloc),
            cpus: Vec::new(alloc),
            clock: None,
            late: Vec::new(alloc),
        }
    }

    /// The groups, in the order of first sight.
    pub fn groups(&self) -> &[GroupSeen]
        ensures { result.now ≡ self.now.groups }
    {
        self.groups.as_slice()
    }

    /// The CPUs, in the order of first sight.
    pub fn cpus(&self) -> &[CpuSeen]
        ensures { result.now ≡ self.now.cpus }
    {
        self.cpus.as_slice()
    }

    /// The latest time at the head of a line, in nanoseconds.
    pub fn clock(&self) -> Option<u64>
        ensures { result ≡ self.now.clock }
    {
        self.clock
    }

    /// The late exchanges on all groups, in the order of their lines.
    pub fn late(&self) -> &[Late]
        ensures { result.now ≡ self.now.late }
    {
        self.late.as_slice()
    }

    /// Sets an exchange aside, behind those that are late already. Want of memory leaves all as
    /// before.
    pub fn set_aside(&mut self, late: Late) -> Result<(), NoMemory>
        ensures ok { OnOk result
            (self.new ≡ record self.old { late = self.old.late ++ late ∷ [] }) }
        ensures err { OnErr result (self.new ≡ self.old) }
    {
        self.late.push(late)?;
        Ok(())
    }

    /// Takes the late exchange at this place; there has to be one.
    pub fn take_late(&mut self, at: usize) -> Late
        requires { at < length self.now.late }
        ensures value { result ≡ get_or self.old.late at result }
        ensures left { self.new ≡ record self.old { late = remove self.old.late at } }
    {
        self.late.remove(at)
    }

    /// Keeps the time at the head of a line.
    #[tactic(auto, unfolding(crate::specs::Seen::timed))]
    pub fn pass(&mut self, at: Option<u64>)
        ensures { self.new ≡ timed self.old at }
    {
        if let Some(time) = at {
            self.clock = Some(later(self.clock, time));
        }
    }

    /// What was seen of a group.
    pub fn group(&self, pointer: u64) -> GroupSeen
        ensures { result ≡ group_at self.now pointer }
    {
        match find_group(&self.groups, pointer) {
            Some(group) => group,
            None => unknown_group(pointer),
        }
    }

    /// What was seen of a CPU.
    pub fn cpu(&self, cpu: CpuId) -> CpuSeen
        ensures { result ≡ cpu_at self.now cpu }
    {
        match find_cpu(&self.cpus, cpu) {
            Some(found) => found,
            None => unknown_cpu(cpu),
        }
    }

    /// Keeps what was seen of a group in place of what was known of it. Want of memory leaves all
    /// as before.
    pub fn put_group(&mut self, group: GroupSeen) -> Result<(), NoMemory>
        ensures ok { OnOk result
            (self.new ≡ record self.old { groups = put_group self.old.groups group }) }
        ensures err { OnErr result (self.new ≡ self.old) }
    {
        put_group(&mut self.groups, group)
    }

    /// Keeps what was seen of a CPU in place of what was known of it. Want of memory leaves all as
    /// before.
    pub fn put_cpu(&mut self, cpu: CpuSeen) -> Result<(), NoMemory>
        ensures ok { OnOk result
            (self.new ≡ record self.old { cpus = put_cpu self.old.cpus cpu }) }
        ensures err { OnErr result (self.new ≡ self.old) }
    {
        put_cpu(&mut self.cpus, cpu)
    }
}
