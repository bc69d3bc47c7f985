//! What a core has to be like as a run ends.

ghost use Rattle.std.specs.Prelude.{◌≡◌, ◌<◌, length};

use crate::covers::agrees;
use cpu_bases::{Act, Entry};
use idle_wakeup::Core;
use shared_rows::{is_settled, law_once, no_base_behind};
use std::alloc::Global;
use tm_base::{Class, CpuId, NoMemory, TimerId};
use wheel_base::WheelBase;

/// What was found that may not be.
#[derive(Clone, Copy, Debug, PartialEq, Eq)]
pub enum Flaw {
    /// A walk or an interrupt is under way.
    NotAtRest,
    /// A queued timer is behind the clock of its base.
    Behind,
    /// Groups aren't as their CPUs are, or an idle CPU with a global timer isn't answered for as it
    /// has to be.
    NotCovered,
    /// An arming of a timer has two ends, an end has no arming, or a timer is queued twice or where
    /// the journals don't say so.
    NotOnce,
    /// Receipts aren't exactly the new entries.
    Receipts,
    /// As many timers didn't run as went out.
    Runs,
    /// Something that is due is left on a CPU whose last turn was an interrupt.
    LeftDue,
    /// Something that is due is left after each CPU that had to have an interrupt had one.
    LeftOver,
    /// A CPU was answered what it can't have been.
    Answers,
}

/// What an entry makes of its timer: armed there, or not any more; None where the entry is of a
/// base.
fn armed_by(entry: &Entry) -> Option<bool> {
    match entry.act {
        Act::Armed => Some(true),
        Act::MovedIn => Some(true),
        Act::Handed => Some(false),
        Act::Cancelled => Some(false),
        Act::MovedOut => Some(false),
        Act::Ticked => None,
    }
}

/// Notes an entry of a CPU's journal: its timer is armed there from then on, or no longer; false
/// where it was so already, or there is no such timer.
fn note(queued: &mut [bool], entry: &Entry) -> bool
    ensures { length queued.new ≡ length queued.old }
{
    let timer = usize::from(entry.timer.0);
    match armed_by(entry) {
        Some(armed) => {
            if timer >= queued.len() || queued[timer] == armed {
                return false;
            }
            queued[timer] = armed;
            true
        },
        None => true,
    }
}

/// Whether armings and ends of each timer come by turns in a CPU's journal, beginning with an
/// arming; and then which timers are armed at its end.
fn come_by_turns(core: &Core<WheelBase>, cpu: CpuId, queued: &mut [bool]) -> bool
    requires { cpu.0 < length core.now.cpus }
{
    let journal = core.bases(cpu).journal();
    for i in 0..journal.len() {
        let Some(entry) = journal.get(i) else {
            return false;
        };
        if !note(queued, entry) {
            return false;
        }
    }
    true
}

/// Of each timer it is noted that it isn't armed.
fn none_armed(alloc: Global, timers: u16) -> Result<Vec<bool>, NoMemory> {
    let mut all = Vec::new(alloc);
    for _timer in 0..timers {
        all.push(false)?;
    }
    Ok(all)
}

/// Whether each timer is queued on a CPU exactly where the CPU's journal leaves it armed.
fn are_queued_so(core: &Core<WheelBase>, cpu: CpuId, queued: &[bool]) -> bool
    requires { cpu.0 < length core.now.cpus }
{
    for timer in 0..core.timers() {
        let armed = queued.get(usize::from(timer)).copied().unwrap_or(false);
        let timer = TimerId(timer);
        let there = core.queued_on(timer) == Some(cpu);
        if there != armed || core.bases(cpu).where_is(timer).is_some() != armed {
            return false;
        }
    }
    true
}

/// Whether each arming has at most one end, in the journal in which it stands, and each timer is
/// queued exactly where an arming has none.
fn is_once(alloc: Global, core: &Core<WheelBase>) -> Result<bool, NoMemory> {
    law_once(core);
    for cpu in 0..core.count() {
        let mut queued = none_armed(alloc, core.timers())?;
        if !come_by_turns(core, CpuId(cpu), queued.as_mut_slice()) {
            return Ok(false);
        }
        if !are_queued_so(core, CpuId(cpu), queued.as_slice()) {
            return Ok(false);
        }
    }
    Ok(true)
}

/// Whether nothing of a class that is due is queued on a CPU.
fn none_due(core: &Core<WheelBase>, cpu: CpuId, class: Class) -> bool
    requires { cpu.0 < length core.now.cpus }
{
    core.next_out(cpu, class).is_none()
}

/// Whether nothing that is due is queued on a CPU; of a CPU that there isn't, so it is.
pub fn is_quiet_at(core: &Core<WheelBase>, cpu: CpuId) -> bool {
    cpu.0 >= core.count()
        || none_due(core, cpu, Class::Pinned)
            && none_due(core, cpu, Class::Global)
            && none_due(core, cpu, Class::Deferrable)
}

/// Whether nothing that is due is left where every CPU that had to have an interrupt had one: on
/// active CPUs nothing, and on idle ones nothing that wakes them or that others run.
pub(crate) fn is_all_done(core: &Core<WheelBase>) -> bool {
    for cpu in 0..core.count() {
        let cpu = CpuId(cpu);
        if !none_due(core, cpu, Class::Pinned) || !none_due(core, cpu, Class::Global) {
            return false;
        }
        if !core.cpu(cpu).idle && !none_due(core, cpu, Class::Deferrable) {
            return false;
        }
    }
    true
}

/// The first flaw of a core at the end of a run, if there is one.
pub fn first_flaw(alloc: Global, core: &Core<WheelBase>) -> Result<Option<Flaw>, NoMemory> {
    if !is_settled(core) {
        return Ok(Some(Flaw::NotAtRest));
    }
    if !no_base_behind(core) {
        return Ok(Some(Flaw::Behind));
    }
    if !agrees(core) {
        return Ok(Some(Flaw::NotCovered));
    }
    if !is_once(alloc, core)? {
        return Ok(Some(Flaw::NotOnce));
    }
    Ok(None)
}
