//! Whether the CPU of a part may be marked by that of a pass.

ghost use Rattle.std.specs.Prelude.{◌≡◌, ◌↔◌, ◌≤◌, Some, [], true, IsTrue};
ghost use Rattle.event_queue.specs.declared.event.Event.{Event};
ghost use Rattle.event_queue.specs.EventMap.{Counts};
ghost use Rattle.shared_cpus.specs.shared_rule.declared.parts.PassView.{PassView};
ghost use Rattle.shared_cpus.specs.shared_rule.Plays.{Agree};
ghost use Rattle.shared_cpus.specs.shared_rule.Parts.{without_guest};
ghost use Rattle.shared_cpus.specs.shared_rule.Passes.{IsOfRun, IsPassIn};
ghost use Rattle.shared_cpus.specs.Pairs.{HasOne};
ghost use Rattle.shared_looks.specs.Marks.{HasNoticed, IsNoticed, IsTakable};

use crate::path::group_at;
use event_queue::Event;
use shared_cpus::{BoxPart, Pass, Run, RunName, bring, part_off, see_cpu, see_leaf};
use tm_base::Jiffy;
use wheel_core::TimerBase;

/// Whether an event isn't ignored and not later than `now`, in jiffies.
fn has_come(event: Event, now: Jiffy) -> bool
    ensures counts { result ≡ true → Counts event }
    ensures come { result ≡ true → event.expiry ≤ now }
    ensures yes { Counts event → event.expiry ≤ now → result ≡ true }
{
    !event.ignored && event.expiry <= now
}

/// The pass that is brought loads the word of the part's CPU, and where the CPU has a group, its
/// slot there.
fn notice<N: RunName, B: TimerBase>(run: &Run<N, B>, part: &mut BoxPart<N, B>)
    requires { HasOne part.old }
    ensures { IsNoticed part.old part.new }
{
    part.law();
    let leaf = group_at(run, part.cpu(), 0);
    see_cpu(run, part);
    if let Some(_group) = leaf {
        see_leaf(run, part);
    }
}

/// Whether the CPU of a part shows that it may be marked at `now`, the time of the run in jiffies.
fn is_takable<N: RunName, B: TimerBase>(run: &Run<N, B>, part: &BoxPart<N, B>, now: Jiffy) -> bool
    requires now { now ≡ N.opening.clock }
    ensures { IsTrue result ↔ IsTakable part.now.box }
{
    part.law();
    let state = part.state();
    if !state.online || !state.idle || state.remote.is_some() {
        return false;
    }
    if group_at(run, part.cpu(), 0).is_none() {
        return false;
    }
    match part.leaf {
        Some(event) => has_come(event, now),
        None => false,
    }
}

/// Whether the CPU of a part may be marked by that of a pass at `now`, the time of the run in
/// jiffies (`tmigr_handle_remote_cpu`): exactly where the words of the CPU show it online, idle and
/// without a mark, and its event in its leaf as there, not ignored and not past `now`. The words
/// are loaded by the pass, which is brought for it and remembers them, and are those of the part,
/// and the two agree. It takes no memory.
pub fn may_take<N: RunName, B: TimerBase>(
    run: &Run<N, B>,
    part: &mut BoxPart<N, B>,
    pass: &mut Pass,
    now: Jiffy,
) -> bool
    requires run { IsOfRun N.table pass.old }
    requires alone { part.old.brought ≡ [] }
    requires now { now ≡ N.opening.clock }
    ensures takable { IsTrue result ↔ IsTakable part.old.box }
    ensures part { part.new ≡ without_guest part.old }
    ensures agree { (p : PassView) → IsPassIn N.table pass.old p → Agree part.old.box p }
    ensures seen { HasNoticed N.table part.old pass.old pass.new }
{
    pass.law();
    bring(run, part, pass);
    notice(run, part);
    part_off(run, part, pass);
    is_takable(run, part, now)
}
