//! What a driver asks of a machine.

use crate::asks::{Answerer, Arming, Cancelling, Mover, Queued};
use tm_base::{Class, CpuId, CpuSet, Jiffy, NoMemory, TimerId};
use wheel_core::Item;

/// A machine that plays by rules: each call is the rule of its name, on the state that the machine
/// is in.
///
/// CPUs and timers are in range. Calls that arm, cancel or move a timer may want memory, and then
/// the machine is in the state in which it was. A drain that wants memory may have taken out the
/// first of the due timers; the others are still due. Calls that change something are made in the
/// right place of a moment: between operations, in a CPU's interrupt, there with another CPU taken,
/// or where a CPU that went offline has to hand on its duty. A machine may rely on that; `Fit` says
/// when its state fits a place.
pub trait PlayMachine: Drop {
    ghost use Rattle.std.specs.Prelude.{◌≡◌, ◌≢◌, ◌+◌, ◌<◌, ◌≤◌, All, None, Some, false, true};
    ghost use Rattle.std.specs.Prelude.{IfSome, OnErr, OnOk, IfOk, option_map};
    ghost use Rattle.tm_base.specs.declared.limits.TheConstants.{CPU_SET_SIZE, SCRIPT_TIME_LIMIT};
    ghost use Rattle.play_rules.specs.Rules.{Rules};
    ghost use Rattle.play_rules.specs.Machines.{IsTimerOf, PartDrained, Same, SameFlags};
    ghost use Rattle.play_rules.specs.Machines.{SameOnline};
    ghost use Rattle.play_rules.specs.Machines.{after_move};
    ghost use Rattle.play_rules.specs.Operations.{last_online};
    ghost use Rattle.play_rules.specs.Phases.{FitsSome, IsUp, MayArmIn, MayDrain, Phase, StaysFit};
    ghost use Rattle.play_rules.specs.Phases.{after_offline, handing, inside, resting, serving};

    /// The states, the rules, and the state that a machine is in.
    ghost World: { Type 0 };

    ghost rules: { Rules World };

    ghost world: { Self → World };

    /// When a state fits a place of a moment.
    ghost Fit: { Phase → World → Type 0 };

    /// The clock, in jiffies.
    fn clock(&self) -> Jiffy
        ensures clock { result ≡ rules.clock (world self.now) }
        ensures in_time { result < SCRIPT_TIME_LIMIT };

    /// How many timers there are.
    fn timers(&self) -> u16
        ensures { result ≡ rules.timers (world self.now) };

    /// How many CPUs there are.
    fn cpus(&self) -> u16
        ensures count { result ≡ rules.cpus (world self.now) }
        ensures few { result ≤ CPU_SET_SIZE };

    /// How many levels of groups there are.
    fn levels(&self) -> u8
        ensures { result ≡ rules.levels (world self.now) };

    /// Whether a CPU is online.
    fn is_online(&self, cpu: CpuId) -> bool
        requires { cpu.0 < rules.cpus (world self.now) }
        ensures { result ≡ rules.is_online (world self.now) cpu.0 };

    /// Whether a CPU is idle, or offline.
    fn is_idle(&self, cpu: CpuId) -> bool
        requires { cpu.0 < rules.cpus (world self.now) }
        ensures { result ≡ rules.is_idle (world self.now) cpu.0 };

    /// Whether a CPU is placed in the tree, and not isolated.
    fn is_placed(&self, cpu: CpuId) -> bool
        requires { cpu.0 < rules.cpus (world self.now) }
        ensures { result ≡ rules.is_placed (world self.now) cpu.0 };

    /// The programmed wakeup of a CPU, in jiffies; `NEVER` where there is none.
    fn wakeup(&self, cpu: CpuId) -> Jiffy
        requires { cpu.0 < rules.cpus (world self.now) }
        ensures { result ≡ rules.wakeup (world self.now) cpu.0 };

    /// The CPU on which a timer is queued; None exactly where it is queued nowhere.
    fn holder(&self, timer: TimerId) -> Option<CpuId>
        requires { timer.0 < rules.timers (world self.now) }
        ensures holder { result ≡
            option_map (λ held. held.cpu) (rules.queued (world self.now) timer.0) }
        ensures in_range { IfSome result (λ cpu. cpu.0 < rules.cpus (world self.now)) };

    /// Where a timer is queued, with its class and wheel expiry; None exactly where it is queued
    /// nowhere.
    fn queued(&self, timer: TimerId) -> Option<Queued>
        requires { timer.0 < rules.timers (world self.now) }
        ensures { result ≡ rules.queued (world self.now) timer.0 };

    /// Brings the clock to a later moment.
    fn set_clock(&mut self, now: Jiffy)
        requires not_back { rules.clock (world self.old) ≤ now }
        requires in_time { now < SCRIPT_TIME_LIMIT }
        requires fit { Fit resting (world self.old) }
        ensures fit { Fit resting (world self.new) }
        ensures state { world self.new ≡ rules.at_clock now (world self.old) }
        ensures clock { rules.clock (world self.new) ≡ now }
        ensures timers { rules.timers (world self.new) ≡ rules.timers (world self.old) }
        ensures cpus { rules.cpus (world self.new) ≡ rules.cpus (world self.old) }
        ensures levels { rules.levels (world self.new) ≡ rules.levels (world self.old) };

    /// Whether a CPU has an interrupt at the clock; it is online then.
    fn has_interrupt(&self, cpu: CpuId) -> bool
        requires { cpu.0 < rules.cpus (world self.now) }
        ensures has { result ≡ rules.has_interrupt (world self.now) cpu.0 }
        ensures online { result ≡ true → rules.is_online (world self.now) cpu.0 ≡ true };

    /// When the next interrupt comes, in jiffies; `NEVER` where none does.
    fn next_interrupt(&self) -> Jiffy
        ensures { result ≡ rules.next_interrupt (world self.now) };

    /// Takes out all timers of a base of CPU `home` that are due at the clock, for CPU `runner` to
    /// run their jobs, in the order of hand-out (the kernel's `__run_timers`).
    fn drain(&mut self, home: CpuId, class: Class, runner: CpuId) -> Result<Vec<Item>, NoMemory>
        requires home { home.0 < rules.cpus (world self.old) }
        requires runner { runner.0 < rules.cpus (world self.old) }
        requires fit { FitsSome Fit (λ ph. MayDrain ph home.0 class runner.0) (world self.old) }
        ensures fit { OnOk result
            (StaysFit Fit (λ ph. MayDrain ph home.0 class runner.0)
            (world self.old) (world self.new)) }
        ensures items { IfOk result (λ out.
            out.items ≡ (rules.drained (world self.old) home.0 class runner.0).items) }
        ensures timers { IfOk result (λ out.
            All (IsTimerOf (rules.timers (world self.old))) out.items) }
        ensures state { OnOk result
            (world self.new ≡ (rules.drained (world self.old) home.0 class runner.0).state) }
        ensures same { OnOk result (Same rules (world self.old) (world self.new)) }
        ensures online { OnOk result (SameOnline rules (world self.old) (world self.new)) }
        ensures kept { OnErr result
            (PartDrained rules (world self.old) home.0 class runner.0 (world self.new)) };

    /// Arms a timer that is queued nowhere, and answers its wheel expiry, in jiffies. Want of
    /// memory leaves all as before, here and in the two other calls of one timer.
    fn arm(&mut self, cpu: CpuId, arming: Arming) -> Result<Jiffy, NoMemory>
        requires cpu { cpu.0 < rules.cpus (world self.old) }
        requires timer { arming.timer.0 < rules.timers (world self.old) }
        requires not_queued { rules.queued (world self.old) arming.timer.0 ≡ None }
        requires fit { FitsSome Fit
            (λ ph. MayArmIn rules (world self.old) ph cpu.0) (world self.old) }
        ensures fit { OnOk result
            (StaysFit Fit (λ ph. MayArmIn rules (world self.old) ph cpu.0)
            (world self.old) (world self.new)) }
        ensures wheel { IfOk result (λ wheel.
            wheel ≡ (rules.armed (world self.old) cpu.0 arming).wheel) }
        ensures state { OnOk result
            (world self.new ≡ (rules.armed (world self.old) cpu.0 arming).state) }
        ensures same { OnOk result (Same rules (world self.old) (world self.new)) }
        ensures online { OnOk result (SameOnline rules (world self.old) (world self.new)) }
        ensures kept { OnErr result (world self.new ≡ world self.old) };

    /// Cancels a timer that is queued on CPU `home`.
    fn cancel(&mut self, home: CpuId, cancelling: Cancelling) -> Result<(), NoMemory>
        requires home { home.0 < rules.cpus (world self.old) }
        requires timer { cancelling.timer.0 < rules.timers (world self.old) }
        requires by { cancelling.by.0 < rules.cpus (world self.old) }
        requires queued { option_map (λ held. held.cpu)
            (rules.queued (world self.old) cancelling.timer.0) ≡ Some home }
        requires fit { Fit resting (world self.old) }
        ensures fit { OnOk result (Fit resting (world self.new)) }
        ensures state { OnOk result
            (world self.new ≡ rules.cancelled (world self.old) home.0 cancelling) }
        ensures same { OnOk result (Same rules (world self.old) (world self.new)) }
        ensures kept { OnErr result (world self.new ≡ world self.old) };

    /// An online CPU begins its interrupt.
    fn enter(&mut self, cpu: CpuId)
        requires cpu { cpu.0 < rules.cpus (world self.old) }
        requires online { rules.is_online (world self.old) cpu.0 ≡ true }
        requires fit { Fit resting (world self.old) }
        ensures fit { Fit (inside cpu.0) (world self.new) }
        ensures state { world self.new ≡ rules.entered (world self.old) cpu.0 }
        ensures same { Same rules (world self.old) (world self.new) }
        ensures online { SameOnline rules (world self.old) (world self.new) };

    /// Whether a CPU looks after its group at a level: it has one there, and the child towards the
    /// CPU is the migrator or there is none. It is placed then.
    fn looks_after(&self, cpu: CpuId, level: u8) -> bool
        requires cpu { cpu.0 < rules.cpus (world self.now) }
        requires fit { Fit (inside cpu.0) (world self.now) }
        ensures looks { result ≡ rules.looks_after (world self.now) cpu.0 level }
        ensures placed { result ≡ true → rules.is_placed (world self.now) cpu.0 ≡ true };

    /// The CPU whose due timers a look at that group names next, besides those that were tried.
    fn named(&self, cpu: CpuId, level: u8, tried: &CpuSet) -> Option<CpuId>
        requires cpu { cpu.0 < rules.cpus (world self.now) }
        requires fit { Fit (inside cpu.0) (world self.now) }
        ensures named { option_map (λ d. d.0) result ≡
            rules.named (world self.now) cpu.0 level tried.now }
        ensures in_range { IfSome result (λ d. d.0 < rules.cpus (world self.now)) };

    /// Whether CPU `cpu` takes CPU `other`, which its look named, or leaves it alone.
    fn takes(&self, cpu: CpuId, other: CpuId) -> bool
        requires cpu { cpu.0 < rules.cpus (world self.now) }
        requires other { other.0 < rules.cpus (world self.now) }
        ensures { result ≡ rules.takes (world self.now) cpu.0 other.0 };

    /// A placed CPU `cpu` takes CPU `other`, whose due global timers it then runs.
    fn take(&mut self, cpu: CpuId, other: CpuId)
        requires cpu { cpu.0 < rules.cpus (world self.old) }
        requires other { other.0 < rules.cpus (world self.old) }
        requires placed { rules.is_placed (world self.old) cpu.0 ≡ true }
        requires takes { rules.takes (world self.old) cpu.0 other.0 ≡ true }
        requires fit { Fit (inside cpu.0) (world self.old) }
        ensures fit { Fit (serving cpu.0 other.0) (world self.new) }
        ensures state { world self.new ≡ rules.taken (world self.old) cpu.0 other.0 }
        ensures same { Same rules (world self.old) (world self.new) }
        ensures online { SameOnline rules (world self.old) (world self.new) };

    /// CPU `cpu` lets CPU `other` go, which tells its leaf its first event again.
    fn let_go(&mut self, cpu: CpuId, other: CpuId)
        requires cpu { cpu.0 < rules.cpus (world self.old) }
        requires other { other.0 < rules.cpus (world self.old) }
        requires fit { Fit (serving cpu.0 other.0) (world self.old) }
        ensures fit { Fit (inside cpu.0) (world self.new) }
        ensures state { world self.new ≡ rules.let_go (world self.old) cpu.0 other.0 }
        ensures same { Same rules (world self.old) (world self.new) }
        ensures online { SameOnline rules (world self.old) (world self.new) };

    /// A CPU ends its interrupt; where it is idle it re-evaluates before.
    fn end(&mut self, cpu: CpuId)
        requires cpu { cpu.0 < rules.cpus (world self.old) }
        requires fit { Fit (inside cpu.0) (world self.old) }
        ensures fit { Fit resting (world self.new) }
        ensures state { world self.new ≡ rules.ended (world self.old) cpu.0 }
        ensures same { Same rules (world self.old) (world self.new) }
        ensures online { SameOnline rules (world self.old) (world self.new) };

    /// The first event of a CPU, in jiffies; `NEVER` where there is none.
    fn first_event(&self, cpu: CpuId) -> Jiffy
        requires { cpu.0 < rules.cpus (world self.now) }
        ensures { result ≡ rules.first_event (world self.now) cpu.0 };

    /// An active CPU goes idle (the kernel's `tmigr_cpu_deactivate`, and `timer_use_tmigr` for its
    /// wakeup).
    fn idle(&mut self, cpu: CpuId)
        requires cpu { cpu.0 < rules.cpus (world self.old) }
        requires online { rules.is_online (world self.old) cpu.0 ≡ true }
        requires active { rules.is_idle (world self.old) cpu.0 ≡ false }
        requires later { rules.clock (world self.old) + 1 <
            rules.first_event (world self.old) cpu.0 }
        requires fit { Fit resting (world self.old) }
        ensures fit { Fit resting (world self.new) }
        ensures state { world self.new ≡ rules.idled (world self.old) cpu.0 }
        ensures same { Same rules (world self.old) (world self.new) };

    /// An idle CPU leaves idle (the kernel's `tmigr_cpu_activate`).
    fn wake(&mut self, cpu: CpuId)
        requires cpu { cpu.0 < rules.cpus (world self.old) }
        requires online { rules.is_online (world self.old) cpu.0 ≡ true }
        requires idle { rules.is_idle (world self.old) cpu.0 ≡ true }
        requires fit { Fit resting (world self.old) }
        ensures fit { Fit resting (world self.new) }
        ensures state { world self.new ≡ rules.woken (world self.old) cpu.0 }
        ensures same { Same rules (world self.old) (world self.new) };

    /// The lowest other CPU that is online and placed; None exactly where there is none.
    fn successor(&self, cpu: CpuId) -> Option<CpuId>
        requires { cpu.0 < rules.cpus (world self.now) }
        ensures successor { option_map (λ d. d.0) result ≡ rules.successor (world self.now) cpu.0 }
        ensures in_range { IfSome result (λ d. d.0 < rules.cpus (world self.now)) };

    /// An active CPU goes offline (the kernel's `tmigr_cpu_offline`), which isn't the last placed
    /// one that is online.
    fn go_offline(&mut self, cpu: CpuId)
        requires cpu { cpu.0 < rules.cpus (world self.old) }
        requires online { rules.is_online (world self.old) cpu.0 ≡ true }
        requires active { rules.is_idle (world self.old) cpu.0 ≡ false }
        requires missed { last_online rules (world self.old) cpu.0 ≡ None }
        requires fit { Fit resting (world self.old) }
        ensures fit { Fit
            (after_offline (rules.hands_on (world self.new) cpu.0) cpu.0) (world self.new) }
        ensures state { world self.new ≡ rules.gone_offline (world self.old) cpu.0 }
        ensures same { Same rules (world self.old) (world self.new) }
        ensures succeeds { rules.successor (world self.new) cpu.0 ≡
            rules.successor (world self.old) cpu.0 };

    /// Whether a CPU that went offline has to hand on its duty; it is placed then.
    fn hands_on(&self, cpu: CpuId) -> bool
        requires cpu { cpu.0 < rules.cpus (world self.now) }
        requires fit { Fit
            (after_offline (rules.hands_on (world self.now) cpu.0) cpu.0) (world self.now) }
        ensures hands { result ≡ rules.hands_on (world self.now) cpu.0 }
        ensures placed { result ≡ true → rules.is_placed (world self.now) cpu.0 ≡ true };

    /// A CPU that went offline hands its duty on to CPU `to`, its successor, which is woken for it.
    fn hand_on(&mut self, cpu: CpuId, to: CpuId)
        requires cpu { cpu.0 < rules.cpus (world self.old) }
        requires to { to.0 < rules.cpus (world self.old) }
        requires successor { rules.successor (world self.old) cpu.0 ≡ Some to.0 }
        requires fit { Fit (handing cpu.0) (world self.old) }
        ensures fit { Fit resting (world self.new) }
        ensures state { world self.new ≡ rules.handed_on (world self.old) cpu.0 to.0 }
        ensures same { Same rules (world self.old) (world self.new) };

    /// An offline CPU comes online, active (the kernel's `tmigr_cpu_online`).
    fn come_online(&mut self, cpu: CpuId)
        requires cpu { cpu.0 < rules.cpus (world self.old) }
        requires offline { rules.is_online (world self.old) cpu.0 ≡ false }
        requires fit { Fit resting (world self.old) }
        ensures fit { Fit resting (world self.new) }
        ensures state { world self.new ≡ rules.come_online (world self.old) cpu.0 }
        ensures same { Same rules (world self.old) (world self.new) };

    /// How many timers are queued on a CPU.
    fn count_queued(&self, cpu: CpuId) -> usize
        requires { cpu.0 < rules.cpus (world self.now) }
        ensures { result ≡ rules.count_queued (world self.now) cpu.0 };

    /// The CPU that gets the timers of one that went offline.
    fn controller(&self) -> Option<CpuId>
        ensures controller { option_map (λ d. d.0) result ≡ rules.controller (world self.now) }
        ensures in_range { IfSome result (λ d. d.0 < rules.cpus (world self.now)) }
        ensures online { IfSome result (λ d. rules.is_online (world self.now) d.0 ≡ true) };

    /// That CPU is made active, where it is idle.
    fn control(&mut self, cpu: CpuId)
        requires cpu { cpu.0 < rules.cpus (world self.old) }
        requires controller { rules.controller (world self.old) ≡ Some cpu.0 }
        requires fit { Fit resting (world self.old) }
        ensures fit { Fit resting (world self.new) }
        ensures placed { rules.is_placed (world self.new) cpu.0 ≡ true }
        ensures active { IsUp rules (world self.new) cpu.0 false }
        ensures state { world self.new ≡ rules.controlling (world self.old) cpu.0 }
        ensures same { Same rules (world self.old) (world self.new) }
        ensures online { SameOnline rules (world self.old) (world self.new) };

    /// The first timer of CPU `from`, which is offline, moves to CPU `to`, which is active and
    /// placed (in the place of the kernel's `migrate_timer_list`, which goes by buckets); None,
    /// with nothing changed, exactly where nothing is queued on `from`.
    fn move_first(&mut self, from: CpuId, to: CpuId) -> Result<Option<Mover>, NoMemory>
        requires from { from.0 < rules.cpus (world self.old) }
        requires to { to.0 < rules.cpus (world self.old) }
        requires other { from.0 ≢ to.0 }
        requires offline { rules.is_online (world self.old) from.0 ≡ false }
        requires placed { rules.is_placed (world self.old) to.0 ≡ true }
        requires active { IsUp rules (world self.old) to.0 false }
        requires fit { Fit resting (world self.old) }
        ensures fit { OnOk result (Fit resting (world self.new)) }
        ensures moved { IfOk result (λ mover.
            mover ≡ option_map (λ m. m.mover) (rules.moved (world self.old) from.0 to.0)) }
        ensures state { OnOk result (world self.new ≡
            after_move (rules.moved (world self.old) from.0 to.0) (world self.old)) }
        ensures same { OnOk result (Same rules (world self.old) (world self.new)) }
        ensures flags { OnOk result (SameFlags rules (world self.old) (world self.new)) }
        ensures kept { OnErr result (world self.new ≡ world self.old) };

    /// What answers for the first global timer of an online idle CPU; None exactly where there is
    /// no such timer or CPU.
    fn cover_of(&self, cpu: CpuId) -> Option<Answerer>
        requires cpu { cpu.0 < rules.cpus (world self.now) }
        requires fit { Fit resting (world self.now) }
        ensures { result ≡ rules.cover (world self.now) cpu.0 };
}
