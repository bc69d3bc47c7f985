//! The lines of a report.

use tm_base::{Class, CpuId, Jiffy, TimerId};

/// One line of a report: what happened at the jiffy `now`, or what is left at the end.
///
/// Times are in jiffies. `wheel` is a wheel expiry, `until` a programmed wakeup and `first` a first
/// event; each of them, and no `now`, is written `never` where it is `NEVER`.
#[derive(Clone, Copy)]
pub enum Line {
    /// CPU `cpu` armed `timer`, which expires at `wheel`.
    Arm {
        now: Jiffy,
        cpu: CpuId,
        timer: TimerId,
        class: Class,
        wheel: Jiffy,
    },
    /// CPU `runner` took `timer` from the base of CPU `home`, where it expired at `wheel`, and ran
    /// its job, which answered `reply` (the kernel's `expire_timers`; for another CPU's timer its
    /// `timer_expire_remote`).
    Run {
        now: Jiffy,
        runner: CpuId,
        timer: TimerId,
        home: CpuId,
        wheel: Jiffy,
        reply: ShownReply,
    },
    /// CPU `cpu` cancelled `timer`, which was queued on CPU `home` (the kernel's `timer_delete`).
    Cancel {
        now: Jiffy,
        cpu: CpuId,
        timer: TimerId,
        home: CpuId,
    },
    /// CPU `cpu` wanted to cancel `timer`, which is queued nowhere.
    NotQueued {
        now: Jiffy,
        cpu: CpuId,
        timer: TimerId,
    },
    /// CPU `cpu` went idle and wakes by itself at `until` (the kernel's `tmigr_cpu_deactivate`, and
    /// `timer_use_tmigr` for the minimum with the CPU's own timers).
    Idle {
        now: Jiffy,
        cpu: CpuId,
        until: Jiffy,
    },
    /// CPU `cpu` tried to go idle and stays active, since its first event is at most one jiffy
    /// ahead (the kernel's `timer_base_try_to_set_idle`).
    Stay {
        now: Jiffy,
        cpu: CpuId,
        first: Jiffy,
    },
    /// CPU `cpu` left idle (the kernel's `tmigr_cpu_activate`).
    Wake {
        now: Jiffy,
        cpu: CpuId,
    },
    /// CPU `cpu` went offline (the kernel's `tmigr_cpu_offline`).
    Offline {
        now: Jiffy,
        cpu: CpuId,
    },
    /// CPU `cpu`, which went offline as the last active one of the tree, handed the first event of
    /// the hierarchy on to CPU `to`, which was woken for it.
    Handed {
        now: Jiffy,
        cpu: CpuId,
        to: CpuId,
    },
    /// CPU `cpu` came online (the kernel's `tmigr_cpu_online`).
    Online {
        now: Jiffy,
        cpu: CpuId,
    },
    /// CPU `cpu` takes over the timers of a CPU that went offline.
    Control {
        now: Jiffy,
        cpu: CpuId,
    },
    /// `timer` was moved from CPU `from`, which is offline, to CPU `to`, where it expires at
    /// `wheel` (the kernel's `timers_dead_cpu`).
    Moved {
        now: Jiffy,
        timer: TimerId,
        from: CpuId,
        to: CpuId,
        wheel: Jiffy,
    },
    /// CPU `cpu` is idle, and `cover` answers for the first of its global timers, which expires at
    /// `wheel`.
    Cover {
        now: Jiffy,
        cpu: CpuId,
        wheel: Jiffy,
        cover: ShownCover,
    },
    /// The operation on line `line` of the script, by CPU `cpu`, was refused; `number` is its
    /// `OpFault::number`, 1 to 5.
    Refused {
        now: Jiffy,
        cpu: CpuId,
        line: u32,
        number: u8,
    },
    /// The operation on line `line` of the script, by CPU `cpu`, was refused by `OpFault::Queued`,
    /// whose number is 6; CPU `holder` has the timer queued.
    RefusedQueued {
        now: Jiffy,
        cpu: CpuId,
        line: u32,
        number: u8,
        holder: CpuId,
    },
    /// At the end `timer` is still queued on CPU `cpu`.
    Left {
        timer: TimerId,
        cpu: CpuId,
        class: Class,
        wheel: Jiffy,
    },
    /// The report ends.
    End {
        now: Jiffy,
    },
    /// After `steps` steps of a trace, `shown` answers for `timer` of CPU `cpu`.
    Why {
        steps: u32,
        cpu: CpuId,
        timer: TimerId,
        shown: ShownReason,
    },
    /// All `steps` steps of a trace can be made one after the other.
    Yes {
        steps: u32,
    },
    /// Of the steps of a trace number `index`, from 0, is the first that can't be made where it
    /// stands.
    No {
        index: u32,
    },
    /// After the moment the broadcast device for deep sleepers is programmed for the jiffy `until`;
    /// `NEVER` where it isn't programmed (the kernel's `tick_broadcast_set_event`).
    Device {
        now: Jiffy,
        until: Jiffy,
    },
}

/// What the job of a timer that was run answered, as a line shows it.
#[derive(Clone, Copy)]
pub enum ShownReply {
    /// The job is done.
    Done,
    /// The job left this mark.
    Mark(u32),
    /// The job armed its timer again, on the CPU that ran it; `wheel` is the new wheel expiry, in
    /// jiffies.
    Again { class: Class, wheel: Jiffy },
    /// The job armed its timer again, which was queued on CPU `cpu` by then.
    Skip { cpu: CpuId },
}

/// What answers for the first global timer of an idle CPU, as a line shows it.
#[derive(Clone, Copy)]
pub enum ShownCover {
    /// The lowest active group of the CPU's path, number `place` of its `level` (both from 0,
    /// leaves at level 0), whose migrators lead to the active CPU `cpu`.
    Migrator { level: u8, place: u16, cpu: CpuId },
    /// CPU `cpu` is idle and wakes by itself at the jiffy `at`, in time for the timer.
    Wake { cpu: CpuId, at: Jiffy },
}

/// Who answers for a global timer of an idle CPU while walks and interrupts may be under way, as a
/// line shows it.
#[derive(Clone, Copy)]
pub enum ShownReason {
    /// The active group number `place` of its `level` (both from 0, leaves at level 0), whose
    /// migrators lead to the active CPU `cpu`.
    Held { level: u8, place: u16, cpu: CpuId },
    /// CPU `cpu` is idle and wakes by itself at the jiffy `at`, in time for the timer.
    Woken { cpu: CpuId, at: Jiffy },
    /// A walk or an interrupt that is under way, by the case of that number, 1 to 4.
    Carried { case: u8 },
    /// Nobody has to: the CPU isn't idle, or the timer isn't among its global ones.
    Nothing,
}
