//! What the lines of a trace say.

use tm_base::{Class, CpuId};

/// The expiry of an event that there isn't (the kernel's `KTIME_MAX`).
pub const NO_EXPIRY: u64 = 9_223_372_036_854_775_807;

/// A group as a line names it.
#[derive(Clone, Copy)]
pub struct Place {
    /// The group's pointer.
    pub group: u64,
    /// Its level, 0 for a leaf.
    pub level: u8,
    /// Its node, or none at the levels across nodes.
    pub node: Option<u64>,
}

/// A child was hung below a parent (`tmigr_connect_child_parent`, `tmigr_connect_cpu_parent`).
#[derive(Clone, Copy)]
pub struct Joining {
    /// The child's number in the parent, 0 to 7.
    pub bit: u8,
    /// The parent.
    pub parent: Place,
    /// How many children the parent has counted.
    pub children: u8,
}

/// An exchange on a group's state (`tmigr_group_set_cpu_active`, `tmigr_group_set_cpu_inactive`).
#[derive(Clone, Copy)]
pub struct Exchange {
    /// The group.
    pub place: Place,
    /// The set of active children after the exchange: bit k stands for child k.
    pub active: u8,
    /// The migrator's bit after it, or 0 where there is none.
    pub migrator: u8,
    /// The group's parent, or 0 for the top.
    pub parent: u64,
    /// The number of the child from which the walk comes, 0 to 7.
    pub bit: u8,
    /// Whether the walk is one of an activation.
    pub joins: bool,
}

/// What a line says of a CPU of the hierarchy.
#[derive(Clone, Copy)]
pub enum CpuKind {
    /// `tmigr_cpu_online`, from 6.19 on `tmigr_cpu_available`: the CPU comes to the hierarchy.
    Online,
    /// `tmigr_cpu_active`: it wakes, and its walk of activation begins.
    Awake,
    /// `tmigr_cpu_idle`: its walk of deactivation has ended.
    Asleep,
    /// `tmigr_cpu_offline`, from 6.19 on `tmigr_cpu_unavailable`: the same for a CPU that leaves
    /// the hierarchy.
    Offline,
    /// `tmigr_cpu_new_timer`: an idle CPU tells another first expiry.
    NewTimer,
    /// `tmigr_cpu_new_timer_idle`: an idle CPU has looked at its timers again.
    StillAsleep,
    /// `tmigr_handle_remote_cpu`: another CPU runs its timers.
    RunElsewhere,
}

/// What a line says of a CPU of the hierarchy.
#[derive(Clone, Copy)]
pub struct CpuEvent {
    pub kind: CpuKind,
    /// The CPU that is named.
    pub cpu: CpuId,
    /// Its leaf.
    pub leaf: u64,
    /// The first expiry that a sleeping CPU tells, in nanoseconds; `NO_EXPIRY` for none, and with
    /// the other kinds than `Asleep` and `StillAsleep`, which tell none.
    pub expiry: u64,
    /// The wakeup that the CPU keeps for the hierarchy, in nanoseconds; `NO_EXPIRY` for none.
    pub wakeup: u64,
}

/// Expiries in nanoseconds; `NO_EXPIRY` for none.
#[derive(Clone, Copy)]
pub struct Expiries {
    /// What is stored for the child.
    pub stored: u64,
    /// The group's cached first expiry after that.
    pub first: u64,
    /// The expiry of the child's event; 0 at a leaf.
    pub child_first: u64,
}

/// An event was put into a group's queue, or taken out (`tmigr_update_events`).
#[derive(Clone, Copy)]
pub struct Update {
    /// The child's pointer, 0 at a leaf.
    pub child: u64,
    /// The group.
    pub group: u64,
    /// The group's level.
    pub level: u8,
    /// The child's active set, 0 at a leaf.
    pub child_active: u8,
    /// The group's active set.
    pub group_active: u8,
    pub expiries: Expiries,
}

/// What an event of timer migration says.
#[derive(Clone, Copy)]
pub enum Happening {
    /// `tmigr_group_set`: a group was made.
    GroupMade(Place),
    /// `tmigr_connect_child_parent`: this group, by its pointer.
    GroupJoined(u64, Joining),
    /// `tmigr_connect_cpu_parent`: this CPU.
    CpuJoined(CpuId, Joining),
    /// `tmigr_group_set_cpu_active`, `tmigr_group_set_cpu_inactive`.
    Exchanged(Exchange),
    /// The events of a CPU.
    CpuTold(CpuEvent),
    /// `tmigr_update_events`.
    Updated(Update),
    /// `tmigr_handle_remote`: a CPU comes to a group, by its pointer, to run timers of others.
    Handling(u64),
}

/// A timer goes into a bucket (`timer_start`).
#[derive(Clone, Copy)]
pub struct Arming {
    /// The timer's pointer.
    pub timer: u64,
    /// The expiry that is asked for, in jiffies.
    pub expires: u64,
    /// The jiffies at which the line was written, where it has them.
    pub jiffies: Option<u64>,
    /// The wheel expiry, in jiffies.
    pub bucket: u64,
    /// The CPU whose base it is.
    pub cpu: CpuId,
    /// The bucket's number, 0 to 575: 64 times its level and its place there.
    pub index: u16,
    /// Which of the CPU's bases it is, where the flags say.
    pub class: Option<Class>,
}

/// A timer's function is about to run (`timer_expire_entry`).
#[derive(Clone, Copy)]
pub struct Expiry {
    /// The timer's pointer.
    pub timer: u64,
    /// The jiffies then.
    pub jiffies: u64,
    /// The wheel expiry to which its base has come (`baseclk`), in jiffies.
    pub clock: u64,
}

/// What an event of a timer or of a softirq says.
#[derive(Clone, Copy)]
pub enum TimerEvent {
    /// `timer_start`.
    Armed(Arming),
    /// `timer_cancel`: this timer, by its pointer, leaves its bucket, to be deleted, to be moved,
    /// or to be run.
    Removed(u64),
    /// `timer_expire_entry`.
    Ran(Expiry),
    /// `softirq_entry`, `softirq_exit`: the softirq of this number begins or ends.
    Softirq(u64),
}

/// A line of a trace.
#[derive(Clone, Copy)]
pub enum Line {
    /// Nothing, or a remark: its first character is `#`.
    Remark,
    /// Lines were lost here.
    Loss,
    /// An event of another name, of this CPU; and whether its name begins as those of timer
    /// migration do.
    Foreign(CpuId, bool),
    /// An event of timer migration, of this CPU. The time in nanoseconds is that at the head of the
    /// line, to its microsecond's end where it has microseconds; None where it counts lines.
    Told(CpuId, Option<u64>, Happening),
    /// An event of a timer or of a softirq, of this CPU, with the time at the head of the line.
    OfTimer(CpuId, Option<u64>, TimerEvent),
}
