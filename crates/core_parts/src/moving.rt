//! A timer moves from one CPU to another.

ghost use Rattle.std.specs.Prelude.{◌≡◌, ◌≢◌, ◌-◌, ◌^◌, ◌<◌, IfOk, OnErr, OnOk, option_map};
ghost use Rattle.std.specs.Prelude.{slice_index_or, vec_len};
ghost use Rattle.tm_base.specs.declared.names.TheConstants.{TIME_LIMIT};
ghost use Rattle.core_world.specs.Steps.{first_moved};
ghost use Rattle.core_world.specs.World.{no_cpu};
ghost use Rattle.core_parts.specs.Moves.{MayTakeIn, after_giving, after_moving, after_taking};
ghost use Rattle.core_parts.specs.Moves.{wheel_taken};

use crate::cpu::CoreCpu;
use tm_base::{Class, CpuId, Jiffy, NoMemory, TIME_LIMIT, TimerId};
use wheel_core::{Item, TimerBase};

impl<B: TimerBase> CoreCpu<B> {
    /// The class of the first timer to move from a CPU.
    pub fn class_to_move(&self) -> Option<Class>
        ensures { result ≡ option_map (λ first. first.0) (first_moved self.now.bases) }
    {
        if self.bases.base(Class::Pinned).oldest().is_some() {
            Some(Class::Pinned)
        } else if self.bases.base(Class::Global).oldest().is_some() {
            Some(Class::Global)
        } else if self.bases.base(Class::Deferrable).oldest().is_some() {
            Some(Class::Deferrable)
        } else {
            None
        }
    }
}

/// The timer of an item.
fn timer_of(item: &Item) -> TimerId
    requires { item.now.id < 2 ^ 16 }
    ensures { result.0 ≡ item.now.id }
{
    TimerId(item.id as u16)
}

/// The first timer of a class goes from one CPU to another; answers its wheel expiry there, in
/// jiffies. Want of memory leaves both as before.
fn hand_over<B: TimerBase>(
    from: &mut CoreCpu<B>,
    to: &mut CoreCpu<B>,
    now: Jiffy,
    class: Class,
    by: CpuId,
) -> Result<Option<Jiffy>, NoMemory>
    requires now_in_time { now < TIME_LIMIT - 1 }
    requires may { MayTakeIn class from.old.bases to.old.bases }
    ensures wheel { IfOk result (λ wheel. wheel
        ≡ wheel_taken now class from.old.bases to.old.bases) }
    ensures given { OnOk result (from.new ≡ after_giving now class by from.old) }
    ensures taken { OnOk result (to.new ≡ after_taking now class by from.old to.old) }
    ensures err_from { OnErr result (from.new ≡ from.old) }
    ensures err_to { OnErr result (to.new ≡ to.old) }
{
    from.bases.journal();
    to.bases.journal();
    from.bases.reserve(0, 1)?;
    to.bases.reserve(1, 1)?;
    let Some(item) = from.bases.move_out(now, class, by) else {
        return Ok(None);
    };
    let timer = timer_of(&item);
    let wheel = to
        .bases
        .move_in(now, class, timer, item.expires, item.job, item.arg, by);
    Ok(Some(wheel))
}

/// The first timer of a class goes to a CPU from another one; the CPU that takes it comes first.
fn take_over<B: TimerBase>(
    to: &mut CoreCpu<B>,
    from: &mut CoreCpu<B>,
    now: Jiffy,
    class: Class,
    by: CpuId,
) -> Result<Option<Jiffy>, NoMemory>
    requires now_in_time { now < TIME_LIMIT - 1 }
    requires may { MayTakeIn class from.old.bases to.old.bases }
    ensures wheel { IfOk result (λ wheel. wheel
        ≡ wheel_taken now class from.old.bases to.old.bases) }
    ensures given { OnOk result (from.new ≡ after_giving now class by from.old) }
    ensures taken { OnOk result (to.new ≡ after_taking now class by from.old to.old) }
    ensures err_from { OnErr result (from.new ≡ from.old) }
    ensures err_to { OnErr result (to.new ≡ to.old) }
{
    hand_over(from, to, now, class, by)
}

/// The first timer of a class goes from a CPU to one of a higher number.
fn move_up<B: TimerBase>(
    cpus: &mut Vec<CoreCpu<B>>,
    from: CpuId,
    to: CpuId,
    now: Jiffy,
    class: Class,
) -> Result<Option<Jiffy>, NoMemory>
    requires now_in_time { now < TIME_LIMIT - 1 }
    requires from { from.0 < vec_len cpus.old }
    requires to { to.0 < vec_len cpus.old }
    requires above { from.0 < to.0 }
    requires may { MayTakeIn class (slice_index_or cpus.old.items from.0 no_cpu).bases
        (slice_index_or cpus.old.items to.0 no_cpu).bases }
    ensures wheel { IfOk result (λ wheel. wheel ≡ wheel_taken now class
        (slice_index_or cpus.old.items from.0 no_cpu).bases
        (slice_index_or cpus.old.items to.0 no_cpu).bases) }
    ensures ok { OnOk result (cpus.new.items ≡ after_moving now class from to cpus.old.items) }
    ensures err { OnErr result (cpus.new.items ≡ cpus.old.items) }
{
    let giver = usize::from(from.0);
    let taker = usize::from(to.0);
    prove!(giver < taker);
    let (low, high) = cpus.split_at_mut(taker);
    hand_over(&mut low[giver], &mut high[0], now, class, to)
}

/// The first timer of a class goes from a CPU to one of a lower number.
fn move_down<B: TimerBase>(
    cpus: &mut Vec<CoreCpu<B>>,
    from: CpuId,
    to: CpuId,
    now: Jiffy,
    class: Class,
) -> Result<Option<Jiffy>, NoMemory>
    requires now_in_time { now < TIME_LIMIT - 1 }
    requires from { from.0 < vec_len cpus.old }
    requires to { to.0 < vec_len cpus.old }
    requires below { to.0 < from.0 }
    requires may { MayTakeIn class (slice_index_or cpus.old.items from.0 no_cpu).bases
        (slice_index_or cpus.old.items to.0 no_cpu).bases }
    ensures wheel { IfOk result (λ wheel. wheel ≡ wheel_taken now class
        (slice_index_or cpus.old.items from.0 no_cpu).bases
        (slice_index_or cpus.old.items to.0 no_cpu).bases) }
    ensures ok { OnOk result (cpus.new.items ≡ after_moving now class from to cpus.old.items) }
    ensures err { OnErr result (cpus.new.items ≡ cpus.old.items) }
{
    let giver = usize::from(from.0);
    let taker = usize::from(to.0);
    prove!(taker < giver);
    let (low, high) = cpus.split_at_mut(giver);
    take_over(&mut low[taker], &mut high[0], now, class, to)
}

/// The first timer of a class goes from a CPU to another one; answers its wheel expiry there, in
/// jiffies. Want of memory leaves all as before.
pub fn move_between<B: TimerBase>(
    cpus: &mut Vec<CoreCpu<B>>,
    from: CpuId,
    to: CpuId,
    now: Jiffy,
    class: Class,
) -> Result<Option<Jiffy>, NoMemory>
    requires now_in_time { now < TIME_LIMIT - 1 }
    requires from { from.0 < vec_len cpus.old }
    requires to { to.0 < vec_len cpus.old }
    requires apart { from.0 ≢ to.0 }
    requires may { MayTakeIn class (slice_index_or cpus.old.items from.0 no_cpu).bases
        (slice_index_or cpus.old.items to.0 no_cpu).bases }
    ensures wheel { IfOk result (λ wheel. wheel ≡ wheel_taken now class
        (slice_index_or cpus.old.items from.0 no_cpu).bases
        (slice_index_or cpus.old.items to.0 no_cpu).bases) }
    ensures ok { OnOk result (cpus.new.items ≡ after_moving now class from to cpus.old.items) }
    ensures err { OnErr result (cpus.new.items ≡ cpus.old.items) }
{
    if from.0 < to.0 {
        move_up(cpus, from, to, now, class)
    } else {
        move_down(cpus, from, to, now, class)
    }
}
