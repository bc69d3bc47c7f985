//! What a step leaves as it was. Each of these functions does nothing; its contract is the law.

ghost use Rattle.std.specs.Prelude.{ℕ, Bool};
ghost use Rattle.core_world.specs.Frames.{MovedLaws, QuietSteps, SizesStay};
ghost use Rattle.core_world.specs.World.{CpuRecord, World};
ghost use Rattle.walk_rules.specs.Scene.{Group};

/// A step changes one CPU and one group.
pub fn law_moved()
    ensures { (w : World) (g : ℕ) (x : Group) (c : ℕ) (y : CpuRecord) (exchanges : Bool) →
        MovedLaws w g x c y exchanges }
{}

/// Timers, times, interrupts and marks are nothing to walks.
pub fn law_quiet()
    ensures { QuietSteps }
{}

/// No step changes the tree, or how many groups with how many slots, CPUs and timers there are.
pub fn law_sizes()
    ensures { SizesStay }
{}
