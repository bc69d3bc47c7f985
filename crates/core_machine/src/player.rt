//! A core that plays, with the memory that its drains take.

ghost use Rattle.std.specs.Prelude.{◌≡◌, ◌<◌};
ghost use Rattle.tm_base.specs.declared.limits.TheConstants.{SCRIPT_TIME_LIMIT};

use core_steps::Core;
use std::alloc::Global;
use std::marker::{Model, PhantomData};
use wheel_core::TimerBase;

/// What a core has to be, to play: whether what its groups were told has to be exact.
pub trait CoreFit {
    ghost use Rattle.std.specs.Prelude.{Bool};

    ghost exact: { Bool };
}

/// A core that only plays: it stays in play, its events exact.
pub struct PlayFit;

impl CoreFit for PlayFit {
    ghost use Rattle.std.specs.Prelude.{true};

    ghost exact = { true };
}

/// A core in a run, where other moments went before, by threads: what its groups were told needn't
/// be exact.
pub struct RunFit;

impl CoreFit for RunFit {
    ghost use Rattle.std.specs.Prelude.{false};

    ghost exact = { false };
}

/// A core whose clock is one of a script. A contract sees the core's world.
#[derive(Drop)]
pub struct CorePlayer<B: TimerBase, F: CoreFit> {
    pub(crate) alloc: Global,
    pub(crate) core: Core<B>,
    pub(crate) fit: PhantomData<F>,
}

/// A core in play.
pub type Player<B> = CorePlayer<B, PlayFit>;

/// A core in a run.
pub type RunPlayer<B> = CorePlayer<B, RunFit>;

impl<B: TimerBase, F: CoreFit> Model for CorePlayer<B, F> {
    ghost use Rattle.std.specs.Prelude.{◌<◌};
    ghost use Rattle.std.specs.Coded.{codes};
    ghost use Rattle.tm_base.specs.declared.limits.TheConstants.{SCRIPT_TIME_LIMIT};
    ghost use Rattle.tree_plan.specs.Codes.{shape_code};
    ghost use Rattle.core_world.specs.World.{World};

    ghost Value = { World };

    ghost coded = { Prim.hlevel (codes, shape_code) };

    ghost view = { λ p. p.core };

    ghost invariant = { λ p. p.core.clock < SCRIPT_TIME_LIMIT };
}

impl<B: TimerBase, F: CoreFit> CorePlayer<B, F> {
    /// A core that is to play; `alloc` gives the memory for what drains hand out.
    pub fn new(alloc: Global, core: Core<B>) -> CorePlayer<B, F>
        requires { core.clock < SCRIPT_TIME_LIMIT }
        ensures { result ≡ core }
    {
        CorePlayer {
            alloc,
            core,
            fit: PhantomData,
        }
    }

    /// The core.
    pub fn core(&self) -> &Core<B>
        ensures { result.now ≡ self.now }
    {
        &self.core
    }

    /// The core, at the end of what is played.
    pub fn into_core(self) -> Core<B>
        ensures { result ≡ self }
    {
        self.core
    }
}
