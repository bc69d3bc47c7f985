//! A script played on the core, into a report or into numbers, or with a broadcast device.
//!
//! `plays` has a script played by `play_driver` on the core that `starting` makes; `deep` does so
//! with a broadcast device for idle CPUs; `following` tells when a core's next moment of a script
//! comes. No thread is started here.
#![tactic(auto)]

mod deep_plays;
mod devices;
mod following;
mod numbers;
mod plays;
mod sleeping;
mod starting;

pub use core_machine::{CoreFit, CorePlayer, PlayFit, Player, RunFit, RunPlayer};
pub use deep_plays::deep;
pub use following::next_moment;
pub use numbers::Summary;
pub use plays::{play, play_moment, summary};
pub use starting::start_core;
pub use step_core::Core;
