//! A core as the machine of a play: each of a machine's calls is a rule of steps, made on the core.
#![tactic(auto)]

pub mod answers;
mod machine;
mod player;
pub mod readings;
mod settled;
pub mod timers;
pub mod walks;

pub use core_steps::{Core, law_step};
pub use player::{CoreFit, CorePlayer, PlayFit, Player, RunFit, RunPlayer};
pub use settled::law_settled_in_run;
pub use step_play::law_steps_are_play;
