//! The steps of a CPU on the words that threads share: it wakes, goes idle, begins and ends its
//! interrupt, is marked and released, and its walks begin and end, each with the pass that is
//! brought into the part of the CPU, whatever the other threads do meanwhile.
#![tactic(auto)]

mod ending;
mod marking;
mod seeing;
mod status;
mod stepping;
mod turns;

pub use ending::{carried_step, reevaluated_step, rest_step};
pub use marking::{carry_step, release_step, take_step};
pub use seeing::{see_cpu, see_leaf};
pub use shared_rule::{BoxPart, Core, Pass, Receipt, Run, RunName, bring, part_off, visit};
pub use stepping::{cpu_step, finish_step};
pub use turns::{enter_step, idle_step, leave_step, retell_step, wake_step};
