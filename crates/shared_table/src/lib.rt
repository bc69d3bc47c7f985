//! The table of a run: how it is made of a core at rest, how threads get at what it guards, and
//! what its words say once no thread shares them any more.
#![tactic(auto)]

mod apart;
mod cpu_box;
mod cutting;
mod finishing;
mod first_words;
mod groups;
mod holders;
mod joining;
mod last_words;
mod leaf;
mod read_back;
mod ready;
mod shared;

pub use cpu_box::CpuBox;
pub use joining::{join_boxes, join_passes};
pub use read_back::ended;
pub use ready::{MOST_MADE, Ready};
pub use shared::Shared;
pub use shared_rule::{BoxPart, Core, Pass, Run, RunName, visit};
