//! Traces told to people: what each step changes, in words, who answers for each waiting timer
//! after it, and why the first step that can't be made can't. And traces printed, each as its text.
#![tactic(auto)]

mod answers;
mod explaining;
mod pieces;
mod places;
mod printing;
mod sentences;
mod starting;
mod walks;

pub use explaining::{Explanation, explain};
pub use printing::print_trace;
pub use trace_check::{ReadTrace, Trace, Verdict, read_trace};
