//! Where all orders of a few threads' steps lead, as a text: each end with the number of orders
//! that end so, what groups and CPUs show there, and who answers for each timer. What is shown is
//! plain data; nothing here searches.
#![tactic(auto)]

mod lines;
mod pieces;
mod printing;
mod shown;

pub use printing::print_answer;
pub use shown::{
    AnswerShown, Answerer, EndShown, GroupShown, Leader, SleeperShown, ThreadShown, TimerShown,
};

#[cfg(test)]
mod tests;
