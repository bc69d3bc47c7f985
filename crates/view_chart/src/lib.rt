//! Charts of reports: a row for each CPU, time from left to right with long rests folded, an arrow
//! for each expiry, and a note for each answer. A report's lines become a model, of spans, arrows
//! and notes, and the model a picture.
#![tactic(auto)]

mod charting;
mod drawing;
mod heading;
mod laws;
mod marks;
mod model;
mod news;
mod notes;
mod pieces;
mod said;

pub use charting::{Choice, NoChart, chart, window_of};
pub use drawing::ROW;
pub use laws::{law_arrows, law_columns, law_news, law_notes, law_states};
pub use marks::{Fold, TICK_REST};
pub use model::{
    Arrow, Course, LONG_REST, Note, Point, Span, Window, arrows_of, next_point, notes_of, spans_of,
};
pub use news::news_of;
pub use notes::push_answer;
pub use said::{Answer, Change, Run, State, answer_in, change_in, cpu_in, run_in, time_of};
