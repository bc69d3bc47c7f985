//! What a chart says of its report. Each of these functions does nothing; its contract is the law.

ghost use Rattle.view_chart.specs.Laws.{ArrowsRight, ColumnsRise, NewsRight, NotesRight};
ghost use Rattle.view_chart.specs.Laws.{StatesRight};

/// A CPU is drawn asleep in a jiffy exactly where the report leaves it so, and so with the other
/// states.
pub fn law_states()
    ensures { StatesRight }
{}

/// Each run that the window has is drawn as one arrow, from its home to its runner at its jiffy,
/// and nothing else is.
pub fn law_arrows()
    ensures { ArrowsRight }
{}

/// Each answer that the window has has one note, at the CPU that sleeps and its jiffy, and nothing
/// else has.
pub fn law_notes()
    ensures { NotesRight }
{}

/// Of the answers for a CPU each that is new is drawn as one number, in the row of that CPU at its
/// jiffy, and nothing else is.
pub fn law_news()
    ensures { NewsRight }
{}

/// Folding keeps the order of jiffies, and each jiffy with a line has its own column.
pub fn law_columns()
    ensures { ColumnsRise }
{}
