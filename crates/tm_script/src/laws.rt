//! Laws of scripts, as functions that do nothing.

ghost use Rattle.tm_script.specs.Faults.{FaultsTell};
ghost use Rattle.tm_script.specs.Facts.{ScriptsHaveFacts};

/// A text has no fault exactly where it is a script's.
pub fn law_faults()
    ensures { FaultsTell }
{}

/// What holds of every script of the grammar.
pub fn law_facts()
    ensures { ScriptsHaveFacts }
{}
