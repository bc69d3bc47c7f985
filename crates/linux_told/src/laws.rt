//! What the answers are worth.

ghost use Rattle.linux_told.specs.Agrees.{AnswersHold};

/// At a rest at which nobody is missing, each CPU's told expiry that is to come is answered for in
/// every machine that agrees with what was seen, or open.
pub fn law_rests()
    ensures { AnswersHold }
{}
