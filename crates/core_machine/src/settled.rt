//! What a core is between two moments. The function does nothing; what it says is its contract.

ghost use Rattle.core_machine.specs.Settled.{SettledIsInRun};

use step_play::law_rest;

/// A lawful core of a planned tree that is settled, with nothing behind a base's clock, is in a
/// run: so is what threads leave after a moment, though its events needn't be exact.
pub fn law_settled_in_run()
    ensures { SettledIsInRun }
{
    law_rest();
}
