//! Who answers for the timers of an idle CPU, said once for every machine that has a hierarchy:
//! definitions over a few functions of the machine, in `specs/`. No function stands here.
#![tactic(auto)]
