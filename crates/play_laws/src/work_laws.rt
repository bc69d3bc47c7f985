//! Of the work of Play, which is bounded, and its moments, which go on to the script's end. Each
//! of these functions does nothing; its contract is the law.

ghost use Rattle.play_laws.specs.Work.Course.{EachComesToItsEnd};
ghost use Rattle.play_laws.specs.Work.Work.{WorkIsBounded};

/// In a moment each CPU has one interrupt at most, and as long as the end isn't past the greatest
/// timeout each timer is handed out once at most. So a play in whose moments that can't come to the
/// limit isn't broken off.
pub fn law_work()
    ensures { WorkIsBounded }
{}

/// The moments of every script's play go from jiffy 0 to its end, each later than the one before,
/// and each moment of the script is one of them. So what holds after each moment holds to the end.
pub fn law_moments()
    ensures { EachComesToItsEnd }
{}
