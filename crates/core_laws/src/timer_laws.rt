//! Every step keeps timers, journals and times: each timer is queued at most once, each journal is
//! legal, and each base agrees with it.

ghost use Rattle.core_laws.specs.Timers.Layer.{TimersStayFit};

/// Every step keeps timers, journals and times.
pub fn law_timers()
    ensures { TimersStayFit }
{}
