//! What the watching leaves as it is. The function does nothing: what it says is its contract.

ghost use Rattle.view_stat.specs.Laws.{WatchedIsPlay};

/// The play that is watched is the play: the same moments, lines, work and cores.
pub fn law_watched()
    ensures { WatchedIsPlay }
{}
