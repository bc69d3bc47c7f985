//! Every step keeps the bookkeeping of walks: kinds, stages, levels, flags and what a walk's CPU
//! is.

ghost use Rattle.core_laws.specs.Walks.Fit.{WalksStayFit};

/// Every step keeps the bookkeeping of walks.
pub fn law_walks()
    ensures { WalksStayFit }
{}
