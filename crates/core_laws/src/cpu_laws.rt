//! Every step keeps what is said of one CPU alone: of its mark, its walk's times, and its wakeup.

ghost use Rattle.core_laws.specs.Cpus.Layer.{CpusStayFit};

/// Every step keeps what is said of each CPU alone.
pub fn law_cpus()
    ensures { CpusStayFit }
{}
