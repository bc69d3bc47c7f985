//! Every step keeps groups lawful, the rules of edges under activations, and what fresh readings
//! say.

ghost use Rattle.core_laws.specs.Edges.Layer.{BitsStayFit, EdgesStayFit, MarksFollow};

/// Every step keeps the rules of edges.
pub fn law_edges()
    ensures { EdgesStayFit }
{}

/// Every step keeps what is said of the bits of inactive children, and of active CPUs whose bit is
/// set.
pub fn law_bits()
    ensures { BitsStayFit }
{}

/// What an activation marks as ignored is active.
pub fn law_marks()
    ensures { MarksFollow }
{}
