//! Every step keeps some placed CPU online, and marks with those that may have set them.

ghost use Rattle.core_laws.specs.Marks.Layer.{MarkersStayFit};

/// Every step keeps some placed CPU online, and marks with those that may have set them.
pub fn law_markers()
    ensures { MarkersStayFit }
{}
