//! Every step keeps an idle top answered.

ghost use Rattle.core_laws.specs.Tops.Layer.{TopsStayFit};

/// Every step keeps that something answers for each event of a top without migrator.
pub fn law_tops()
    ensures { TopsStayFit }
{}
