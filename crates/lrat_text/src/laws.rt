ghost use Rattle.lrat_text.specs.Lrat.{RefutedIsUnsatisfiable};

/// A law: what lines refute by reversed unit propagation, no valuation satisfies.
pub fn refuted_is_unsatisfiable()
    ensures { RefutedIsUnsatisfiable }
{}
