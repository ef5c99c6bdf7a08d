//! What always holds of changes that were noted.
ghost use Rattle.teco_undo.specs.RecordLaws.{BackThenForth, ComesSoExtended, ComesSoFarCut, FitsWithMoreCapacity, ForthThenBack, HoldsAtMostItsLoad, LeadsToItsBeginning};

/// What entries do when they are turned, and what a recorder leaves. It does nothing: its clauses are laws.
pub fn record_laws()
    ensures back { BackThenForth }
    ensures forth { ForthThenBack }
    ensures more { FitsWithMoreCapacity }
    ensures held { HoldsAtMostItsLoad }
    ensures leads { LeadsToItsBeginning }
    ensures extended { ComesSoExtended }
    ensures cut { ComesSoFarCut }
{}
