//! What the effect of a token always says.
ghost use Rattle.teco_step.specs.Laws.{CallsByCalls, ChangesOrTypes, ErrorsChangeNothing, GoesFurtherIfItMay, JumpsToItsName, LeavesInside, LoadIsWhatMoves, OnlyExits, ProfileStays, ValueGoesOn};

use teco_search::{occurrences, search_texts};

/// How the step of a token may end, and what it changes. It does nothing: its clauses are laws.
pub fn effect_laws()
    ensures leave { LeavesInside }
    ensures jump { JumpsToItsName }
    ensures call { CallsByCalls }
    ensures further { GoesFurtherIfItMay }
    ensures value { ValueGoesOn }
    ensures done { OnlyExits }
    ensures errors { ErrorsChangeNothing }
    ensures apart { ChangesOrTypes }
    ensures load { LoadIsWhatMoves }
    ensures profile { ProfileStays }
{
    occurrences();
    search_texts();
}
