//! What the meaning of command strings says, and the machine beside it.
ghost use Rattle.teco_exec.specs.Laws.{MeaningUnrolls, EmptyListEnds, FaultStops, TagIsPassed, EscapeDrops, NothingWithoutFuel, StepEnds, StepComesTo, FurtherStep, BlockComesTo, TurnEnds, LeavingEnds, StepsWithinLimit, MoreLimitChangesNothing, EnoughIsEnough, LimitsAreReached, ZeroLimitChangesNothing, ExitEndsWell, ProfileIsKept};
ghost use Rattle.teco_exec.specs.MachineLaws.{MachineMeans, MachineFollows};

use teco_scan::block_laws;
use teco_step::effect_laws;

/// The recursive meaning, sentence by sentence. It does nothing: its clauses are laws.
pub fn meaning_laws()
    ensures unrolls { MeaningUnrolls }
    ensures empty_list { EmptyListEnds }
    ensures fault { FaultStops }
    ensures tag { TagIsPassed }
    ensures escape { EscapeDrops }
    ensures no_fuel { NothingWithoutFuel }
    ensures step_ends { StepEnds }
    ensures step { StepComesTo }
    ensures further_step { FurtherStep }
    ensures block { BlockComesTo }
    ensures turn_end { TurnEnds }
    ensures leaving { LeavingEnds }
    ensures within_limit { StepsWithinLimit }
    ensures more_limit { MoreLimitChangesNothing }
    ensures enough { EnoughIsEnough }
    ensures reached { LimitsAreReached }
    ensures limit_zero { ZeroLimitChangesNothing }
    ensures exit { ExitEndsWell }
    ensures profile { ProfileIsKept }
{
    effect_laws();
    machine_laws();
}

/// The machine is what the meaning says, step by step. It does nothing: its clauses are laws.
pub fn machine_laws()
    ensures means { MachineMeans }
    ensures follows { MachineFollows }
{
    block_laws();
    effect_laws();
}
