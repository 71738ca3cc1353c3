//! Laws of verdicts, as contracts: a call of each does nothing.
ghost use Rattle.bb_decide.specs.FewCells.{FewCellsAreDecided};
ghost use Rattle.bb_decide.specs.Laws.{AgreeingRecordsAreFound, LargerLimitsKeep, RepeatsAreFound};
ghost use Rattle.bb_decide.specs.Laws.{VerdictIsUnique, VerdictsAreConfirmed, VerdictsHold, StepsAreBounded};
ghost use Rattle.bb_decide.specs.Laws.{RunsAreUnique, SmallLimitsDecide, StepsAreUnique};

/// No machine has two verdicts under one set of limits and one plan.
pub fn verdict_is_unique()
    ensures { VerdictIsUnique }
{}

/// Deciding it has no two counts of steps, and costs at most three times the limit of steps.
pub fn steps_are_unique()
    ensures unique { StepsAreUnique }
    ensures bounded { StepsAreBounded }
{}

/// Deciding it in a single pass has no two counts of steps either, and its latest step is the same each time.
pub fn runs_are_unique()
    ensures { RunsAreUnique }
{}

/// A verdict's claim holds, so the checker confirms it under the same limits.
pub fn verdicts_hold()
    ensures claim { VerdictsHold }
    ensures confirmed { VerdictsAreConfirmed }
{}

/// A pattern within reach of the limits is found.
pub fn patterns_are_found()
    ensures repeats { RepeatsAreFound }
    ensures records { AgreeingRecordsAreFound }
{}

/// Larger limits lose nothing: a halt or a pair stays, and a tree stays or becomes a pair.
pub fn larger_limits_keep()
    ensures { LargerLimitsKeep }
{}

/// A halt or a pair found by a run within small limits is the verdict within larger ones, with or without
/// backward reasoning.
pub fn small_limits_decide()
    ensures { SmallLimitsDecide }
{}

/// With the cyclers on, and three times as many steps as there are configurations in the cells, no machine is
/// `undecided steps`.
pub fn few_cells_are_decided()
    ensures { FewCellsAreDecided }
{}
