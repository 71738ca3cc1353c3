//! Laws of runs, with and without bounds, as contracts: a call of each does nothing.
ghost use Rattle.bb_sim.specs.FewCells.{FewCellsRepeat};
ghost use Rattle.bb_sim.specs.Laws.{CountIsWithin, EarlierExists, EarlierIsInside, HaltIsLast};
ghost use Rattle.bb_sim.specs.Laws.{HaltIsUnique, LastStepExists, LastStepIsUnique};
ghost use Rattle.bb_sim.specs.Laws.{OutcomeIsUnique, PositionHasParityOfStep, ScoreIsUnique};
ghost use Rattle.bb_sim.specs.Laws.{SpanGrows, SpanIsReached};

/// A run within bounds has a last step.
pub fn last_step_exists()
    ensures { LastStepExists }
{}

/// It has no two.
pub fn last_step_is_unique()
    ensures { LastStepIsUnique }
{}

/// Every configuration before an existing one exists.
pub fn earlier_exists()
    ensures { EarlierExists }
{}

/// A halt is at the last configuration: there is no step after it.
pub fn halt_is_last()
    ensures { HaltIsLast }
{}

/// No machine halts at two steps.
pub fn halt_is_unique()
    ensures { HaltIsUnique }
{}

/// No step has two scores.
pub fn score_is_unique()
    ensures { ScoreIsUnique }
{}

/// No simulation finds two things.
pub fn outcome_is_unique()
    ensures { OutcomeIsUnique }
{}

/// The span never shrinks.
pub fn span_grows()
    ensures { SpanGrows }
{}

/// A step before one inside is inside.
pub fn earlier_is_inside()
    ensures { EarlierIsInside }
{}

/// The ends of the span are positions of the head at steps not in Z, and all such positions lie between them.
pub fn span_is_reached()
    ensures { SpanIsReached }
{}

/// The counts up to a step inside are within the run's bounds.
pub fn count_is_within()
    ensures { CountIsWithin }
{}

/// A run confined to few cells halts, or repeats one of its few configurations.
pub fn few_cells_repeat()
    ensures { FewCellsRepeat }
{}

/// The head is at an even position at even steps, and at an odd one at odd steps.
pub fn position_has_parity_of_step()
    ensures { PositionHasParityOfStep }
{}
