//! Laws of repeating runs, as contracts. A call of each does nothing.
ghost use Rattle.laws_of_recurrence.specs.Lines.{LinesKeepRecurrences};
ghost use Rattle.laws_of_recurrence.specs.Pairs.{LateRecordsArePairs, RepeatsHavePairs};
ghost use Rattle.laws_of_recurrence.specs.Recurrence.{CyclersRepeat, ExactExists, ExactIsUnique};
ghost use Rattle.laws_of_recurrence.specs.Recurrence.{ExactTellsAll, PeriodsAreMultiples};
ghost use Rattle.laws_of_recurrence.specs.Recurrence.{StartsServeAllPeriods, TranslatedCyclersRepeat};
ghost use Rattle.laws_of_recurrence.specs.Seen.{DifferenceIsSeen, ExactIsSeen, SeenIsExact};
ghost use Rattle.laws_of_recurrence.specs.Shift.{ExactOfCyclers, ShiftStays, ZeroShiftIsCycle};
ghost use Rattle.laws_of_recurrence.specs.Uses.{KindsOfUseDiffer, LastUseIsSeen, LastUseIsUnique};
ghost use Rattle.laws_of_recurrence.specs.Uses.{QuasihaltIsUnique, QuasihaltsByLastUse, UnusedIsSeen};
ghost use Rattle.laws_of_recurrence.specs.Uses.{UsedForEverJustInPeriod, UsesAreOfThreeKinds};
ghost use Rattle.laws_of_recurrence.specs.Verdicts.{CyclersHaveExactPeriod, TranslatedCyclersHaveExactPeriod};

use bb_cert::claims::laws::{agreeing_records_go_on, records_in_order};

/// A machine with a true pair repeats from the pair's first step on, and the distance of both steps is a
/// period.
pub fn pairs_repeat()
    ensures cyclers { CyclersRepeat }
    ensures translated { TranslatedCyclersRepeat }
{
    agreeing_records_go_on();
}

/// Each repeating run has a true pair of its period: a cycler from its start, or a translated cycler from any
/// late record on the side of the shift.
pub fn repeats_have_pairs()
    ensures records { LateRecordsArePairs }
    ensures pairs { RepeatsHavePairs }
{
    records_in_order();
}

/// A run repeats from the same steps on with each of its periods.
pub fn starts_serve_all_periods()
    ensures { StartsServeAllPeriods }
{}

/// A repeating run has one exact start and one exact period. The true starts are those no earlier, and the
/// true periods are the multiples.
pub fn exact_is_unique()
    ensures exists { ExactExists }
    ensures one { ExactIsUnique }
    ensures multiples { PeriodsAreMultiples }
    ensures tells { ExactTellsAll }
{}

/// Finitely many steps certify an exact start and period, and each exact start and period has such a
/// certificate.
pub fn seen_is_exact()
    ensures right { SeenIsExact }
    ensures complete { ExactIsSeen }
    ensures finite { DifferenceIsSeen }
{}

/// The states and transitions of one period are those used for ever. The others have their last use before
/// it, or none.
pub fn uses_are_seen()
    ensures for_ever { UsedForEverJustInPeriod }
    ensures last { LastUseIsSeen }
    ensures none { UnusedIsSeen }
{}

/// A repeating run uses each state and transition never, for ever, or for the last time at one step before
/// the start.
pub fn uses_are_of_three_kinds()
    ensures kinds { UsesAreOfThreeKinds }
    ensures differ { KindsOfUseDiffer }
    ensures one_last { LastUseIsUnique }
{}

/// A repeating run quasihalts exactly if one of its states has a last use. It does so after one number of
/// steps.
pub fn quasihalt_is_unique()
    ensures one { QuasihaltIsUnique }
    ensures by_last_use { QuasihaltsByLastUse }
{}

/// Each period moves the head by the same shift. It is 0 exactly if the configuration comes again. So the
/// exact start and period of a cycler are those of its configurations.
pub fn shift_stays()
    ensures stays { ShiftStays }
    ensures zero { ZeroShiftIsCycle }
    ensures cyclers { ExactOfCyclers }
{}

/// The pair of a verdict of `decide` is one exact period apart.
pub fn verdicts_have_exact_period()
    ensures cyclers { CyclersHaveExactPeriod }
    ensures translated { TranslatedCyclersHaveExactPeriod }
{
    agreeing_records_go_on();
    records_in_order();
}

/// A machine recurs as its line in a complete list. Start, period and the steps to a quasihalt are the same. The
/// shift is on the other side where left and right are swapped, and the last uses are those of the new names.
pub fn lines_keep_recurrences()
    ensures { LinesKeepRecurrences }
{}
