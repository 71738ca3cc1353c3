//! Laws on verdicts beyond their machine's run within limits, as contracts. A call of each does nothing.
ghost use Rattle.laws_of_verdicts.specs.Bound.{CoversBound, CoversBoundGiven};
ghost use Rattle.laws_of_verdicts.specs.Change.{ChangesKeepAnswers, ChangesKeepClaims, ChangesKeepVerdicts};
ghost use Rattle.laws_of_verdicts.specs.Closed.{CoversDecide, CoversSettle};
ghost use Rattle.laws_of_verdicts.specs.Completion.{CompletionsKeepAnswers, CompletionsKeepClaims};
ghost use Rattle.laws_of_verdicts.specs.Completion.{CompletionsKeepVerdicts, CompletionsNeverHalt};
ghost use Rattle.laws_of_verdicts.specs.EveryStart.{EveryStartHaltsSoonOrNever};
ghost use Rattle.laws_of_verdicts.specs.Found.{CyclersAreFound};
ghost use Rattle.laws_of_verdicts.specs.UndefinedEntry.{FilledEntriesHaltNext, UndefinedEntriesKeepHalts};
ghost use Rattle.laws_of_verdicts.specs.LineOf.{LinesAreUnique, LinesKeepAnswers};
ghost use Rattle.laws_of_verdicts.specs.LineOf.{LinesKeepPairs, LinesSettle};
ghost use Rattle.laws_of_verdicts.specs.LaterSteps.{CyclersComeAgain, TranslatedCyclersMoveOn};
ghost use Rattle.laws_of_verdicts.specs.NormalForm.{NormalFormCovers};
ghost use Rattle.laws_of_verdicts.specs.Walk.{WalksAreInNormalForm, WalksCompose};

use bb_cert::claims::laws::agreeing_records_go_on;

/// A cycler is periodic. From the pair's first step on, each configuration is repeated after a period, the
/// distance of the two steps.
pub fn cyclers_come_again()
    ensures { CyclersComeAgain }
{}

/// A translated cycler is periodic up to a shift. From the pair's first step on, each state is repeated after
/// a period, with the head farther out by the shift.
pub fn translated_cyclers_move_on()
    ensures { TranslatedCyclersMoveOn }
{
    agreeing_records_go_on();
}

/// If the backward tree ends in so many levels, every state on every tape halts within as many steps or
/// never.
pub fn every_start_halts_soon_or_never()
    ensures { EveryStartHaltsSoonOrNever }
{}

/// Filling undefined transitions, in any way, keeps a verdict to the digit. The verdict is a halt by a step
/// into Z, or a pair.
pub fn completions_keep_verdicts()
    ensures { CompletionsKeepVerdicts }
{}

/// It keeps such a verdict's claim, from any source, and the checker's `ok`. A machine that never halts, for
/// any reason, never does with its undefined transitions filled.
pub fn completions_keep_claims()
    ensures claim { CompletionsKeepClaims }
    ensures answer { CompletionsKeepAnswers }
    ensures never { CompletionsNeverHalt }
{}

/// Three changes keep a verdict to the digit: left and right swapped, states renamed but for A, symbols
/// renamed but for 0. Only the side of a translated cycler changes after a swap.
pub fn changes_keep_verdicts()
    ensures { ChangesKeepVerdicts }
{}

/// The same holds of a verdict's claim, from any source, and of each answer of the checker.
pub fn changes_keep_claims()
    ensures claim { ChangesKeepClaims }
    ensures answer { ChangesKeepAnswers }
{}

/// Take a machine that halts on an undefined transition. It halts there with any other one filled, and one
/// step later with this one filled by an entry into Z.
pub fn undefined_halts_complete()
    ensures same { UndefinedEntriesKeepHalts }
    ensures next { FilledEntriesHaltNext }
{}

/// A closed list of true lines settles every machine of its size. Closed means: it continues below each
/// machine that halts on one of several undefined transitions. The completions of undecided machines are
/// excepted.
pub fn covers_settle()
    ensures settle { CoversSettle }
    ensures decide { CoversDecide }
{}

/// Such a list bounds all halts of its size: one step and one cell beyond its own greatest halt. Machines may
/// be assumed never to halt; their completions are then not left open.
pub fn covers_bound()
    ensures bound { CoversBound }
    ensures given { CoversBoundGiven }
{}

/// A list in tree normal form covers its size too: its machines use only the first unused state and symbol,
/// and move to the right at first. The lines of a walk in depth are such a list.
pub fn normal_form_covers()
    ensures covers { NormalFormCovers }
    ensures walks { WalksAreInNormalForm }
{}

/// Walks compose. The lines of a walk from two lists of machines are those of a walk from the first, followed
/// by those of a walk from the second, and the other way round. So a walk can be checked in shards.
pub fn walks_compose()
    ensures { WalksCompose }
{}

/// Deciding with cyclers on finds each cycler confirmed by the checker, from any source. It needs three times
/// the steps of the claim at most.
pub fn cyclers_are_found()
    ensures { CyclersAreFound }
{}

/// A true verdict on a machine's line settles the machine. A pair, and the checker's `ok` to it, are the
/// machine's own, but for the side of a translated cycler. A halt is the machine's, or one step later, or the
/// machine never halts.
pub fn lines_settle()
    ensures settle { LinesSettle }
    ensures pair { LinesKeepPairs }
    ensures answer { LinesKeepAnswers }
{}

/// A machine has one line within given limits. The change needn't be unique: names that the line doesn't use may
/// differ.
pub fn lines_are_unique()
    ensures { LinesAreUnique }
{}
