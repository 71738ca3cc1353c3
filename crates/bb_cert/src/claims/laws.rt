//! Laws of verdict lines, of repeating runs and of the backward tree, as contracts. A call of each does
//! nothing.
ghost use Rattle.bb_cert.specs.claims.FewCells.{HaltsInFewCellsAreEarly, LongRunsInFewCellsNeverHalt};
ghost use Rattle.bb_cert.specs.claims.Laws.{
  AgreeingRecordsGoOn,
  AgreeingRecordsNeverHalt,
  AgreeingRecordsNeverRepeat,
  AnswerIsUnique,
  ClaimsNeverHalt,
  HasRecord,
  LinesDiffer,
  LowerRecordsExist,
  RecordHasOneNumber,
  RecordHasOneSide,
  RecordHasOneStep,
  RecordPair,
  RecordTakesSteps,
  RecordsInOrder,
  RepeatsGoOn,
  RepeatsKeepDistance,
  RepeatsMakeNoRecord,
  RepeatsNeverHalt,
  ShortOfRecord,
  SmallerLinesAreLines,
};
ghost use Rattle.bb_tree.specs.TreeLaws.{ClearTreesNeverHalt, EmptyLevelsStay, LevelsComeBeforeHalts, TreeHasOneEnd};
ghost use Rattle.std.specs.Prelude.{◌≡◌};
ghost use Rattle.bb_cert.specs.Numbers.{NumbersAreStated, answer_number};

use crate::checker::answer::Answer;

/// The longest verdict line, and its buffer, have the stated numbers of bytes.
pub fn numbers_are_stated()
    ensures { NumbersAreStated }
{}

/// The number of an answer.
pub fn answer_number(answer: Answer) -> u8
    ensures { result ≡ answer_number answer }
{
    answer as u8
}

/// A verdict line has one meaning: one machine and one verdict, or one column.
pub fn lines_differ()
    ensures { LinesDiffer }
{}

/// A verdict line of a smaller machine is a verdict line under larger sizes too, with the same meaning.
pub fn smaller_lines_are_lines()
    ensures { SmallerLinesAreLines }
{}

/// A repeated configuration repeats forever, so the machine never halts.
pub fn repeats_go_on()
    ensures go_on { RepeatsGoOn }
    ensures never { RepeatsNeverHalt }
    ensures distance { RepeatsKeepDistance }
{}

/// A machine that halts in few cells halts early; one that runs longer in them never halts.
pub fn few_cells_settle()
    ensures early { HaltsInFewCellsAreEarly }
    ensures never { LongRunsInFewCellsNeverHalt }
{}

/// After two agreeing records the run goes alike, so the machine never halts.
pub fn agreeing_records_go_on()
    ensures alike { AgreeingRecordsGoOn }
    ensures never { AgreeingRecordsNeverHalt }
{}

/// A record's number and its step determine one another, and records come in the order of their numbers.
pub fn records_in_order()
    ensures one_step { RecordHasOneStep }
    ensures one_number { RecordHasOneNumber }
    ensures one_side { RecordHasOneSide }
    ensures in_order { RecordsInOrder }
    ensures lower { LowerRecordsExist }
    ensures short { ShortOfRecord }
    ensures takes_steps { RecordTakesSteps }
{}

/// After two agreeing records all later records exist, and those at the same distance agree.
pub fn later_records_agree()
    ensures every { HasRecord }
    ensures pair { RecordPair }
{}

/// A run of repeating configurations makes no further record, so no two records of it agree.
pub fn repeats_make_no_record()
    ensures no_record { RepeatsMakeNoRecord }
    ensures never_both { AgreeingRecordsNeverRepeat }
{}

/// A claim of never halting is right.
pub fn claims_never_halt()
    ensures { ClaimsNeverHalt }
{}

/// The backward tree: level `i` has exactly the configurations `i` steps before a halting entry. So a machine
/// whose tree ends, without a match for the start, never halts.
pub fn levels_come_before_halts()
    ensures before { LevelsComeBeforeHalts }
    ensures stay { EmptyLevelsStay }
    ensures never { ClearTreesNeverHalt }
    ensures one_end { TreeHasOneEnd }
{}

/// No verdict has two answers.
pub fn answer_is_unique()
    ensures { AnswerIsUnique }
{}
