//! Laws of texts, columns and limits, as contracts: a call of each does nothing.
ghost use Rattle.std.specs.Prelude.{◌≡◌};
ghost use Rattle.bb_machine.specs.Laws.{
  ColumnIsUnique,
  LongPrefixesAreEnough,
  SmallerMachinesAreMachines,
  TextsDiffer,
};
ghost use Rattle.bb_machine.specs.Numbers.{NumbersAreStated, fault_number};

use crate::limits::LimitFault;

/// The greatest limits, states, symbols and bytes of a machine's text are the stated numbers.
pub fn numbers_are_stated()
    ensures { NumbersAreStated }
{}

/// The number of a refusal of limits.
pub fn fault_number(fault: LimitFault) -> u8
    ensures { result ≡ fault_number fault }
{
    fault as u8
}

/// Different machines have different texts.
pub fn texts_differ()
    ensures { TextsDiffer }
{}

/// No line has two columns.
pub fn column_is_unique()
    ensures { ColumnIsUnique }
{}

/// Keeping more than `LINE` leading bytes of a line is enough to read it as the whole line is read.
pub fn long_prefixes_are_enough()
    ensures { LongPrefixesAreEnough }
{}

/// A machine of fewer states and symbols than are allowed is a machine.
pub fn smaller_machines_are_machines()
    ensures { SmallerMachinesAreMachines }
{}
