//! The numbers of the line engine, as contracts.
ghost use Rattle.std.specs.Prelude.{◌≡◌};
ghost use Rattle.bb_lines.specs.Numbers.{NumbersAreStated, fault_number};

use crate::fault::Fault;

/// States the sizes of buffers and the threshold of a high cost as numbers. It does nothing at run time.
pub fn numbers_are_stated()
    ensures { NumbersAreStated }
{}

/// The number of a fault.
pub fn fault_number(fault: Fault) -> u8
    ensures { result ≡ fault_number fault }
{
    fault as u8
}
