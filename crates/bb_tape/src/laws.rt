//! The numbers of tapes, as contracts.
ghost use Rattle.std.specs.Prelude.{◌≡◌};
ghost use Rattle.bb_tape.specs.Numbers.{NumbersAreStated, fault_number};

use crate::tape::TapeFault;

/// The greatest limit of cells and the greatest symbol are the stated numbers. It does nothing.
pub fn numbers_are_stated()
    ensures { NumbersAreStated }
{}

/// The number of a refusal.
pub fn fault_number(fault: &TapeFault) -> u8
    ensures { result ≡ fault_number fault.now }
{
    match fault {
        TapeFault::Cells => TapeFault::Cells as u8,
        TapeFault::Memory => TapeFault::Memory as u8,
    }
}
