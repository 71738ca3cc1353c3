//! Laws of lists, as contracts: a call of each does nothing.
ghost use Rattle.bb_cover.specs.Covering.{CoverIsUnique};
ghost use Rattle.bb_cover.specs.Numbers.{FramesAre};

/// Under one set of limits a list has one result: its bytes determine the size covered, or the line and the
/// reason for stopping, and the counts.
pub fn cover_is_unique()
    ensures unique { CoverIsUnique }
{}

/// A walk has room for 250 frames.
pub fn numbers_are_stated()
    ensures frames { FramesAre }
{}
