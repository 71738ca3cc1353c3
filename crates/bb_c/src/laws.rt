//! The numbers of the calls, as a law: a call of it does nothing.
ghost use Rattle.bb_c.specs.Numbers.{FirstTryIs, StatusesAre};

/// The statuses are those of `include/bb.h`; the first try has as many steps and cells as the documents say.
pub fn numbers_are_stated()
    ensures statuses { StatusesAre }
    ensures first_try { FirstTryIs }
{}
