//! Laws of criteria. The contract of each function is the law.

ghost use Rattle.wi_lookup_functions.specs.Inner.Meeting.{EmptyMeetsNone};

/// Empty meets no criterion.
pub fn empty_meets_none()
    ensures { EmptyMeetsNone }
{}
