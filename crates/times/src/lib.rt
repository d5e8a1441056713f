// The stored time that a record carries. Nothing is computed here: the contract is the theorem, cited so that it cannot be left out.
#![tactic(auto)]

ghost use Rattle.times.specs.Times.{StoredTimes};

// Whole minutes and leftover milliseconds are those of the scan that a point belongs to, and a record's double time is that time.
pub fn stored_times()
    ensures { StoredTimes }
{}
