// The added-up value of a record in whole numbers, and that a record's double is it: definitions and a theorem.
#![tactic(auto)]

ghost use Rattle.whole.specs.Readings.{ExactReadings};

// Nothing to compute: the contract is the theorem that each record's unscaled intensity is the added-up value.
#[tactic(auto, using(crate::proofs::Exactly::exactly))]
pub fn exact_readings()
    ensures { ExactReadings }
{}
