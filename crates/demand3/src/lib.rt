// Demand 3, whole, and document 01's marked specimens. Nothing is computed here: each function's contract is a theorem, cited so that
// it cannot be left out.
#![tactic(auto)]

ghost use Rattle.demand3.specs.Demand3.{Demand3Holds};
ghost use Rattle.demand3.specs.Specimens.{specimens, atlas_specimens, AllGive};

// Demand 3, over all kinds, both readings and a whole list of calls.
pub fn demand_three()
    ensures { Demand3Holds }
{}

// The marked specimens come out as document 01 says.
#[tactic(auto, using(crate::proofs::Specimens::they_give))]
pub fn marked_specimens()
    ensures { AllGive specimens }
{}

// Specimens of the atlas reading.
#[tactic(auto, using(crate::proofs::Specimens::they_give_too))]
pub fn atlas_specimens()
    ensures { AllGive atlas_specimens }
{}
