// The foot of a log, within demand 3's bounds. Nothing is computed here: the contract is the theorem, cited so that it cannot be left
// out, and it comes from the two that are called.
#![tactic(auto)]

ghost use Rattle.foot.specs.Foot.{FootOfLog};

// The number in the line t is the sum of the added-up values.
pub fn foot_of_log()
    ensures { FootOfLog }
{
    demand3::demand_three();
    sums::totals_are_sums();
}
