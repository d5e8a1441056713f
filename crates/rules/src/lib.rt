// Rules of reading, and demand 3 for any of them: definitions and theorems. The crates above read by rules of their own.
#![tactic(auto)]

ghost use Rattle.std.specs.Prelude.{ℕ, List};
ghost use Rattle.rules.specs.AnyRules.{AnyRules};

// What holds of reading by any rules, said here of states and records that are lists of numbers (a contract cannot range
// over types; `any_rules` of proofs/ does). Cited by a contract, so that it cannot be left out.
pub fn any_rules()
    ensures { AnyRules (List ℕ) (List ℕ) }
{}
