// Whole runs of the log program's machine. Nothing is computed here: the contract is the theorem, cited so that it cannot be left out.
#![tactic(auto)]

ghost use Rattle.runs.specs.Whole.{WholeRuns};

// What a run writes is the log of its input, and it ends.
pub fn whole_runs()
    ensures { WholeRuns }
{}
