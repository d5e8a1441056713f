// What the atlas reading gives beside the plain one. Nothing is computed here: the contract is the theorem, cited so that it cannot be left out.
#![tactic(auto)]

ghost use Rattle.spectra.specs.Spectra.{WholeSpectra};

// What is opened; that the plain records of a DAD file begin the atlas ones, and the atlas records of a UV file the plain ones; of every state that
// the next record is the plain reading's, when a scan is spent, and where a run ends.
pub fn whole_spectra()
    ensures { WholeSpectra }
{}
