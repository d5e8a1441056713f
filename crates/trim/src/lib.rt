// UTF-8 with its white space trimmed.
#![tactic(auto)]

ghost use Rattle.std.specs.Prelude.{◌≡◌, List, ℕ};
ghost use Rattle.trim.specs.WhiteSpace.{trimmed_of, Means};

use utf8::text_in;

// Where a text stands, in bytes.
#[derive(Clone, Copy, Debug, PartialEq, Eq)]
pub struct Extent {
    pub start: usize,
    pub count: usize,
}

// Where the text in s, if it is UTF-8, stands without the white space at its ends. White space alone leaves no byte, at its end.
#[tactic(auto, using(crate::proofs::Library::placed_by, crate::proofs::Library::unplaced))]
pub fn trim_utf8(s: &[u8]) -> Option<Extent>
    ensures { result ≡ trimmed_of s.now }
{
    let text = text_in(s)?;
    let behind = text.trim_start();
    Some(Extent {
        start: text.len() - behind.len(),
        count: behind.trim_end().len(),
    })
}

// What the definitions mean, in a contract so that it cannot be left out: a trimmed text stands where it is said to.
#[tactic(auto, using(crate::proofs::Stands::means))]
pub fn trim_laws()
    ensures trims { (bs : List ℕ) → Means bs (trimmed_of bs) }
{}
