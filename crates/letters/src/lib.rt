// What the number of replaced units says of a text. Nothing is computed here: the contract is the theorem, cited so that it cannot be left
// out, about the definitions that the contracts of the decoder, of Fetch and of all texts at once name.
#![tactic(auto)]

ghost use Rattle.texts.specs.Eight.{lent_texts};
ghost use Rattle.letters.specs.Letters.{Given, Tells, GivenAll, TellAll, ReplacedLetters};

use error::Refusal;
use fetch::Recoded;
use texts::FetchedTexts;

// A text's U+FFFD are those that stand in the header and one for each unit that was replaced; and each of them is counted.
pub fn replaced_letters()
    ensures { ReplacedLetters }
{}

// Fetch a text, with what its number says: so the theorem is of the very function.
pub fn fetch_told(kind: u8, number: u8, s: &[u8], out: &mut [u8]) -> Result<Recoded, Refusal>
    ensures given { Given kind number s.now result out.old out.new }
    ensures tells { Tells kind number s.now result out.new }
{
    fetch::fetch_text(kind, number, s, out)
}

// All texts at once, with what their numbers say.
// Kept: the bytes, the starts and the lengths are the parameters of `fetch_texts`, of which this is the theorem: C lends the three one by one
// (a), and a struct would be made here only to be taken apart in the one call (d).
pub fn texts_told(
    kind: u8,
    s: &[u8],
    out: &mut [u8],
    starts: &mut [usize; 8],
    lengths: &mut [usize; 8],
) -> Result<FetchedTexts, Refusal>
    ensures given { GivenAll kind s.now result (lent_texts out starts lengths) }
    ensures tells { TellAll kind s.now result }
{
    texts::fetch_texts(kind, s, out, starts, lengths)
}
