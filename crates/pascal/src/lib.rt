// Texts behind a length byte (the Rust's get_pascal and get_utf16_pascal): where they stand in a header.
#![tactic(auto)]

ghost use Rattle.std.specs.Prelude.{◌≡◌, ◌+◌, ◌≤◌, ◌<◌, length};
ghost use Rattle.pascal.specs.Texts.{reach, place_at, pascal, utf16_pascal, text_rule, place_of, place_rule};

use error::Refusal;
use trim::{Extent, trim_utf8};

// The field of a text.
// Kept: `Absent` as a fourth case. The rule of a text has four, and so has the match on this; with an `Option` both would still have
// four, and the tables of the editions would hold `Some` of each field that is there. (d)
#[derive(Clone, Copy, Debug, PartialEq, Eq)]
pub enum TextField {
    // the edition has no such text
    Absent,
    // a length byte at start and UTF-8 behind it, in so many bytes with the length byte
    Pascal { start: usize, width: usize },
    // the same, up to the header's end
    PascalToEnd { start: usize },
    // a length byte that counts units of UTF-16 behind it
    Utf16 { start: usize },
}

// An empty text stands at 0.
fn place_at(start: usize, count: usize) -> Extent
    ensures { place_of result ≡ place_at start count }
{
    let start = if count == 0 { 0 } else { start };
    Extent { start, count }
}

fn get_utf16_pascal(h: &[u8], start: usize) -> Extent
    requires { start + 511 ≤ length h.now }
    ensures { place_of result ≡ utf16_pascal start h.now }
{
    place_at(start + 1, 2 * usize::from(h[start]))
}

#[tactic(auto, using(std::proofs::lemmas::Result::err_from_is_err_and, crate::proofs::TextLaws::pascal_long, crate::proofs::TextLaws::pascal_trims))]
fn get_pascal(h: &[u8], start: usize, width: usize) -> Result<Extent, Refusal>
    requires { (start < length h.now) × (start + width ≤ length h.now) }
    ensures { place_rule result ≡ pascal start width h.now }
{
    let n = usize::from(h[start]);
    if width <= n {
        return Err(Refusal::TextTooLong);
    }
    let from = start + 1;
    let to = from + n;
    let text = trim_utf8(&h[from..to]).ok_or(Refusal::NotUtf8)?;
    Ok(place_at(from + text.start, text.count))
}

// Where the text of a field stands, or why the header is refused.
#[tactic(auto, unfolding(crate::specs::Texts::text_rule))]
pub fn text_place(h: &[u8], f: TextField) -> Result<Extent, Refusal>
    requires { reach f ≤ length h.now }
    ensures { place_rule result ≡ text_rule f h.now }
{
    match f {
        TextField::Absent => Ok(place_at(0, 0)),
        TextField::Pascal { start, width } => get_pascal(h, start, width),
        TextField::PascalToEnd { start } => get_pascal(h, start, h.len() - start),
        TextField::Utf16 { start } => Ok(get_utf16_pascal(h, start)),
    }
}
