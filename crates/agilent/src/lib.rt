// Size the header (the Rust's agilent/mod.rs).
#![tactic(auto)]

ghost use Rattle.std.specs.Prelude.{◌≡◌, ◌<◌};
ghost use Rattle.rules.specs.Rule.{read};
ghost use Rattle.agilent.specs.Header.{kind_number, Decodes, size_of, size_rule, size_read};

use common::Number;
use error::{Refusal, Stopped, lacking};

// The kinds of run files, with document 01's numbers. A file does not say its own.
#[derive(Clone, Copy, Debug, PartialEq, Eq)]
pub enum Kind {
    Fid = 1,
    Ms = 2,
    Mwd = 3,
    Dad = 4,
    Uv = 5,
    Array = 6,
}

impl TryFrom<u8> for Kind {
    type Error = Refusal;

    ghost try_from_gives = { Decodes };

    fn try_from(number: u8) -> Result<Kind, Refusal> {
        match number {
            1 => Ok(Kind::Fid),
            2 => Ok(Kind::Ms),
            3 => Ok(Kind::Mwd),
            4 => Ok(Kind::Dad),
            5 => Ok(Kind::Uv),
            6 => Ok(Kind::Array),
            _ => Err(Refusal::UnknownKind),
        }
    }
}

// The smallest and the largest size of a header, in bytes.
const SMALLEST: usize = 512;

const LARGEST: usize = 20000;

// The size in bytes that the size word says.
fn header_size(kind: Kind, word: u32) -> usize
    requires { 0 < word }
    ensures { result ≡ size_of (kind_number kind) word }
{
    let size = 2 * (word as usize - 1);
    if kind == Kind::Ms { size } else { size * 256 }
}

// The size in bytes of the header of a file of a kind, all of which are there, or why there is none.
// Kept: the kind, the bytes and whether they are the last, side by side. No fact ties them, and a struct of the three would be made
// in each function above that hands them on, to be read here alone. (d)
#[tactic(auto, using(crate::proofs::HeaderLaws::is_known, crate::proofs::HeaderLaws::size_short, crate::proofs::HeaderLaws::size_word, crate::proofs::HeaderLaws::size_small, crate::proofs::HeaderLaws::size_large, crate::proofs::HeaderLaws::size_cut, crate::proofs::HeaderLaws::size_whole))]
pub fn read_agilent_header_of(kind: Kind, s: &[u8], last: bool) -> Result<usize, Stopped>
    ensures { size_read result ≡ read last (size_rule (kind_number kind)) s.now }
{
    if s.len() < 268 {
        return Err(lacking(last, false));
    }
    let word = u32::be_at(s, 264);
    if word == 0 {
        return Err(Refusal::SizeWordZero.into());
    }
    let size = header_size(kind, word);
    if size < SMALLEST {
        return Err(Refusal::HeaderTooSmall.into());
    }
    if LARGEST < size {
        return Err(Refusal::HeaderTooLarge.into());
    }
    if s.len() < size {
        Err(lacking(last, false))
    } else {
        Ok(size)
    }
}

// The same by the kind's number.
#[tactic(auto, using(std::proofs::lemmas::Result::err_from_is_err_and, crate::proofs::HeaderLaws::size_unknown))]
pub fn read_agilent_header(kind: u8, s: &[u8], last: bool) -> Result<usize, Stopped>
    ensures { size_read result ≡ read last (size_rule kind) s.now }
{
    read_agilent_header_of(Kind::try_from(kind)?, s, last)
}
