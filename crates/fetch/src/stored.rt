// A text as it stands in a header.

ghost use Rattle.std.specs.Prelude.{◌≡◌, ℕ, ◌++◌, ◌≤◌, length, drop};
ghost use Rattle.rules.specs.Rule.{got};
ghost use Rattle.written.specs.Written.{written};
ghost use Rattle.fetch.specs.Fetch.{Fetches, outcome_of, replaced_of, passed_on};
ghost use Rattle.fetch.specs.Headers.{utf8_in, unpaired_in};

use error::Refusal;
use utf16::{Recoded, decode_utf16, measured, recode};
use written::{copy_text, put};

#[derive(Clone, Copy, Debug, PartialEq, Eq)]
pub enum Stored<'a> {
    // of an edition up to 102: trimmed
    Utf8(&'a [u8]),
    Utf16(&'a [u8]),
}

impl<'a> Stored<'a> {
    // Its length as UTF-8 in bytes, if there is room for it.
    pub fn measured(&self, room: usize) -> Option<usize>
        ensures { result ≡ written room (utf8_in self.now) }
    {
        match self {
            Stored::Utf8(bytes) => {
                let n = bytes.len();
                (n <= room).then_some(n)
            }
            Stored::Utf16(bytes) => measured(bytes, room),
        }
    }

    // Puts it as UTF-8 at the start of out, and answers its length and how many of its units were replaced.
    pub fn put(&self, out: &mut [u8]) -> Recoded
        requires { length (utf8_in self.now) ≤ length out.old }
        ensures count { result.bytes ≡ length (utf8_in self.now) }
        ensures bytes { out.new ≡ utf8_in self.now ++ drop result.bytes out.old }
        ensures replaced { result.replaced ≡ unpaired_in self.now }
    {
        match self {
            Stored::Utf8(bytes) => {
                let n = bytes.len();
                put(bytes, out);
                Recoded {
                    bytes: n,
                    replaced: 0,
                }
            }
            Stored::Utf16(bytes) => recode(bytes, out),
        }
    }

    // Writes it as UTF-8 to the start of out, if there is room for it.
    // Kept: a match of its own. Over `measured` and `put` it proves, but then each text of a new edition is measured, also where there is room
    // for twice its bytes: the eight of a run of edition 179 cost 11,675 instructions in place of 8,244 (tools/bench-fetch, one by one). (b)
    pub fn write(&self, out: &mut [u8]) -> Result<Recoded, Refusal>
        ensures text { (n : ℕ) → Fetches result out.old out.new (got (utf8_in self.now) n) }
        ensures replaced { replaced_of result ≡ passed_on (outcome_of result) (unpaired_in self.now) }
    {
        match self {
            Stored::Utf8(bytes) => {
                let bytes = copy_text(bytes, out).ok_or(Refusal::LentLength)?;
                Ok(Recoded { bytes, replaced: 0 })
            }
            Stored::Utf16(bytes) => decode_utf16(bytes, out).ok_or(Refusal::LentLength),
        }
    }
}
