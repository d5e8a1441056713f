// A header that was opened: its bytes beside what they say. Who is given one knows that they do.

ghost use Rattle.std.specs.Prelude.{◌≡◌, ℕ, ◌<◌, get_or};
ghost use Rattle.rules.specs.Rule.{gives};
ghost use Rattle.metadata.specs.Metadata.{metadata_rule};

use crate::refusal_of;
use crate::stored::Stored;
use error::Refusal;
use metadata::{ChemstationMetadata, open_header};

#[derive(Clone, Copy, Debug, PartialEq)]
pub struct Described<'a> {
    pub bytes: &'a [u8],
    pub says: ChemstationMetadata,
    pub ghost small: { (i : ℕ) → get_or bytes.now i 0 < 256 },
    pub ghost described: { ∥ metadata_rule bytes.now ≡ gives says ∥₁ },
}

impl<'a> Described<'a> {
    ghost use Rattle.std.specs.Prelude.{true, leb, IfOk, IfErr};
    ghost use Rattle.rules.specs.Rule.{read};
    ghost use Rattle.common.specs.Bytes.{part};
    ghost use Rattle.metadata.specs.Metadata.{open_rule};
    ghost use Rattle.fetch.specs.Headers.{IsHeader, IsRefusal, text_in, replaced_units, raw, is_utf16, utf8_in, unpaired_in};

    // Opens a file by all its bytes.
    #[tactic(auto, using(metadata::proofs::HeaderReads::never_finished))]
    pub fn open(kind: u8, s: &'a [u8]) -> Result<Described<'a>, Refusal>
        ensures opened { IfOk result (λ d. IsHeader d (read true (open_rule kind) s.now)) }
        ensures refused { IfErr result (λ r. IsRefusal r (read true (open_rule kind) s.now)) }
    {
        let opened = open_header(kind, s, true).map_err(refusal_of)?;
        Ok(Described {
            bytes: &s[..opened.metadata.size],
            says: opened.metadata,
        })
    }

    // A text as it stands there, by its number less one. An edition that lacks it has an empty one.
    #[tactic(auto, using(crate::proofs::Texts::text_inside, crate::proofs::Texts::bytes_there, crate::proofs::Texts::new_text, crate::proofs::Texts::new_units, crate::proofs::Texts::old_text, crate::proofs::Texts::old_units))]
    pub fn text(&self, k: usize) -> Stored<'a>
        requires { k < 8 }
        ensures text { utf8_in result ≡ text_in k self.now }
        ensures replaced { unpaired_in result ≡ replaced_units k self.now }
        ensures there { raw result ≡ part (get_or self.now.says.text_starts k 0) (get_or self.now.says.text_lengths k 0) self.now.bytes.now }
        ensures encoding { is_utf16 result ≡ leb 103 self.now.says.edition }
    {
        let rest = &self.bytes[self.says.text_starts[k]..];
        let bytes = &rest[..self.says.text_lengths[k]];
        // Kept: the edition as a number, since the description keeps it as the number that the C interface hands out. (a)
        if 102 < self.says.edition {
            Stored::Utf16(bytes)
        } else {
            Stored::Utf8(bytes)
        }
    }
}
