// Fetch a text: its UTF-8, straight from the header's bytes to the lent buffer, through no other array.
#![tactic(auto)]

ghost use Rattle.std.specs.Prelude.{◌≡◌, true};
ghost use Rattle.rules.specs.Rule.{finished, read};
ghost use Rattle.error.specs.Number.{number_of, stop_of};
ghost use Rattle.fetch.specs.Fetch.{fetch_rule, number_of_stop, Fetches, replaced_of, passed};

mod described;
mod stored;

use agilent::Kind;
pub use described::Described;
use error::{Refusal, Stopped};
pub use stored::Stored;
pub use utf16::Recoded;

// A header that may not go on is refused: told last, a field that is cut is 14, and no header is 'finished'.
pub fn refusal_of(z: Stopped) -> Refusal
    requires { ¬ (stop_of z ≡ finished) }
    ensures { number_of result ≡ number_of_stop (stop_of z) }
{
    match z {
        Stopped::Refused(r) => r,
        Stopped::Finished | Stopped::MoreBytes => Refusal::Incomplete,
    }
}

// A text by its number, from the bytes of a whole file.
// Kept: the kind and the text are numbers here, as the C interface hands them over, and a number that is none is refused here. (a)
pub fn fetch_text(kind: u8, number: u8, s: &[u8], out: &mut [u8]) -> Result<Recoded, Refusal>
    ensures text { Fetches result out.old out.new (read true (fetch_rule kind number) s.now) }
    ensures replaced { replaced_of result ≡ passed kind number out.old s.now }
{
    Kind::try_from(kind)?;
    if !(1..=8).contains(&number) {
        return Err(Refusal::UnknownText);
    }
    let header = Described::open(kind, s)?;
    header.text(usize::from(number) - 1).write(out)
}
