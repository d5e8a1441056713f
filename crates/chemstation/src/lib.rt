// Next record over all kinds and readings.
#![tactic(auto)]

ghost use Rattle.std.specs.Prelude.{◌≡◌};
ghost use Rattle.rules.specs.Rule.{read};
ghost use Rattle.streams.specs.Next.{rule_by, answer_of};
ghost use Rattle.chemstation.specs.Next.{spectrum_fields, rule};

use array::array_next;
use atlas::{atlas_by, debit_of, plain_of};
use dad::dad_next;
use error::Stopped;
use fid::fid_next;
use ms::ms_next;
use mwd::mwd_next;
use streams::{Given, State};
use uv::uv_next;

// The next record of DAD and UV, by the reading that the state is of; other kinds have none here.
// Kept: a second match on the kind (b): with one match, in next_record, dad_next and uv_next are called at two places each, and a record of
// the log took 332 instructions for 230 (DAD), 240 for 191 (FID).
#[tactic(auto, using(crate::proofs::Spectrum::others_end))]
fn spectrum_next(st: State, s: &[u8], last: bool) -> Result<Given, Stopped>
    ensures { answer_of result ≡ read last (rule_by st (spectrum_fields st)) s.now }
{
    let debit = debit_of(st);
    match plain_of(st) {
        State::Dad(d) => atlas_by(debit, dad_next(d, s, last)),
        State::Uv(u) => atlas_by(debit, uv_next(u, s, last)),
        _ => Err(Stopped::Finished),
    }
}

// The next record of any kind, by the reading that the state is of. A refusal, 'finished' and 'more bytes' consume nothing and leave the
// state as it was.
// Kept: a match on the kind, and a function of each, rather than a trait of the states (d): an impl stands in the crate of its trait or of
// its type, and both would be `streams`, below the kinds.
#[tactic(auto, using(crate::proofs::Spectrum::of_spectra))]
pub fn next_record(st: State, s: &[u8], last: bool) -> Result<Given, Stopped>
    ensures { answer_of result ≡ read last (rule st) s.now }
{
    match st {
        State::Fid(f) => fid_next(f, s, last),
        State::Ms(m) => ms_next(m, s, last),
        State::Mwd(m) => mwd_next(m, s, last),
        State::Array(a) => array_next(a, s, last),
        _ => spectrum_next(st, s, last),
    }
}
