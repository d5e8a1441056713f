// Open by a reading: the plain one, or the atlas reading of DAD and UV.
#![tactic(auto)]

ghost use Rattle.std.specs.Prelude.{◌≡◌};
ghost use Rattle.agilent.specs.Header.{kind_number};
ghost use Rattle.modes.specs.Modes.{has_atlas, OpensBy};

use agilent::Kind;
use error::{Refusal, Stopped};
use opening::{OpenedRun, open_run, open_run_of};
use streams::Mode;

// Whether a kind has an atlas reading.
fn has_atlas(kind: Kind) -> bool
    ensures { result ≡ has_atlas (kind_number kind) }
{
    matches!(kind, Kind::Dad | Kind::Uv)
}

// Opens a run under the atlas reading. No byte is looked at of a kind that is none, or that has no such reading.
pub fn open_atlas(kind: u8, s: &[u8], last: bool) -> Result<OpenedRun, Stopped>
    ensures { OpensBy Mode.Atlas kind last s.now result }
{
    // Kept: (d) no `?`: the number of a kind that is none stands here beside 18, which comes behind it.
    let Ok(kind) = Kind::try_from(kind) else {
        return Err(Refusal::UnknownKind.into());
    };
    if !has_atlas(kind) {
        return Err(Refusal::KindWithoutAtlas.into());
    }
    let run = open_run_of(kind, s, last)?;
    let state = run.state.in_atlas();
    Ok(OpenedRun { state, ..run })
}

// Opens a run by a reading.
// Kept: (d) a match on the reading: an enum of two cases, each with a function of its own.
pub fn open_by(mode: Mode, kind: u8, s: &[u8], last: bool) -> Result<OpenedRun, Stopped>
    ensures { OpensBy mode kind last s.now result }
{
    match mode {
        Mode::Plain => open_run(kind, s, last),
        Mode::Atlas => open_atlas(kind, s, last),
    }
}
