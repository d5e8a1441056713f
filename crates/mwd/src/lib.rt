// MWD: the record stream of a multiple wavelength detector.
#![tactic(auto)]

ghost use Rattle.std.specs.Prelude.{◌≡◌, ◌<◌, Ok};
ghost use Rattle.rules.specs.Rule.{got, read, read_at, map_read};
ghost use Rattle.floats.specs.Wholes.{doubles, flat};
ghost use Rattle.streams.specs.Next.{sum_of, item_of, stepped, rule_by, answer_of};
ghost use Rattle.mwd.specs.Mwd.{mwd_made, mwd_point, mwd_rule};

use common::{Endian, Number};
use error::{Stopped, lacking};
use streams::{ChemstationMwdState, Given, Input, Points, Record, State, delta_at};

// Bytes of a group's count of points.
const GROUP: usize = 2;

// The record of a value, and the state after it with the points that are then due.
fn mwd_given(st: ChemstationMwdState, points: Points, value: f64, n: usize) -> Given
    ensures { answer_of (Ok result) ≡ got (item_of (mwd_made st points) (flat doubles value)) n }
{
    let cur_time = st.cur_time + st.time_step;
    let record = Record::trace(cur_time, value, st.mult_correction, st.offset_correction);
    let state = ChemstationMwdState {
        n_wvs_left: points,
        cur_time,
        cur_intensity: value,
        ..st
    };
    Given {
        record,
        state: State::Mwd(state),
        bytes: n,
    }
}

// The point at a position, one of so many due.
// Kept: a function in each of MWD, DAD and UV (d): three lines, of which the last is the kind's own.
fn mwd_point(st: ChemstationMwdState, points: Points, input: Input<'_>) -> Result<Given, Stopped>
    requires { 0 < points.0 }
    ensures { answer_of result ≡ map_read (stepped (sum_of (State.Mwd st))) (read_at input.entry.last (mwd_point st points) input.entry.at input.entry.bytes.now) }
{
    let (d, n) = delta_at(Endian::Big, input)?;
    let value = d.applied_to(st.cur_intensity);
    Ok(mwd_given(st, Points(points.0 - 1), value, n))
}

// The next record of MWD.
#[tactic(auto, using(crate::proofs::MwdLaws::mwd_none, crate::proofs::MwdLaws::mwd_within, crate::proofs::MwdLaws::mwd_cut, crate::proofs::MwdLaws::mwd_ends, crate::proofs::MwdLaws::mwd_group))]
pub fn mwd_next(st: ChemstationMwdState, s: &[u8], last: bool) -> Result<Given, Stopped>
    ensures { answer_of result ≡ read last (rule_by (State.Mwd st) (mwd_rule st)) s.now }
{
    if s.is_empty() {
        return Err(lacking(last, true));
    }
    let points = st.n_wvs_left;
    if points.0 != 0 {
        let input = Input {
            bytes: s,
            at: 0,
            last,
        };
        return mwd_point(st, points, input);
    }
    if s.len() < GROUP {
        return Err(lacking(last, false));
    }
    // the top 4 bits are no part of the count
    let count = u16::be_at(s, 0) % 4096;
    if count == 0 {
        return Err(Stopped::Finished);
    }
    let input = Input {
        bytes: s,
        at: GROUP,
        last,
    };
    mwd_point(st, Points(usize::from(count)), input)
}
