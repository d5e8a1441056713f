// FID: the record stream of a flame ionization detector.
#![tactic(auto)]

ghost use Rattle.std.specs.Prelude.{◌≡◌, ◌∷◌, [], Ok};
ghost use Rattle.rules.specs.Rule.{got, read};
ghost use Rattle.streams.specs.Changes.{slopes, restarts};
ghost use Rattle.streams.specs.Told.{told};
ghost use Rattle.streams.specs.Next.{sum_of, item_of, stepped, rule_by, answer_of};
ghost use Rattle.fid.specs.Fid.{fid_made, fid_rule};

use common::Number;
use error::{Stopped, lacking};
use streams::{ChemstationFidState, Given, Record, State};

// Bytes of a delta, and of a restart: its mark, high and low.
const DELTA: usize = 2;

const RESTART: usize = 8;

// The record of a value, and the state after it.
fn fid_given(st: ChemstationFidState, slope: f64, value: f64, n: usize) -> Given
    ensures { answer_of (Ok result) ≡ got (item_of (fid_made st) (record { slope = slope; value = value })) n }
{
    let cur_time = st.cur_time + st.time_step;
    let record = Record::trace(cur_time, value, st.mult_correction, st.offset_correction);
    let state = ChemstationFidState {
        cur_time,
        cur_delta: slope,
        cur_intensity: value,
        ..st
    };
    Given {
        record,
        state: State::Fid(state),
        bytes: n,
    }
}

// A restart: high × 65534 + low, slope 0.
#[tactic(auto, using(crate::proofs::FidLaws::zero_is, crate::proofs::FidLaws::factor_is, crate::proofs::FidLaws::passed_on))]
fn fid_restart(st: ChemstationFidState, high: i32, low: u16) -> Given
    ensures { answer_of (Ok result) ≡ got (stepped (sum_of (State.Fid st)) (told (fid_made st) (restarts high low ∷ []))) 8 }
{
    let intensity = f64::from(high) * 65534.0 + f64::from(low);
    fid_given(st, 0.0, intensity, RESTART)
}

// A delta: slope += v, value += slope.
fn fid_slope(st: ChemstationFidState, v: i16) -> Given
    ensures { answer_of (Ok result) ≡ got (stepped (sum_of (State.Fid st)) (told (fid_made st) (slopes v ∷ []))) 2 }
{
    let delta = st.cur_delta + f64::from(v);
    let intensity = st.cur_intensity + delta;
    fid_given(st, delta, intensity, DELTA)
}

// The next record of FID.
#[tactic(auto, using(crate::proofs::FidLaws::fid_none, crate::proofs::FidLaws::fid_cut, crate::proofs::FidLaws::fid_restart_cut, crate::proofs::FidLaws::fid_restarts, crate::proofs::FidLaws::fid_slopes, crate::proofs::FidLaws::passed_on))]
pub fn fid_next(st: ChemstationFidState, s: &[u8], last: bool) -> Result<Given, Stopped>
    ensures { answer_of result ≡ read last (rule_by (State.Fid st) (fid_rule st)) s.now }
{
    if s.is_empty() {
        return Err(lacking(last, true));
    }
    if s.len() < DELTA {
        return Err(lacking(last, false));
    }
    let v = i16::be_at(s, 0);
    if v != 32767 {
        return Ok(fid_slope(st, v));
    }
    if s.len() < RESTART {
        return Err(lacking(last, false));
    }
    Ok(fid_restart(st, i32::be_at(s, 2), u16::be_at(s, 6)))
}
