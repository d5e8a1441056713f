// DAD: the record stream of a diode array detector.
#![tactic(auto)]

ghost use Rattle.std.specs.Prelude.{◌≡◌, ◌∷◌, [], ◌<◌, Ok};
ghost use Rattle.rules.specs.Rule.{got, read, read_at, map_read};
ghost use Rattle.streams.specs.Told.{told, change_of};
ghost use Rattle.streams.specs.Next.{sum_of, stepped, rule_by, answer_of};
ghost use Rattle.dad.specs.Dad.{width_of, dad_made, dad_point, dad_scan, dad_rule};

use common::{Endian, Number};
use error::{Stopped, lacking};
use floats::minutes_of;
use streams::{Bytes, ChemstationDadState, Delta, Given, Input, Record, Scans, State, delta_at};

// Bytes of a scan's type, and of its head: type, length, time, start, end, step, and 8 that are passed over.
const TYPE: usize = 2;

const HEAD: usize = TYPE + 2 + 4 + 2 + 2 + 2 + 8;

// How many bytes a delta took.
// Kept: a function here rather than a method of Delta (d): the method would stand in `streams`, where `delta_at` knows the width in each
// of its arms and so would not call it; DAD alone counts the bytes of a delta that was read.
fn delta_width(d: Delta) -> usize
    ensures { result ≡ width_of d }
{
    match d {
        Delta::By(_) => 2,
        Delta::Absolute(_) => 6,
    }
}

// The record of a delta, and the state after it: the value and the bytes due are still those before.
// Kept: the minutes and the leftover of the stored time by two expressions, in ms, dad and uv (d): a helper would answer a pair, one line
// for two, of which the reader had to look up which is which; a type of its own with two methods would be as long at each of the three.
#[tactic(auto, using(crate::proofs::DadLaws::twenty_is, crate::proofs::DadLaws::two_thousand_is))]
fn dad_given(st: ChemstationDadState, d: Delta, n: usize) -> Given
    ensures { answer_of (Ok result) ≡ got (stepped (sum_of (State.Dad st)) (told (dad_made st d) (change_of d ∷ []))) n }
{
    let value = d.applied_to(st.cur_intensity);
    let bytes = st.n_bytes_left.0.saturating_sub(delta_width(d));
    let record = Record::Spectrum {
        time: minutes_of(st.cur_time),
        wavelength: st.cur_wv / 20.0,
        unscaled: value,
        scaled: value / 2000.0,
        minutes: st.stored_time / 60000,
        leftover: st.stored_time % 60000,
    };
    let state = ChemstationDadState {
        n_bytes_left: Bytes(bytes),
        cur_intensity: value,
        ..st
    };
    Given {
        record,
        state: State::Dad(state),
        bytes: n,
    }
}

// The point at a position.
// Kept: beside mwd_point and uv_point, which are alike (d): two or three lines each, of which the last is the kind's own.
fn dad_point(st: ChemstationDadState, input: Input<'_>) -> Result<Given, Stopped>
    ensures { answer_of result ≡ map_read (stepped (sum_of (State.Dad st))) (read_at input.entry.last (dad_point st []) input.entry.at input.entry.bytes.now) }
{
    let (d, n) = delta_at(Endian::Little, input)?;
    Ok(dad_given(st, d, n))
}

// The head of a scan and its first point.
// Kept: `0 < scans` as a requires (d): dad_next has just told 0 apart, and of a count without 0 this function would at once take 1 again.
#[tactic(auto, using(crate::proofs::DadLaws::dad_type_cut, crate::proofs::DadLaws::dad_other, crate::proofs::DadLaws::dad_head_cut, crate::proofs::DadLaws::dad_none, crate::proofs::DadLaws::dad_first, crate::proofs::DadLaws::zero_is))]
fn dad_scan(st: ChemstationDadState, s: &[u8], last: bool) -> Result<Given, Stopped>
    requires { 0 < st.n_scans_left.0 }
    ensures { answer_of result ≡ map_read (stepped (sum_of (State.Dad st))) (read_at last (dad_scan st.n_scans_left) 0 s.now) }
{
    if s.len() < TYPE {
        return Err(lacking(last, false));
    }
    if u16::le_at(s, 0) != 67 {
        return Err(Stopped::Finished);
    }
    if s.len() < HEAD {
        return Err(lacking(last, false));
    }
    let bytes = usize::from(u16::le_at(s, 2)).saturating_sub(HEAD);
    if bytes == 0 {
        return Err(Stopped::Finished);
    }
    let stored_time = u32::le_at(s, 4);
    let state = ChemstationDadState {
        n_scans_left: Scans(st.n_scans_left.0 - 1),
        n_bytes_left: Bytes(bytes),
        cur_time: f64::from(stored_time),
        cur_intensity: 0.0,
        cur_wv: f64::from(u16::le_at(s, 8)),
        wv_step: f64::from(u16::le_at(s, 12)),
        stored_time,
    };
    let input = Input {
        bytes: s,
        at: HEAD,
        last,
    };
    dad_point(state, input)
}

// The next record of DAD.
#[tactic(auto, using(crate::proofs::DadLaws::dad_ends, crate::proofs::DadLaws::dad_new, crate::proofs::DadLaws::dad_within))]
pub fn dad_next(st: ChemstationDadState, s: &[u8], last: bool) -> Result<Given, Stopped>
    ensures { answer_of result ≡ read last (rule_by (State.Dad st) (dad_rule st)) s.now }
{
    if st.n_scans_left.0 == 0 {
        return Err(Stopped::Finished);
    }
    if st.n_bytes_left.0 == 0 {
        return dad_scan(st, s, last);
    }
    let state = ChemstationDadState {
        cur_wv: st.cur_wv + st.wv_step,
        ..st
    };
    let input = Input {
        bytes: s,
        at: 0,
        last,
    };
    dad_point(state, input)
}
