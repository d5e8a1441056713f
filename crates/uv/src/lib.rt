// UV: the record stream of an ultraviolet detector.
#![tactic(auto)]

ghost use Rattle.std.specs.Prelude.{◌≡◌, [], ◌≤◌, ◌<◌, Ok};
ghost use Rattle.rules.specs.Rule.{got, read, read_at, map_read};
ghost use Rattle.floats.specs.Wholes.{doubles, flat};
ghost use Rattle.streams.specs.Next.{sum_of, item_of, stepped, rule_by, answer_of};
ghost use Rattle.uv.specs.Uv.{uv_made, uv_point, uv_begun, uv_scan, uv_left, uv_rule};

use common::{Endian, Number};
use error::{Refusal, Stopped, lacking};
use floats::minutes_of;
use streams::{ChemstationUvState, Given, Input, Points, Record, Scans, State, delta_at};

// Bytes of a scan's head: 4 that are passed over, time, start and end; then its step; then 8 more that are passed over.
const RANGE: usize = 4 + 4 + 2 + 2;

const STEP: usize = RANGE + 2;

const HEAD: usize = STEP + 8;

// The record of a value, and the state after it with the scans that are then due.
// Kept: the minutes and the leftover of the stored time by two expressions (d), as at dad_given.
fn uv_given(st: ChemstationUvState, scans: Scans, value: f64, n: usize) -> Given
    requires { 0 < st.n_wvs_left.0 }
    ensures { answer_of (Ok result) ≡ got (item_of (uv_made st scans) (flat doubles value)) n }
{
    let cur_wv = st.cur_wv + st.wv_step;
    let record = Record::Spectrum {
        time: st.cur_time,
        wavelength: cur_wv,
        unscaled: value,
        scaled: value * st.mult_correction,
        minutes: st.stored_time / 60000,
        leftover: st.stored_time % 60000,
    };
    let state = ChemstationUvState {
        n_scans_left: scans,
        n_wvs_left: Points(st.n_wvs_left.0 - 1),
        cur_intensity: value,
        cur_wv,
        ..st
    };
    Given {
        record,
        state: State::Uv(state),
        bytes: n,
    }
}

// The point at a position, with the scans that are due after it.
// Kept: beside mwd_point and dad_point, which are alike (d): two or three lines each, of which the last is the kind's own.
fn uv_point(st: ChemstationUvState, scans: Scans, input: Input<'_>) -> Result<Given, Stopped>
    requires { 0 < st.n_wvs_left.0 }
    ensures { answer_of result ≡ map_read (stepped (sum_of (State.Uv st))) (read_at input.entry.last (uv_point st scans []) input.entry.at input.entry.bytes.now) }
{
    let (d, n) = delta_at(Endian::Little, input)?;
    let value = d.applied_to(st.cur_intensity);
    Ok(uv_given(st, scans, value, n))
}

// A new scan, before its first point: a step behind it, with value 0.
// Kept: time, start, end and step as four (d): uv_scan tests start and end before the step is due, and they go together through this
// call alone, so that a struct of them would be made and taken apart in two neighbouring lines.
#[tactic(auto, using(crate::proofs::UvLaws::zero_is, crate::proofs::UvLaws::twenty_is))]
fn uv_begun(
    st: ChemstationUvState,
    time: u32,
    start: u16,
    end: u16,
    step: u16,
) -> ChemstationUvState
    requires start_le_end { start ≤ end }
    requires step_nonzero { 0 < step }
    ensures { result ≡ uv_begun st time start end step }
{
    let points = (end - start) / step;
    let wv_step = f64::from(step) / 20.0;
    let cur_wv = f64::from(start) / 20.0 - wv_step;
    ChemstationUvState {
        n_wvs_left: Points(usize::from(points) + 1),
        cur_time: minutes_of(f64::from(time)),
        cur_intensity: 0.0,
        cur_wv,
        wv_step,
        stored_time: time,
        ..st
    }
}

// A scan's head and its first point.
#[tactic(auto, using(crate::proofs::UvLaws::uv_range_cut, crate::proofs::UvLaws::uv_above, crate::proofs::UvLaws::uv_step_cut, crate::proofs::UvLaws::uv_step_zero, crate::proofs::UvLaws::uv_skip_cut, crate::proofs::UvLaws::uv_first))]
fn uv_scan(st: ChemstationUvState, s: &[u8], last: bool) -> Result<Given, Stopped>
    ensures { answer_of result ≡ map_read (stepped (sum_of (State.Uv st))) (read_at last (uv_scan st) 0 s.now) }
{
    if s.len() < RANGE {
        return Err(lacking(last, false));
    }
    let time = u32::le_at(s, 4);
    let start = u16::le_at(s, 8);
    let end = u16::le_at(s, 10);
    if start > end {
        return Err(Refusal::UvStartAboveEnd.into());
    }
    if s.len() < STEP {
        return Err(lacking(last, false));
    }
    let step = u16::le_at(s, 12);
    if step == 0 {
        return Err(Refusal::UvStepZero.into());
    }
    if s.len() < HEAD {
        return Err(lacking(last, false));
    }
    let begun = uv_begun(st, time, start, end, step);
    let input = Input {
        bytes: s,
        at: HEAD,
        last,
    };
    uv_point(begun, st.n_scans_left, input)
}

// The scans due after a later point of a scan: one whose first point is its last is never debited.
// Kept: `0 < scans` as a requires (d), as at dad_scan.
fn scans_left(st: ChemstationUvState) -> Scans
    requires { 0 < st.n_scans_left.0 }
    ensures { result ≡ uv_left st }
{
    let scans = st.n_scans_left;
    if st.n_wvs_left.0 == 1 {
        Scans(scans.0 - 1)
    } else {
        scans
    }
}

// The next record of UV.
#[tactic(auto, using(crate::proofs::UvLaws::uv_ends, crate::proofs::UvLaws::uv_new, crate::proofs::UvLaws::uv_within))]
pub fn uv_next(st: ChemstationUvState, s: &[u8], last: bool) -> Result<Given, Stopped>
    ensures { answer_of result ≡ read last (rule_by (State.Uv st) (uv_rule st)) s.now }
{
    if st.n_scans_left.0 == 0 {
        return Err(Stopped::Finished);
    }
    if st.n_wvs_left.0 == 0 {
        return uv_scan(st, s, last);
    }
    let input = Input {
        bytes: s,
        at: 0,
        last,
    };
    uv_point(st, scans_left(st), input)
}
