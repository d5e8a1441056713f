// MS: the record stream of a mass spectrometer.
#![tactic(auto)]

ghost use Rattle.std.specs.Prelude.{◌≡◌, ◌-◌, ◌≤◌, ◌<◌, ◌+◌, ◌*◌, ◌/◌, ◌%◌, ◌^◌, Float, length, Ok};
ghost use Rattle.rules.specs.Rule.{got, read, read_at, map_read};
ghost use Rattle.common.specs.Bytes.{be, part};
ghost use Rattle.floats.specs.Doubles.{double};
ghost use Rattle.floats.specs.Wholes.{Sum, doubles, flat};
ghost use Rattle.streams.specs.Next.{item_of, stepped, rule_by, answer_of};
ghost use Rattle.ms.specs.Ms.{ms_made, ms_point, ms_scans, ms_rule};

use common::Number;
use error::{Refusal, Stopped, lacking};
use floats::minutes_of;
use streams::{ChemstationMsState, Given, Input, Points, Record, Scans, State};

// Bytes of a scan's count, and of its head: count, time, and 12 that are passed over.
const COUNT: usize = 2;

const HEAD: usize = COUNT + 4 + 12;

// Bytes of a point (m/z and intensity), and of a scan's last point with the footer behind it.
const POINT: usize = 2 + 2;

const LAST_POINT: usize = POINT + 10;

// Bytes of a scan without points: head and footer.
const EMPTY_SCAN: usize = HEAD + 10;

// The lower fourteen bits, times 8 to the power of the upper two.
#[tactic(auto, using(crate::proofs::MsLaws::shifted))]
fn ms_intensity(raw: u16) -> f64
    ensures { result ≡ double (raw % 16384 * 8 ^ (raw / 16384)) }
{
    let base = u32::from(raw) % 16384;
    let exponent = u32::from(raw) / 16384;
    f64::from(base << (3 * exponent))
}

// The record of a point of a scan, and the state after it: the counts are already those that are then due.
#[tactic(auto, using(crate::proofs::MsLaws::twenty_is))]
fn ms_given(st: ChemstationMsState, mz: u16, value: f64, n: usize) -> Given
    ensures { answer_of (Ok result) ≡ got (item_of (ms_made st.n_scans_left st.n_mzs_left st.cur_time st.stored_time mz) (flat doubles value)) n }
{
    let record = Record::Mass {
        time: st.cur_time,
        mz: f64::from(mz) / 20.0,
        unscaled: value,
        scaled: value,
        // Kept: (d) two fields in place of a helper: it would answer a pair, and `let (minutes, leftover) = ..` would say no more and hide
        // which of the two is which.
        minutes: st.stored_time / 60000,
        leftover: st.stored_time % 60000,
    };
    let state = ChemstationMsState {
        cur_intensity: value,
        ..st
    };
    Given {
        record,
        state: State::Ms(state),
        bytes: n,
    }
}

// A point, and the footer if it is its scan's last. The value before it makes no difference.
// Kept: (d) the two counts above 0 in the `requires` of two functions: a type for them would be taken apart wherever they are counted down,
// and the state counts down to 0.
#[tactic(auto, using(crate::proofs::MsLaws::point_cut, crate::proofs::MsLaws::point_inner, crate::proofs::MsLaws::point_last, crate::proofs::MsLaws::footer_cut))]
fn ms_point(st: ChemstationMsState, input: Input<'_>) -> Result<Given, Stopped>
    requires { (0 < st.n_scans_left.0) × (0 < st.n_mzs_left.0) }
    ensures { (v : Sum Float) → answer_of result ≡ map_read (stepped v) (read_at input.entry.last (ms_point st.n_scans_left st.n_mzs_left st.cur_time st.stored_time) input.entry.at input.entry.bytes.now) }
{
    if input.bytes.len() - input.at < POINT {
        return Err(lacking(input.last, false));
    }
    let mz = u16::be_at(input.bytes, input.at);
    let value = ms_intensity(u16::be_at(input.bytes, input.at + 2));
    if st.n_mzs_left.0 != 1 {
        let within = ChemstationMsState {
            n_mzs_left: Points(st.n_mzs_left.0 - 1),
            ..st
        };
        return Ok(ms_given(within, mz, value, input.at + POINT));
    }
    if input.bytes.len() - input.at < LAST_POINT {
        return Err(lacking(input.last, false));
    }
    let behind = ChemstationMsState {
        n_scans_left: Scans(st.n_scans_left.0 - 1),
        n_mzs_left: Points(0),
        ..st
    };
    Ok(ms_given(behind, mz, value, input.at + LAST_POINT))
}

// A scan whose count, already read, makes so many points.
#[tactic(auto, using(crate::proofs::MsLaws::filled_cut, crate::proofs::MsLaws::filled_point))]
fn ms_scan(scans: Scans, points: Points, input: Input<'_>) -> Result<Given, Stopped>
    requires { (input.at + 2 ≤ length input.bytes.now) × (0 < scans.0) × (0 < points.0) × (points.0 ≡ (be (part input.at 2 input.bytes.now) - 14) / 2) }
    ensures { (v : Sum Float) → answer_of result ≡ map_read (stepped v) (read_at input.entry.last (ms_scans scans.0) input.entry.at input.entry.bytes.now) }
{
    if input.bytes.len() - input.at < HEAD {
        return Err(lacking(input.last, false));
    }
    let stored_time = u32::be_at(input.bytes, input.at + COUNT);
    let st = ChemstationMsState {
        stored_time,
        n_scans_left: scans,
        n_mzs_left: points,
        cur_time: minutes_of(f64::from(stored_time)),
        cur_intensity: 0.0,
    };
    let behind = Input {
        bytes: input.bytes,
        at: input.at + HEAD,
        last: input.last,
    };
    ms_point(st, behind)
}

// The first point of the next scan that has any: the empty ones are passed over.
#[tactic(auto, using(crate::proofs::MsLaws::none_due, crate::proofs::MsLaws::count_cut, crate::proofs::MsLaws::count_refused, crate::proofs::MsLaws::empty_cut, crate::proofs::MsLaws::empty_passed))]
fn ms_scans(due: Scans, s: &[u8], last: bool) -> Result<Given, Stopped>
    ensures { (v : Sum Float) → answer_of result ≡ map_read (stepped v) (read_at last (ms_scans due.0) 0 s.now) }
{
    for passed in 0..due.0 {
        let at = passed * EMPTY_SCAN;
        if s.len() - at < COUNT {
            return Err(lacking(last, false));
        }
        let count = u16::be_at(s, at);
        if count < 14 {
            return Err(Refusal::MsCountTooSmall.into());
        }
        let points = usize::from(count - 14) / 2;
        if points != 0 {
            let input = Input { bytes: s, at, last };
            return ms_scan(Scans(due.0 - passed), Points(points), input);
        }
        if s.len() - at < EMPTY_SCAN {
            return Err(lacking(last, false));
        }
    }
    Err(Stopped::Finished)
}

// The next record of MS.
#[tactic(auto, using(crate::proofs::MsLaws::none_left, crate::proofs::MsLaws::next_scan, crate::proofs::MsLaws::next_point))]
pub fn ms_next(st: ChemstationMsState, s: &[u8], last: bool) -> Result<Given, Stopped>
    ensures { answer_of result ≡ read last (rule_by (State.Ms st) (ms_rule st)) s.now }
{
    if st.n_scans_left.0 == 0 {
        return Err(Stopped::Finished);
    }
    if st.n_mzs_left.0 == 0 {
        return ms_scans(st.n_scans_left, s, last);
    }
    let input = Input {
        bytes: s,
        at: 0,
        last,
    };
    ms_point(st, input)
}
