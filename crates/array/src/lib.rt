// Array: a stream of stored doubles or floats.
#![tactic(auto)]

ghost use Rattle.std.specs.Prelude.{◌≡◌, [], ◌<◌, Ok};
ghost use Rattle.rules.specs.Rule.{got, read};
ghost use Rattle.streams.specs.Told.{told};
ghost use Rattle.streams.specs.Next.{sum_of, stepped, rule_by, answer_of};
ghost use Rattle.array.specs.Array.{array_made, array_rule};

use common::Number;
use error::{Stopped, lacking};
use floats::FromPattern;
use streams::{ChemstationArrayRecordType, ChemstationArrayState, Given, Record, Scans, State};

// The record of a stored number, one scan fewer and a time step later.
fn array_given(st: ChemstationArrayState, x: f64, n: usize) -> Given
    requires { 0 < st.n_scans_left.0 }
    ensures { answer_of (Ok result) ≡ got (stepped (sum_of (State.Array st)) (told (array_made st x) [])) n }
{
    let cur_time = st.cur_time + st.time_step;
    let record = Record::Trace {
        time: cur_time,
        unscaled: x,
        scaled: x * st.mult_correction,
    };
    let state = ChemstationArrayState {
        n_scans_left: Scans(st.n_scans_left.0 - 1),
        cur_time,
        cur_intensity: x,
        ..st
    };
    Given {
        record,
        state: State::Array(state),
        bytes: n,
    }
}

// The next record of an array.
#[tactic(auto, using(crate::proofs::ArrayLaws::array_none, crate::proofs::ArrayLaws::floats_give, crate::proofs::ArrayLaws::floats_cut, crate::proofs::ArrayLaws::doubles_give, crate::proofs::ArrayLaws::doubles_cut))]
pub fn array_next(st: ChemstationArrayState, s: &[u8], last: bool) -> Result<Given, Stopped>
    ensures { answer_of result ≡ read last (rule_by (State.Array st) (array_rule st)) s.now }
{
    if st.n_scans_left.0 == 0 {
        return Err(Stopped::Finished);
    }
    // Kept: (d) two arms of four lines, which differ in the number's type and width: one generic function would need a bound on the type, one
    // on `f64`, and the width as a parameter beside them, and be called in both arms.
    match st.record_type {
        ChemstationArrayRecordType::Float32Array => {
            if s.len() < 4 {
                return Err(lacking(last, false));
            }
            Ok(array_given(st, f64::from_pattern(u32::le_at(s, 0)), 4))
        }
        ChemstationArrayRecordType::Float64Array => {
            if s.len() < 8 {
                return Err(lacking(last, false));
            }
            Ok(array_given(st, f64::from_pattern(u64::le_at(s, 0)), 8))
        }
    }
}
