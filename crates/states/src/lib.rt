// A state as numbers that a caller keeps, six doubles, four counts, a stored time and the reading, and the numbers as a state.
#![tactic(auto)]

ghost use Rattle.std.specs.Prelude.{◌≡◌};
ghost use Rattle.states.specs.State.{fid_from, ms_from, mwd_from, dad_from, uv_from, array_from, state_of, atlas_kept, state_by, KeepsStates};
ghost use Rattle.states.specs.Stored.{stored_as};
ghost use Rattle.streams.specs.declared.State.TheVariants.{Fid, Ms, Mwd, Dad, Uv, Array};

use streams::{
    Bytes, ChemstationArrayRecordType, ChemstationArrayState, ChemstationDadState,
    ChemstationFidState, ChemstationMsState, ChemstationMwdState, ChemstationUvState, Points,
    Scans, State,
};

// A state as numbers. Those of DAD and UV differ between the readings by the reading alone.
// Kept: numbers for the kind, the record type and the reading (a): C keeps them between its calls and may hand back any.
#[derive(Clone, Copy, Debug, PartialEq)]
pub struct Stored {
    // time, intensity, slope or wavelength, step, multiplier, offset; 0 where the kind has no such number
    pub numbers: [f64; 6],
    // kind, scans due, points or bytes due, record type; 0 where the kind has no such count
    pub counts: [usize; 4],
    // the time as stored, in milliseconds; 0 where the kind has none
    pub stored_time: u32,
    // PLAIN or ATLAS
    pub reading: u8,
}

const PLAIN: u8 = 0;

const ATLAS: u8 = 1;

// ---- a state as numbers

impl From<ChemstationFidState> for Stored {
    ghost from_gives = { λ f s. s ≡ stored_as (Fid f) };

    fn from(f: ChemstationFidState) -> Stored {
        Stored {
            numbers: [
                f.cur_time,
                f.cur_intensity,
                f.cur_delta,
                f.time_step,
                f.mult_correction,
                f.offset_correction,
            ],
            counts: [1, 0, 0, 0],
            stored_time: 0,
            reading: PLAIN,
        }
    }
}

impl From<ChemstationMsState> for Stored {
    ghost from_gives = { λ m s. s ≡ stored_as (Ms m) };

    fn from(m: ChemstationMsState) -> Stored {
        Stored {
            numbers: [m.cur_time, m.cur_intensity, 0.0, 0.0, 0.0, 0.0],
            counts: [2, m.n_scans_left.0, m.n_mzs_left.0, 0],
            stored_time: m.stored_time,
            reading: PLAIN,
        }
    }
}

impl From<ChemstationMwdState> for Stored {
    ghost from_gives = { λ m s. s ≡ stored_as (Mwd m) };

    fn from(m: ChemstationMwdState) -> Stored {
        Stored {
            numbers: [
                m.cur_time,
                m.cur_intensity,
                0.0,
                m.time_step,
                m.mult_correction,
                m.offset_correction,
            ],
            counts: [3, 0, m.n_wvs_left.0, 0],
            stored_time: 0,
            reading: PLAIN,
        }
    }
}

impl From<ChemstationDadState> for Stored {
    ghost from_gives = { λ d s. s ≡ stored_as (Dad d) };

    fn from(d: ChemstationDadState) -> Stored {
        Stored {
            numbers: [d.cur_time, d.cur_intensity, d.cur_wv, d.wv_step, 0.0, 0.0],
            counts: [4, d.n_scans_left.0, d.n_bytes_left.0, 0],
            stored_time: d.stored_time,
            reading: PLAIN,
        }
    }
}

impl From<ChemstationUvState> for Stored {
    ghost from_gives = { λ u s. s ≡ stored_as (Uv u) };

    fn from(u: ChemstationUvState) -> Stored {
        Stored {
            numbers: [
                u.cur_time,
                u.cur_intensity,
                u.cur_wv,
                u.wv_step,
                u.mult_correction,
                0.0,
            ],
            counts: [5, u.n_scans_left.0, u.n_wvs_left.0, 0],
            stored_time: u.stored_time,
            reading: PLAIN,
        }
    }
}

impl From<ChemstationArrayState> for Stored {
    ghost from_gives = { λ a s. s ≡ stored_as (Array a) };

    fn from(a: ChemstationArrayState) -> Stored {
        Stored {
            numbers: [
                a.cur_time,
                a.cur_intensity,
                0.0,
                a.time_step,
                a.mult_correction,
                0.0,
            ],
            counts: [6, a.n_scans_left.0, 0, a.record_type as usize],
            stored_time: 0,
            reading: PLAIN,
        }
    }
}

impl From<State> for Stored {
    ghost from_gives = { λ st s. s ≡ stored_as st };

    fn from(st: State) -> Stored {
        match st {
            State::Fid(f) => f.into(),
            State::Ms(m) => m.into(),
            State::Mwd(m) => m.into(),
            State::Dad(d) => d.into(),
            State::Uv(u) => u.into(),
            State::Array(a) => a.into(),
            State::AtlasDad(d) => Stored {
                reading: ATLAS,
                ..Stored::from(d)
            },
            State::AtlasUv(u) => Stored {
                reading: ATLAS,
                ..Stored::from(u)
            },
        }
    }
}

// ---- the numbers as a state

impl Stored {
    fn fid(self) -> State
        ensures { result ≡ fid_from self.numbers }
    {
        let [time, intensity, slope, step, mult, offset] = self.numbers;
        State::Fid(ChemstationFidState {
            cur_time: time,
            cur_delta: slope,
            cur_intensity: intensity,
            time_step: step,
            mult_correction: mult,
            offset_correction: offset,
        })
    }

    fn ms(self) -> State
        ensures { result ≡ ms_from self.numbers self.counts self.stored_time }
    {
        State::Ms(ChemstationMsState {
            stored_time: self.stored_time,
            n_scans_left: Scans(self.counts[1]),
            n_mzs_left: Points(self.counts[2]),
            cur_time: self.numbers[0],
            cur_intensity: self.numbers[1],
        })
    }

    fn mwd(self) -> State
        ensures { result ≡ mwd_from self.numbers self.counts }
    {
        let [time, intensity, _, step, mult, offset] = self.numbers;
        State::Mwd(ChemstationMwdState {
            n_wvs_left: Points(self.counts[2]),
            cur_time: time,
            cur_intensity: intensity,
            time_step: step,
            mult_correction: mult,
            offset_correction: offset,
        })
    }

    fn dad(self) -> State
        ensures { result ≡ dad_from self.numbers self.counts self.stored_time }
    {
        let [time, intensity, wavelength, step, _, _] = self.numbers;
        State::Dad(ChemstationDadState {
            stored_time: self.stored_time,
            n_scans_left: Scans(self.counts[1]),
            n_bytes_left: Bytes(self.counts[2]),
            cur_time: time,
            cur_intensity: intensity,
            cur_wv: wavelength,
            wv_step: step,
        })
    }

    fn uv(self) -> State
        ensures { result ≡ uv_from self.numbers self.counts self.stored_time }
    {
        let [time, intensity, wavelength, step, mult, _] = self.numbers;
        State::Uv(ChemstationUvState {
            stored_time: self.stored_time,
            n_scans_left: Scans(self.counts[1]),
            n_wvs_left: Points(self.counts[2]),
            cur_time: time,
            cur_intensity: intensity,
            cur_wv: wavelength,
            wv_step: step,
            mult_correction: mult,
        })
    }

    fn array(self) -> State
        ensures { result ≡ array_from self.numbers self.counts }
    {
        let [time, intensity, _, step, mult, _] = self.numbers;
        let record_type = match self.counts[3] {
            0 => ChemstationArrayRecordType::Float32Array,
            _ => ChemstationArrayRecordType::Float64Array,
        };
        State::Array(ChemstationArrayState {
            record_type,
            n_scans_left: Scans(self.counts[1]),
            cur_time: time,
            cur_intensity: intensity,
            time_step: step,
            mult_correction: mult,
        })
    }

    // The state that the numbers hold under the plain reading.
    #[tactic(auto, using(std::proofs::lemmas::Bool::Decides::nat_tests), unfolding(crate::specs::State::state_of))]
    fn plain(self) -> Option<State>
        ensures { result ≡ state_of self.numbers self.counts self.stored_time }
    {
        match self.counts[0] {
            1 => Some(self.fid()),
            2 => Some(self.ms()),
            3 => Some(self.mwd()),
            4 => Some(self.dad()),
            5 => Some(self.uv()),
            6 => Some(self.array()),
            _ => None,
        }
    }

    // The state that the numbers hold under their reading.
    #[tactic(auto, using(std::proofs::lemmas::Bool::Decides::nat_tests), unfolding(crate::specs::State::state_by))]
    pub fn state(self) -> Option<State>
        ensures { result ≡ state_by self.reading self.numbers self.counts self.stored_time }
    {
        let plain = self.plain();
        match self.reading {
            PLAIN => plain,
            ATLAS => atlas_kept(plain),
            _ => None,
        }
    }
}

// The atlas reading at the place of a plain state. A kind without that reading has no such state.
fn atlas_kept(plain: Option<State>) -> Option<State>
    ensures { result ≡ atlas_kept plain }
{
    match plain?.in_atlas() {
        st @ (State::AtlasDad(_) | State::AtlasUv(_)) => Some(st),
        _ => None,
    }
}

// Nothing to compute: the contract is that a state which is stored and taken back is the same.
#[tactic(auto, using(crate::proofs::States::keeps_states))]
pub fn kept_state()
    ensures { KeepsStates }
{}
