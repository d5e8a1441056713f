// What the record streams of the six kinds share: the states, the records, a delta and how it changes a value.
#![tactic(auto)]

ghost use Rattle.std.specs.Prelude.{◌≡◌, ◌≤◌, length};
ghost use Rattle.rules.specs.Rule.{read_at};
ghost use Rattle.common.specs.Bytes.{order_of};
ghost use Rattle.floats.specs.Wholes.{doubles, flat};
ghost use Rattle.streams.specs.Changes.{changed};
ghost use Rattle.streams.specs.Next.{atlas_of, unscaled_of};
ghost use Rattle.streams.specs.Told.{corrected, delta, change_of, delta_read};

use common::{Endian, Number};
use error::Stopped;

// Counts still due, never one for another.
#[derive(Clone, Copy, Debug, PartialEq, Eq)]
pub struct Scans(pub usize);

#[derive(Clone, Copy, Debug, PartialEq, Eq)]
pub struct Points(pub usize);

#[derive(Clone, Copy, Debug, PartialEq, Eq)]
pub struct Bytes(pub usize);

// Times in minutes, wavelengths in nanometres. A point of a scan has the scan's stored time too, in whole minutes and the
// milliseconds left over.
// Kept: Mass and Spectrum as two cases (d): their fields differ by a name alone, but a mass-to-charge ratio is no wavelength, and with one
// case a place that reads either would need a second enum to tell which it is.
#[derive(Clone, Copy)]
pub enum Record {
    Trace {
        time: f64,
        unscaled: f64,
        scaled: f64,
    },
    Mass {
        time: f64,
        mz: f64,
        unscaled: f64,
        scaled: f64,
        minutes: u32,
        leftover: u32,
    },
    Spectrum {
        time: f64,
        wavelength: f64,
        unscaled: f64,
        scaled: f64,
        minutes: u32,
        leftover: u32,
    },
}

// ---- the states, in the order of the Rust's files. The stored time stands first: in a place where other kinds have a double it
// would keep their doubles out of the registers.

#[derive(Clone, Copy)]
pub struct ChemstationFidState {
    // of the record before, in minutes
    pub cur_time: f64,
    // the slope
    pub cur_delta: f64,
    pub cur_intensity: f64,
    // minutes a record
    pub time_step: f64,
    pub mult_correction: f64,
    pub offset_correction: f64,
}

#[derive(Clone, Copy)]
pub struct ChemstationMsState {
    // of the scan as stored, in milliseconds
    pub stored_time: u32,
    pub n_scans_left: Scans,
    pub n_mzs_left: Points,
    // of the scan, in minutes
    pub cur_time: f64,
    pub cur_intensity: f64,
}

#[derive(Clone, Copy)]
pub struct ChemstationMwdState {
    pub n_wvs_left: Points,
    // of the record before, in minutes
    pub cur_time: f64,
    pub cur_intensity: f64,
    // minutes a record
    pub time_step: f64,
    pub mult_correction: f64,
    pub offset_correction: f64,
}

#[derive(Clone, Copy)]
pub struct ChemstationDadState {
    // of the scan as stored, in milliseconds
    pub stored_time: u32,
    pub n_scans_left: Scans,
    pub n_bytes_left: Bytes,
    // of the scan, in milliseconds
    pub cur_time: f64,
    pub cur_intensity: f64,
    // of the record before, in twentieths of a nanometre
    pub cur_wv: f64,
    // twentieths of a nanometre a record
    pub wv_step: f64,
}

#[derive(Clone, Copy)]
pub struct ChemstationUvState {
    // of the scan as stored, in milliseconds
    pub stored_time: u32,
    pub n_scans_left: Scans,
    pub n_wvs_left: Points,
    // of the scan, in minutes
    pub cur_time: f64,
    pub cur_intensity: f64,
    // of the record before, in nanometres
    pub cur_wv: f64,
    // nanometres a record
    pub wv_step: f64,
    pub mult_correction: f64,
}

// How an array's numbers are stored.
#[derive(Clone, Copy, Debug, PartialEq, Eq)]
pub enum ChemstationArrayRecordType {
    Float32Array,
    Float64Array,
}

#[derive(Clone, Copy)]
pub struct ChemstationArrayState {
    pub record_type: ChemstationArrayRecordType,
    pub n_scans_left: Scans,
    // of the record before, in minutes
    pub cur_time: f64,
    pub cur_intensity: f64,
    // minutes a record
    pub time_step: f64,
    pub mult_correction: f64,
}

// The state of a kind under the plain reading; DAD and UV under the atlas reading too.
// Kept: the atlas reading as two cases of their own (b): `Dad(ChemstationDadState, Mode)` and `Uv(ChemstationUvState, Mode)` were tried and
// proved. The library's Fill columns then took, instructions a record, FID 89.0 (70.0 in this form), MS 110.5 (104.4), MWD 103.1 (97.2),
// DAD 96.4 (81.5), UV 95.4 (80.4), array 84.0 (68.0). With the Mode first, or in a field of the two structs,
// the log is dearer too.
#[derive(Clone, Copy)]
pub enum State {
    Fid(ChemstationFidState),
    Ms(ChemstationMsState),
    Mwd(ChemstationMwdState),
    Dad(ChemstationDadState),
    Uv(ChemstationUvState),
    Array(ChemstationArrayState),
    AtlasDad(ChemstationDadState),
    AtlasUv(ChemstationUvState),
}

// How a run is read: as the original reads it, or by the press's rule that a scan is spent when its last point has been given.
#[derive(Clone, Copy, Debug, PartialEq, Eq)]
pub enum Mode {
    Plain,
    Atlas,
}

impl State {
    // The state of the atlas reading at the place of a plain one; a kind without such a reading keeps its own.
    pub fn in_atlas(self) -> State
        ensures { result ≡ atlas_of self }
    {
        match self {
            State::Dad(d) => State::AtlasDad(d),
            State::Uv(u) => State::AtlasUv(u),
            _ => self,
        }
    }
}

// What Next record gives: a record, the state after it and the count of bytes that it took.
#[derive(Clone, Copy)]
pub struct Given {
    pub record: Record,
    pub state: State,
    pub bytes: usize,
}

impl Record {
    // FID and MWD, the record of a value: it is multiplied by the correction, then the offset added.
    pub fn trace(time: f64, value: f64, mult: f64, offset: f64) -> Record
        ensures { result ≡ Record.Trace time value (corrected mult offset value) }
    {
        Record::Trace {
            time,
            unscaled: value,
            scaled: value * mult + offset,
        }
    }

    // Its unscaled intensity.
    pub fn unscaled(self) -> f64
        ensures { result ≡ unscaled_of self }
    {
        match self {
            Record::Trace { unscaled, .. }
            | Record::Mass { unscaled, .. }
            | Record::Spectrum { unscaled, .. } => unscaled,
        }
    }
}

// ---- MWD, DAD and UV: a delta

// A number to add, or an absolute value.
#[derive(Clone, Copy, Debug, PartialEq, Eq)]
pub enum Delta {
    By(i16),
    Absolute(i32),
}

impl Delta {
    // The value after it.
    pub fn applied_to(self, value: f64) -> f64
        ensures { result ≡ (changed doubles (flat doubles value) (change_of self)).value }
    {
        match self {
            Delta::By(v) => value + f64::from(v),
            Delta::Absolute(z) => f64::from(z),
        }
    }
}

// Bytes from a position on, and whether no more come after them.
#[derive(Clone, Copy)]
pub struct Input<'a> {
    pub bytes: &'a [u8],
    pub at: usize,
    pub last: bool,
    pub ghost within: { at ≤ length bytes.now },
}

// The delta at a position and the position after it, or why there is none.
pub fn delta_at(order: Endian, input: Input<'_>) -> Result<(Delta, usize), Stopped>
    ensures { delta_read result ≡ read_at input.entry.last (delta (order_of order)) input.entry.at input.entry.bytes.now }
{
    if input.bytes.len() - input.at < 2 {
        return Err(error::lacking(input.last, false));
    }
    let v = i16::in_order(order, input.bytes, input.at);
    if v != -32768 {
        return Ok((Delta::By(v), input.at + 2));
    }
    if input.bytes.len() - input.at < 6 {
        return Err(error::lacking(input.last, false));
    }
    Ok((
        Delta::Absolute(i32::in_order(order, input.bytes, input.at + 2)),
        input.at + 6,
    ))
}
