// Open over all kinds: the header, what it says, and the state before the first record.
#![tactic(auto)]

ghost use Rattle.std.specs.Prelude.{◌≡◌, length};
ghost use Rattle.common.specs.Bytes.{part};
ghost use Rattle.agilent.specs.Header.{kind_number};
ghost use Rattle.metadata.specs.Remaining.{header_of};
ghost use Rattle.opening.specs.Opening.{same_bytes, record_type, fid_begins, ms_begins, mwd_begins, dad_begins, uv_begins, array_begins, begins, OpensRun};

use agilent::Kind;
use error::Stopped;
use metadata::{ChemstationMetadata, OpenedHeader, open_header_of};
use streams::{
    Bytes, ChemstationArrayRecordType, ChemstationArrayState, ChemstationDadState,
    ChemstationFidState, ChemstationMsState, ChemstationMwdState, ChemstationUvState, Points,
    Scans, State,
};

// A run that was opened: the state before its first record, the size of its header in bytes, and what it says of itself.
// Kept: (d) Clone and Copy alone, as `State` and the six states: no code compares or prints one.
#[derive(Clone, Copy)]
pub struct OpenedRun {
    pub state: State,
    pub size: usize,
    pub metadata: ChemstationMetadata,
}

// In minutes a record.
const CHEMSTATION_TIME_STEP: f64 = 0.2;

// Whether the bytes of a mark stand at a position.
#[tactic(auto, using(crate::proofs::Marks::marked, crate::proofs::Marks::rest_of))]
fn has_mark(h: &[u8], at: usize, mark: &[u8]) -> bool
    ensures { result ≡ same_bytes (part at (length mark.now) h.now) mark.now }
{
    h.get(at..).unwrap_or(&[]).starts_with(mark)
}

fn record_type(h: &[u8]) -> ChemstationArrayRecordType
    ensures { result ≡ record_type h.now }
{
    if has_mark(h, 348, b"G\x00C\x00")
        || has_mark(h, 3090, b"M\x00u\x00s\x00t\x00a\x00n\x00g\x00")
    {
        ChemstationArrayRecordType::Float64Array
    } else {
        ChemstationArrayRecordType::Float32Array
    }
}

// The states before the first record, in the order of the Rust's files.
// Kept: a function for each. The structs stand in `streams`, which knows no description to make them of, and written out in
// `first_state` they would be some fifty lines of one match. (d)

#[tactic(auto, using(metadata::proofs::Constants::zero_is, crate::proofs::Constants::fifth_is))]
fn fid_state(d: ChemstationMetadata) -> State
    ensures { result ≡ fid_begins d }
{
    State::Fid(ChemstationFidState {
        cur_time: d.start_time - CHEMSTATION_TIME_STEP,
        cur_delta: 0.0,
        cur_intensity: 0.0,
        time_step: CHEMSTATION_TIME_STEP,
        mult_correction: d.mult_correction,
        offset_correction: d.offset_correction,
    })
}

#[tactic(auto, using(metadata::proofs::Constants::zero_is))]
fn ms_state(scans: Scans) -> State
    ensures { result ≡ ms_begins scans }
{
    State::Ms(ChemstationMsState {
        n_scans_left: scans,
        n_mzs_left: Points(0),
        cur_time: 0.0,
        cur_intensity: 0.0,
        stored_time: 0,
    })
}

#[tactic(auto, using(metadata::proofs::Constants::zero_is, crate::proofs::Constants::fifth_is))]
fn mwd_state(d: ChemstationMetadata) -> State
    ensures { result ≡ mwd_begins d }
{
    State::Mwd(ChemstationMwdState {
        n_wvs_left: Points(0),
        cur_time: d.start_time - CHEMSTATION_TIME_STEP,
        cur_intensity: 0.0,
        time_step: CHEMSTATION_TIME_STEP,
        mult_correction: d.mult_correction,
        offset_correction: d.offset_correction,
    })
}

#[tactic(auto, using(metadata::proofs::Constants::zero_is))]
fn dad_state(scans: Scans) -> State
    ensures { result ≡ dad_begins scans }
{
    State::Dad(ChemstationDadState {
        n_scans_left: scans,
        n_bytes_left: Bytes(0),
        cur_time: 0.0,
        cur_intensity: 0.0,
        cur_wv: 0.0,
        wv_step: 0.0,
        stored_time: 0,
    })
}

#[tactic(auto, using(metadata::proofs::Constants::zero_is))]
fn uv_state(scans: Scans, mult: f64) -> State
    ensures { result ≡ uv_begins scans mult }
{
    State::Uv(ChemstationUvState {
        n_scans_left: scans,
        n_wvs_left: Points(0),
        cur_time: 0.0,
        cur_intensity: 0.0,
        cur_wv: 0.0,
        wv_step: 0.0,
        mult_correction: mult,
        stored_time: 0,
    })
}

#[tactic(auto, using(metadata::proofs::Constants::zero_is))]
fn array_state(h: &[u8], header: OpenedHeader) -> State
    ensures { result ≡ array_begins (header_of h.now header) }
{
    let d = header.metadata;
    State::Array(ChemstationArrayState {
        record_type: record_type(h),
        n_scans_left: Scans(header.scans),
        cur_time: d.start_time,
        cur_intensity: 0.0,
        time_step: header.time_step,
        mult_correction: d.mult_correction,
    })
}

// The state before the first record of a run, of whose header's bytes h this was opened.
#[tactic(auto, unfolding(crate::specs::Opening::begins))]
fn first_state(kind: Kind, h: &[u8], header: OpenedHeader) -> State
    ensures { result ≡ begins (kind_number kind) (header_of h.now header) }
{
    let d = header.metadata;
    let scans = Scans(header.scans);
    match kind {
        Kind::Fid => fid_state(d),
        Kind::Ms => ms_state(scans),
        Kind::Mwd => mwd_state(d),
        Kind::Dad => dad_state(scans),
        Kind::Uv => uv_state(scans, d.mult_correction),
        Kind::Array => array_state(h, header),
    }
}

// Opens a run of a kind: its header, what it says, and the state before the first record.
#[tactic(auto, using(std::proofs::lemmas::Result::err_from_is_err_and, rules::proofs::Laws::read_map, metadata::proofs::HeaderReads::read_stopped, metadata::proofs::HeaderReads::read_opened))]
pub fn open_run_of(kind: Kind, s: &[u8], last: bool) -> Result<OpenedRun, Stopped>
    ensures { OpensRun (kind_number kind) last s.now result }
{
    let header = open_header_of(kind, s, last)?;
    let metadata = header.metadata;
    let size = metadata.size;
    let state = first_state(kind, &s[..size], header);
    Ok(OpenedRun {
        state,
        size,
        metadata,
    })
}

// The same by the kind's number.
#[tactic(auto, using(std::proofs::lemmas::Result::err_from_is_err_and, rules::proofs::Laws::read_map, metadata::proofs::Opens::open_unknown))]
pub fn open_run(kind: u8, s: &[u8], last: bool) -> Result<OpenedRun, Stopped>
    ensures { OpensRun kind last s.now result }
{
    open_run_of(Kind::try_from(kind)?, s, last)
}
