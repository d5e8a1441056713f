// The atlas reading of DAD and UV: a scan is spent when its last point has been given.
#![tactic(auto)]

ghost use Rattle.std.specs.Prelude.{◌≡◌};
ghost use Rattle.rules.specs.Rule.{map_read};
ghost use Rattle.streams.specs.Next.{answer_of};
ghost use Rattle.atlas.specs.Atlas.{spent, dad_done, scan_due, debit_of, plain_of, scans_by, after_by, item_by};

use error::Stopped;
use streams::{ChemstationDadState, ChemstationUvState, Given, Scans, State};

// The scans due after a point, by those before it and what is then due of its scan.
fn spend(scans: Scans, due: usize) -> Scans
    ensures { result ≡ record { 0 = spent scans.0 due } }
{
    if due == 0 {
        Scans(scans.0.saturating_sub(1))
    } else {
        scans
    }
}

// Whether no scans and no bytes are due.
fn dad_done(st: ChemstationDadState) -> bool
    ensures { result ≡ dad_done st }
{
    st.n_scans_left.0 == 0 && st.n_bytes_left.0 == 0
}

// The same place with a scan due to the plain reading, so that it goes on, unless no scans and no bytes are due.
fn scan_due(st: ChemstationDadState) -> ChemstationDadState
    ensures { result ≡ scan_due st }
{
    let scans = if dad_done(st) { 0 } else { 1 };
    ChemstationDadState {
        n_scans_left: Scans(scans),
        ..st
    }
}

// ---- the plain reading's answer, and then what the atlas reading makes of it: each kind's next record has one caller, which the
// compiler can build into the loops over records

// The scans due before a point, where they are what those after it go by: of an atlas state. The plain reading has a rule of its own.
pub fn debit_of(st: State) -> Option<Scans>
    ensures { result ≡ debit_of st }
{
    match st {
        State::AtlasDad(d) => Some(d.n_scans_left),
        State::AtlasUv(u) => Some(u.n_scans_left),
        _ => None,
    }
}

// The plain state whose fields are read.
pub fn plain_of(st: State) -> State
    ensures { result ≡ plain_of st }
{
    match st {
        State::AtlasDad(d) => State::Dad(scan_due(d)),
        State::AtlasUv(u) => State::Uv(u),
        _ => st,
    }
}

// The scans due after a point, by the reading: those that the plain rule leaves, or those before it less a spent one.
fn scans_by(debit: Option<Scans>, scans: Scans, due: usize) -> Scans
    ensures { result ≡ scans_by debit scans due }
{
    match debit {
        Some(before) => spend(before, due),
        None => scans,
    }
}

// The state after a point, by the reading and the state that the plain rule makes; no point of DAD or UV leads to another kind.
// Kept: a plain state is made anew too (b): handed on as it is, a record of the log took 1 (MWD) to 8 (UV) instructions more.
// Kept: two arms that are alike (d): a generic function over the two states would need a trait with four members, to set the scans, to read
// what is due, and the two cases, for two arms of nine lines.
fn after_by(debit: Option<Scans>, st: State) -> State
    ensures { result ≡ after_by debit st }
{
    match st {
        State::Dad(d) => {
            let after = ChemstationDadState {
                n_scans_left: scans_by(debit, d.n_scans_left, d.n_bytes_left.0),
                ..d
            };
            if debit.is_some() {
                State::AtlasDad(after)
            } else {
                State::Dad(after)
            }
        }
        State::Uv(u) => {
            let after = ChemstationUvState {
                n_scans_left: scans_by(debit, u.n_scans_left, u.n_wvs_left.0),
                ..u
            };
            if debit.is_some() {
                State::AtlasUv(after)
            } else {
                State::Uv(after)
            }
        }
        _ => st,
    }
}

// What is answered, by the answer of the plain reading.
pub fn atlas_by(debit: Option<Scans>, plain: Result<Given, Stopped>) -> Result<Given, Stopped>
    ensures { answer_of result ≡ map_read (item_by debit) (answer_of plain) }
{
    let given = plain?;
    Ok(Given {
        state: after_by(debit, given.state),
        ..given
    })
}
