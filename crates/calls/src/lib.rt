// The calls of demand 3, made by the code: one Open, then Next record by value and Fill columns in any order and number, each
// with the state that the last returned and the bytes that it left.
#![tactic(auto)]

ghost use Rattle.std.specs.Prelude.{◌≡◌, cond, ◌+◌, ltb};
ghost use Rattle.rules.specs.Calls.{full, next, fill_unequal, asks, asked, called};
ghost use Rattle.chemstation.specs.Next.{rule};
ghost use Rattle.reader.specs.Columns.{Held, held, lent, Room, AreTheSame, closing_of};
ghost use Rattle.calls.specs.MakeCalls.{call_of, calls_of, Makes, asked_in, or_else, Gives, ComesTo};

use error::Stopped;
use reader::{Columns, Filled};
use streams::{Mode, State};

#[derive(Clone, Copy, Debug, PartialEq, Eq)]
pub enum Call {
    // Next record by value
    Next,
    // Fill columns, with columns whose lengths differ
    FillUnequal,
    // Fill columns, with columns of so many rows
    Fill(usize),
}

// What the calls answer: N, the count of rows and Z.
#[derive(Clone, Copy, Debug, PartialEq, Eq)]
pub struct Rows {
    pub asked: usize,
    pub count: usize,
    pub closing: Result<(), Stopped>,
}

// Why no call is made.
#[derive(Clone, Copy, Debug, PartialEq, Eq)]
pub enum NoRoom {
    // the lengths of the lent columns differ
    Unequal,
    // the lent columns are shorter than N
    Short,
}

impl Call {
    // How many records it asks for.
    fn asks(self) -> usize
        ensures { result ≡ asks (call_of self) }
    {
        match self {
            Call::Next => 1,
            Call::FillUnequal => 0,
            Call::Fill(n) => n,
        }
    }
}

// How many records the calls ask for, N, which may be larger than any number here; if it is at most so many.
#[tactic(auto, using(crate::proofs::Calling::calls_at, crate::proofs::Calling::calls_end, std::proofs::lemmas::Bool::Decides::nat_tests), unfolding(rules::specs::Calls::asked))]
fn asked_by_all(calls: &[Call], most: usize) -> Option<usize>
    ensures { result ≡ asked_in most (asked (calls_of calls.now)) }
{
    let mut n: usize = 0;
    for call in calls {
        let k = call.asks();
        if most - n < k {
            return None;
        }
        n += k;
    }
    Some(n)
}

// Next record by value as a call: its record becomes row i.
// Kept: (c) `Room` in the contracts here, of `Columns::put`, `one_call` and `calls_from`: a ghost field for it would stand in a struct made of
// the lent columns' parts, which the checker does not cover; and it has another count of rows at each.
// Kept: (d) what no record fills is written out here and in reader's `fill_columns`: a function for it would be as long as the two.
fn next_row(st: State, s: &[u8], i: usize, columns: &mut Columns<'_>) -> Filled
    requires { Room (i + 1) (held columns.old) }
    ensures same { AreTheSame columns.old columns.new }
    ensures gives { Gives next st s.now i result (lent columns) }
{
    match chemstation::next_record(st, s, false) {
        Err(z) => Filled {
            count: 0,
            consumed: 0,
            state: st,
            closing: Err(z),
        },
        Ok(given) => {
            columns.put(i, given.record.into());
            Filled {
                count: 1,
                consumed: given.bytes,
                state: given.state,
                closing: Ok(()),
            }
        }
    }
}

// Fill columns with columns whose lengths differ.
fn fill_unequal(st: State, s: &[u8]) -> Filled
    ensures { (old : Held) → Gives fill_unequal st s.now 0 result (record { entry = old; exit = old }) }
{
    let mut time = [0.0; 2];
    let mut axis = [0.0; 1];
    let mut unscaled = [0.0; 1];
    let mut scaled = [0.0; 1];
    let mut minutes = [0u32; 1];
    let mut leftover = [0u32; 1];
    reader::fill_columns(
        st,
        s,
        false,
        &mut Columns {
            time: &mut time,
            axis: &mut axis,
            unscaled: &mut unscaled,
            scaled: &mut scaled,
            minutes: &mut minutes,
            leftover: &mut leftover,
        },
    )
}

// One call, whose rows go into the columns from row i on.
// Kept: (d) a match on which call it is: the calls are data, and the contracts speak of lists of them, which of closures they could not.
fn one_call(call: Call, st: State, s: &[u8], i: usize, columns: &mut Columns<'_>) -> Filled
    requires { Room (i + asks (call_of call)) (held columns.old) }
    ensures same { AreTheSame columns.old columns.new }
    ensures gives { Gives (call_of call) st s.now i result (lent columns) }
{
    match call {
        Call::Next => next_row(st, s, i, columns),
        Call::FillUnequal => fill_unequal(st, s),
        Call::Fill(n) => reader::fill_slices(
            st,
            s,
            false,
            &mut columns.time[i..i + n],
            &mut columns.axis[i..i + n],
            &mut columns.unscaled[i..i + n],
            &mut columns.scaled[i..i + n],
            &mut columns.minutes[i..i + n],
            &mut columns.leftover[i..i + n],
        ),
    }
}

// Z so far, and then what a call gave.
fn first_fewer(z: Result<(), Stopped>, call: Call, f: Filled) -> Result<(), Stopped>
    ensures { closing_of result ≡ or_else (closing_of z) (cond (ltb f.count (asks (call_of call))) (closing_of f.closing) full) }
{
    z?;
    if f.count < call.asks() {
        f.closing
    } else {
        Ok(())
    }
}

// Makes the calls, which ask for n records, from a state on: over the bytes behind the header.
#[tactic(auto, using(crate::proofs::CallLoop::going_more, reader::proofs::ColumnLaws::same_still))]
fn calls_from(n: usize, st: State, s: &[u8], calls: &[Call], columns: &mut Columns<'_>) -> Rows
    requires { Room n (held columns.old) × (n ≡ asked (calls_of calls.now)) }
    ensures same { AreTheSame columns.old columns.new }
    ensures comes_to { ComesTo (called rule (calls_of calls.now) st s.now) n result (lent columns) }
{
    let mut cur = st;
    let mut at: usize = 0;
    let mut rows: usize = 0;
    let mut closing = Ok(());
    for call in calls {
        let f = one_call(*call, cur, &s[at..], rows, columns);
        closing = first_fewer(closing, *call, f);
        cur = f.state;
        at += f.consumed;
        rows += f.count;
    }
    Rows {
        asked: n,
        count: rows,
        closing,
    }
}

// Opens a file by a reading, told that its bytes are not the last, and makes the calls: N, the count of rows and Z, with the rows in the
// lent columns.
// Kept: (a) a number for the kind, any at all: Open refuses what is no kind, and a narrower type would ask more of the caller.
#[tactic(auto, using(crate::proofs::Opened::opened, crate::proofs::Opened::accepted, crate::proofs::Opened::has_room, rules::proofs::Laws::taken_within))]
pub fn make_calls(
    mode: Mode,
    kind: u8,
    file: &[u8],
    calls: &[Call],
    columns: &mut Columns<'_>,
) -> Result<Rows, NoRoom>
    ensures same { AreTheSame columns.old columns.new }
    ensures makes { Makes mode kind (calls_of calls.now) file.now result (lent columns) }
{
    demand3::demand_three();
    if !columns.are_even() {
        return Err(NoRoom::Unequal);
    }
    // Kept: (c) `.ok_or(NoRoom::Short)?` was tried: it puts two more steps between the call and its clause, and the proof did not close.
    let Some(n) = asked_by_all(calls, columns.time.len()) else {
        return Err(NoRoom::Short);
    };
    match modes::open_by(mode, kind, file, false) {
        Err(z) => Ok(Rows {
            asked: n,
            count: 0,
            closing: Err(z),
        }),
        Ok(run) => Ok(calls_from(n, run.state, &file[run.size..], calls, columns)),
    }
}
