// Fill columns, over all kinds; and what it changes that bytes are told to be the last.
#![tactic(auto)]

ghost use Rattle.std.specs.Prelude.{◌≡◌, ◌+◌, true};
ghost use Rattle.reader.specs.Columns.{row_of, held, lent, lent_columns, equal_lengths, Room, put_row, AreTheSame, Fills};
ghost use Rattle.reader.specs.Last.{LastDiffers};

use chemstation::next_record;
use error::{Refusal, Stopped};
use streams::{Record, State};

// A record as a row of six columns; a kind without an axis has 0.0 there, one without a stored time 0 in the last two.
#[derive(Clone, Copy, Debug, PartialEq)]
pub struct Row {
    pub time: f64,
    pub axis: f64,
    pub unscaled: f64,
    pub scaled: f64,
    pub minutes: u32,
    pub leftover: u32,
}

impl From<Record> for Row {
    ghost from_gives = { λ r row. row ≡ row_of r };

    fn from(r: Record) -> Row {
        match r {
            Record::Trace {
                time,
                unscaled,
                scaled,
            } => Row {
                time,
                axis: 0.0,
                unscaled,
                scaled,
                minutes: 0,
                leftover: 0,
            },
            Record::Mass {
                time,
                mz: axis,
                unscaled,
                scaled,
                minutes,
                leftover,
            }
            | Record::Spectrum {
                time,
                wavelength: axis,
                unscaled,
                scaled,
                minutes,
                leftover,
            } => Row {
                time,
                axis,
                unscaled,
                scaled,
                minutes,
                leftover,
            },
        }
    }
}

// Six lent columns, a place in each for a record.
// Kept: (a) six slices in place of one of rows: C has them column by column.
#[derive(Drop)]
pub struct Columns<'a> {
    pub time: &'a mut [f64],
    pub axis: &'a mut [f64],
    pub unscaled: &'a mut [f64],
    pub scaled: &'a mut [f64],
    pub minutes: &'a mut [u32],
    pub leftover: &'a mut [u32],
}

impl Columns<'_> {
    // Whether the six are of one length.
    pub fn are_even(&self) -> bool
        ensures { result ≡ equal_lengths (held self.now) }
    {
        let n = self.time.len();
        self.axis.len() == n
            && self.unscaled.len() == n
            && self.scaled.len() == n
            && self.minutes.len() == n
            && self.leftover.len() == n
    }

    // Puts a row at place i of all six.
    pub fn put(&mut self, i: usize, row: Row)
        requires { Room (i + 1) (held self.old) }
        ensures same { AreTheSame self.old self.new }
        ensures held { held self.new ≡ put_row (held self.old) i row }
    {
        self.time[i] = row.time;
        self.axis[i] = row.axis;
        self.unscaled[i] = row.unscaled;
        self.scaled[i] = row.scaled;
        self.minutes[i] = row.minutes;
        self.leftover[i] = row.leftover;
    }
}

// The count of records, the bytes consumed, the state after the last record, the closing answer: Ok where the columns are full.
#[derive(Clone, Copy)]
pub struct Filled {
    pub count: usize,
    pub consumed: usize,
    pub state: State,
    pub closing: Result<(), Stopped>,
}

// Fills columns of one length.
#[tactic(auto, using(chemstation::proofs::Answers::answered, rules::proofs::Laws::taken_within))]
fn fill_equal(st: State, s: &[u8], last: bool, columns: &mut Columns<'_>) -> Filled
    requires { equal_lengths (held columns.old) ≡ true }
    ensures same { AreTheSame columns.old columns.new }
    ensures filled { Fills st s.now last result (lent columns) }
{
    let mut cur = st;
    let mut at: usize = 0;
    let n = columns.time.len();
    // Kept: (d) an index: it is the place in all six columns and the count that is answered; six iterators side by side would be a nest of
    // `zip`, and still want the count. And a loop beside runlog's: one for both would take a closure that puts a record and says whether there
    // is room for the next, and answer what each answers now.
    for i in 0..n {
        match next_record(cur, &s[at..], last) {
            Err(z) => {
                return Filled {
                    count: i,
                    consumed: at,
                    state: cur,
                    closing: Err(z),
                };
            }
            Ok(given) => {
                columns.put(i, given.record.into());
                cur = given.state;
                at += given.bytes;
            }
        }
    }
    Filled {
        count: n,
        consumed: at,
        state: cur,
        closing: Ok(()),
    }
}

// Records until the columns are full or another answer comes. Columns of unequal lengths are refused, and nothing is written.
pub fn fill_columns(st: State, s: &[u8], last: bool, columns: &mut Columns<'_>) -> Filled
    ensures same { AreTheSame columns.old columns.new }
    ensures filled { Fills st s.now last result (lent columns) }
{
    if !columns.are_even() {
        return Filled {
            count: 0,
            consumed: 0,
            state: st,
            closing: Err(Refusal::LentLength.into()),
        };
    }
    fill_equal(st, s, last, columns)
}

// The same over six slices.
// Kept: (a) C has them one by one; and (c) the checker covers no struct that is made of parts of another's slices (tried with the parts in
// the struct, taken before it, and behind a pattern).
pub fn fill_slices(
    st: State,
    s: &[u8],
    last: bool,
    time: &mut [f64],
    axis: &mut [f64],
    unscaled: &mut [f64],
    scaled: &mut [f64],
    minutes: &mut [u32],
    leftover: &mut [u32],
) -> Filled
    ensures { Fills st s.now last result (lent_columns time axis unscaled scaled minutes leftover) }
{
    fill_columns(
        st,
        s,
        last,
        &mut Columns {
            time,
            axis,
            unscaled,
            scaled,
            minutes,
            leftover,
        },
    )
}

// Nothing is computed: told that the bytes are the last or not, Open, Next record and Fill columns differ only where a due
// field ends past them. Cited by a contract, so that it cannot be left out.
#[tactic(auto, using(rules::proofs::Last::told_last, rules::proofs::Last::same_to_end))]
pub fn told_last()
    ensures { LastDiffers }
{}
