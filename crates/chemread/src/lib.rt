// What C calls: Open, Fetch a text, all texts at once, Fill columns and the sum of a column, which include/chemstation.h declares; the run date
// and windows of time, which it declares once docs/run-dates.patch is applied.
#![tactic(auto)]

ghost use Rattle.std.specs.Prelude.{◌≡◌, true, Some, Ok};
ghost use Rattle.rules.specs.Rule.{read};
ghost use Rattle.error.specs.Number.{closing_number};
ghost use Rattle.fetch.specs.Fetch.{fetch_rule, passed};
ghost use Rattle.texts.specs.Eight.{eight_rule, lent_texts, all_passed};
ghost use Rattle.modes.specs.Modes.{open_by};
ghost use Rattle.reader.specs.Columns.{lent_columns, closing_of};
ghost use Rattle.chemread.specs.Lent.{header_of, corrections_of, lent_run, held, lent, AreTheSame, with_header, with_state, OpensInto, lent_text, FetchesInto, TextsInto, lent_filling, FillsInto, SumsInto, DatesInto};
ghost use Rattle.chemread.specs.Answers.{answer_number, place_number};
ghost use Rattle.volumes.specs.Volume.{run_date, placed};
ghost use Rattle.sums.specs.Sums.{total_from};

use error::{Refusal, Stopped};
use metadata::ChemstationMetadata;
use states::Stored;
use streams::{Mode, State};
use volumes::Placed;

// ---- answers

// What a call answers.
#[derive(Clone, Copy, Debug, PartialEq, Eq)]
enum Answer {
    Stopped(Stopped),
    // the columns are full
    Full,
    // a header was opened, a text or all eight fetched, a column added up, or a run date read
    Given,
    NoDate,
    InWindow,
    OutOfWindow,
}

// What closes a filling.
impl From<Result<(), Stopped>> for Answer {
    ghost from_gives = { λ c a. answer_number a ≡ closing_number (closing_of c) };

    fn from(c: Result<(), Stopped>) -> Answer {
        match c {
            Ok(()) => Answer::Full,
            Err(z) => Answer::Stopped(z),
        }
    }
}

// The number that C reads.
impl From<Answer> for u8 {
    ghost from_gives = { λ a n. n ≡ answer_number a };

    fn from(a: Answer) -> u8 {
        match a {
            Answer::Stopped(Stopped::Finished) => 0,
            Answer::Stopped(Stopped::Refused(r)) => u8::from(r),
            Answer::Stopped(Stopped::MoreBytes) => 101,
            Answer::Full => 102,
            Answer::Given => 103,
            Answer::NoDate => 104,
            Answer::InWindow => 105,
            Answer::OutOfWindow => 106,
        }
    }
}

// ---- Open

// The whole numbers of a description.
// Kept: (d) `as`: std has no From of a u32 for usize, and `try_from` could fail.
fn header_of(d: ChemstationMetadata) -> [usize; 5]
    ensures { result ≡ header_of d }
{
    let edition = d.edition as usize;
    let sequence = usize::from(d.sequence);
    let vial = usize::from(d.vial);
    let replicate = usize::from(d.replicate);
    [edition, d.size, sequence, vial, replicate]
}

// The doubles of a description.
fn corrections_of(d: ChemstationMetadata) -> [f64; 4]
    ensures { result ≡ corrections_of d }
{
    [
        d.start_time,
        d.end_time,
        d.offset_correction,
        d.mult_correction,
    ]
}

// The memory that C lends for a run: what its header says, and the state before the first record.
#[derive(Drop)]
struct LentRun<'a> {
    header: &'a mut [usize; 5],
    corrections: &'a mut [f64; 4],
    text_starts: &'a mut [usize; 8],
    text_lengths: &'a mut [usize; 8],
    numbers: &'a mut [f64; 6],
    counts: &'a mut [usize; 4],
    stored_time: &'a mut u32,
    reading: &'a mut u8,
}

impl LentRun<'_> {
    // What a header says.
    fn put_header(&mut self, d: ChemstationMetadata)
        ensures same { AreTheSame self.old self.new }
        ensures held { held self.new ≡ with_header d (held self.old) }
    {
        *self.header = header_of(d);
        *self.corrections = corrections_of(d);
        // Kept: (c), here and below: straight out of the struct the borrow checker does not cover an array.
        let starts = d.text_starts;
        *self.text_starts = starts;
        let lengths = d.text_lengths;
        *self.text_lengths = lengths;
    }

    // A state, with its reading.
    fn put_state(&mut self, st: State)
        ensures same { AreTheSame self.old self.new }
        ensures held { held self.new ≡ with_state st (held self.old) }
    {
        let stored = Stored::from(st);
        let doubles = stored.numbers;
        *self.numbers = doubles;
        let wholes = stored.counts;
        *self.counts = wholes;
        *self.stored_time = stored.stored_time;
        *self.reading = stored.reading;
    }

    // Opens a run by a reading. Any other answer writes nothing.
    fn open(&mut self, mode: Mode, kind: u8, s: &[u8], last: bool) -> u8
        ensures same { AreTheSame self.old self.new }
        ensures opens { OpensInto mode kind (read last (open_by mode kind) s.now) result (lent self) }
    {
        match modes::open_by(mode, kind, s, last) {
            Err(z) => Answer::Stopped(z).into(),
            Ok(run) => {
                self.put_header(run.metadata);
                self.put_state(run.state);
                Answer::Given.into()
            }
        }
    }
}

// Opens a run of any kind, to be read as the original reads it.
// Kept: (a), here and below: C lends the memory one by one, and has an export for each reading.
#[unsafe(no_mangle)]
pub extern "C" fn chemstation_open(
    kind: u8,
    s: &[u8],
    last: bool,
    header: &mut [usize; 5],
    corrections: &mut [f64; 4],
    text_starts: &mut [usize; 8],
    text_lengths: &mut [usize; 8],
    numbers: &mut [f64; 6],
    counts: &mut [usize; 4],
    stored_time: &mut u32,
    reading: &mut u8,
) -> u8
    ensures { OpensInto Mode.Plain kind (read last (open_by Mode.Plain kind) s.now) result (lent_run header corrections text_starts text_lengths numbers counts stored_time reading) }
{
    let mut run = LentRun {
        header,
        corrections,
        text_starts,
        text_lengths,
        numbers,
        counts,
        stored_time,
        reading,
    };
    run.open(Mode::Plain, kind, s, last)
}

// Opens a DAD or UV run for the atlas reading.
#[unsafe(no_mangle)]
pub extern "C" fn chemstation_open_atlas(
    kind: u8,
    s: &[u8],
    last: bool,
    header: &mut [usize; 5],
    corrections: &mut [f64; 4],
    text_starts: &mut [usize; 8],
    text_lengths: &mut [usize; 8],
    numbers: &mut [f64; 6],
    counts: &mut [usize; 4],
    stored_time: &mut u32,
    reading: &mut u8,
) -> u8
    ensures { OpensInto Mode.Atlas kind (read last (open_by Mode.Atlas kind) s.now) result (lent_run header corrections text_starts text_lengths numbers counts stored_time reading) }
{
    let mut run = LentRun {
        header,
        corrections,
        text_starts,
        text_lengths,
        numbers,
        counts,
        stored_time,
        reading,
    };
    run.open(Mode::Atlas, kind, s, last)
}

// ---- Fetch a text

// A text by its number, from the bytes of a whole file. A refusal writes nothing of it; the units replaced, 0 on a refusal, are written always.
#[tactic(auto, using(crate::proofs::Calls::fetches_into))]
#[unsafe(no_mangle)]
pub extern "C" fn chemstation_text(
    kind: u8,
    number: u8,
    s: &[u8],
    out: &mut [u8],
    length: &mut usize,
    replaced: &mut usize,
) -> u8
    ensures text { FetchesInto (read true (fetch_rule kind number) s.now) result (lent_text out length) }
    ensures count { replaced.new ≡ passed kind number out.old s.now }
{
    match fetch::fetch_text(kind, number, s, out) {
        Err(r) => {
            *replaced = 0;
            r.into()
        }
        Ok(text) => {
            *replaced = text.replaced;
            *length = text.bytes;
            Answer::Given.into()
        }
    }
}

// All eight texts, one behind the other in one buffer, from the bytes of a whole file. A refusal writes nothing of them; the units replaced in
// each, 0s on a refusal, are written always.
#[tactic(auto, using(crate::proofs::Calls::texts_into))]
#[unsafe(no_mangle)]
pub extern "C" fn chemstation_texts(
    kind: u8,
    s: &[u8],
    out: &mut [u8],
    starts: &mut [usize; 8],
    lengths: &mut [usize; 8],
    replaced: &mut [usize; 8],
) -> u8
    ensures texts { TextsInto (read true (eight_rule kind) s.now) result (lent_texts out starts lengths) }
    ensures counts { replaced.new ≡ all_passed kind out.old s.now }
{
    match texts::fetch_texts(kind, s, out, starts, lengths) {
        Err(r) => {
            *replaced = [0; 8];
            r.into()
        }
        Ok(texts) => {
            let each = texts.replaced;
            *replaced = each;
            Answer::Given.into()
        }
    }
}

// ---- Fill columns

// Records until the columns are full or another answer comes; the state behind the last is stored back, its reading stays. Numbers that
// hold no state are refused.
#[tactic(auto, using(crate::proofs::Calls::fills_nothing))]
#[unsafe(no_mangle)]
pub extern "C" fn chemstation_fill(
    numbers: &mut [f64; 6],
    counts: &mut [usize; 4],
    stored_time: &mut u32,
    reading: u8,
    s: &[u8],
    last: bool,
    time: &mut [f64],
    axis: &mut [f64],
    unscaled: &mut [f64],
    scaled: &mut [f64],
    minutes: &mut [u32],
    leftover: &mut [u32],
    given: &mut [usize; 2],
) -> u8
    ensures { FillsInto reading s.now last result (lent_filling numbers counts stored_time (lent_columns time axis unscaled scaled minutes leftover) given) }
{
    let x = *numbers;
    let n = *counts;
    let kept = Stored {
        numbers: x,
        counts: n,
        stored_time: *stored_time,
        reading,
    };
    let Some(st) = kept.state() else {
        *given = [0, 0];
        return Refusal::UnknownKind.into();
    };
    let f = reader::fill_slices(st, s, last, time, axis, unscaled, scaled, minutes, leftover);
    let after = Stored::from(f.state);
    let x = after.numbers;
    *numbers = x;
    let n = after.counts;
    *counts = n;
    *stored_time = after.stored_time;
    *given = [f.count, f.consumed];
    Answer::from(f.closing).into()
}

// ---- the sum of a column

// Adds the values of a column to a sum, one behind the other. A refusal writes nothing.
#[tactic(auto, using(crate::proofs::Calls::sums_into))]
#[unsafe(no_mangle)]
pub extern "C" fn chemstation_sum(values: &[f64], sum: &mut i64) -> u8
    ensures { SumsInto (total_from (Some (Ok sum.old)) values.now) result sum.old sum.new }
{
    let before = *sum;
    match tally::total_from(Some(Ok(before)), values) {
        Some(Ok(n)) => {
            *sum = n;
            Answer::Given.into()
        }
        None => Answer::Given.into(),
        Some(Err(r)) => r.into(),
    }
}

// ---- the run date, and windows of time

// The run date of a file. A refusal, and a run without a date, write nothing.
#[unsafe(no_mangle)]
pub extern "C" fn chemstation_date(kind: u8, s: &[u8], instant: &mut u32) -> u8
    ensures { DatesInto (run_date kind s.now) result instant.old instant.new }
{
    match volumes::run_date(kind, s) {
        Err(r) => r.into(),
        Ok(None) => Answer::NoDate.into(),
        Ok(Some(i)) => {
            *instant = i;
            Answer::Given.into()
        }
    }
}

// Whether the run date of a file lies in a window.
#[unsafe(no_mangle)]
pub extern "C" fn chemstation_window(kind: u8, s: &[u8], start: u32, end: u32) -> u8
    ensures { result ≡ place_number (placed start end kind s.now) }
{
    match volumes::in_window(start, end, kind, s) {
        Err(r) => r.into(),
        Ok(Placed::Undated) => Answer::NoDate.into(),
        Ok(Placed::Inside) => Answer::InWindow.into(),
        Ok(Placed::Outside) => Answer::OutOfWindow.into(),
    }
}
