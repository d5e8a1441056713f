// Next record in the two forms that borrow: over a state that the caller lends, and from a reader that holds the bytes and a
// position in them. Functions over them are thin; the work is done by value, on a slice and a number.
#![tactic(auto)]

ghost use Rattle.std.specs.Prelude.{◌≡◌, ◌+◌, length, drop};
ghost use Rattle.rules.specs.Rule.{read};
ghost use Rattle.chemstation.specs.Next.{rule};
ghost use Rattle.streams.specs.Next.{answer_of};
ghost use Rattle.borrowed.specs.Borrowed.{shown_from, shown_of, shown_by, state_by, taken_by, unread, moved};

use chemstation::next_record;
use error::Stopped;
use streams::{Given, Record, State};

// ---- Next record over a borrow of the state

// What is given beside the state: a record, and the count of bytes that it took.
#[derive(Clone, Copy)]
pub struct Shown {
    pub record: Record,
    pub bytes: usize,
}

impl From<Given> for Shown {
    ghost from_gives = { λ given shown. shown ≡ shown_from given };

    fn from(given: Given) -> Shown {
        Shown {
            record: given.record,
            bytes: given.bytes,
        }
    }
}

// The next record; the state after it is stored where the caller's stood. A refusal, 'finished' and 'more bytes' leave it.
pub fn next_record_mut(st: &mut State, s: &[u8], last: bool) -> Result<Shown, Stopped>
    ensures shown { shown_of result ≡ shown_by st.old last s.now }
    ensures state { st.new ≡ state_by st.old last s.now }
{
    let given = next_record(*st, s, last)?;
    *st = given.state;
    Ok(given.into())
}

// ---- the reader

// What is given at a position.
// Kept: the answer and a position beside it: a refusal has a position too, the one that was given. (d)
#[derive(Clone, Copy)]
pub struct NextAt {
    pub next: Result<Given, Stopped>,
    // the position after the record, or as it was
    pub at: usize,
}

// What is given from a position on; no bytes are left from one at or past the end.
fn given_at(st: State, s: &[u8], at: usize, last: bool) -> Result<Given, Stopped>
    ensures { answer_of result ≡ read last (rule st) (drop at s.now) }
{
    next_record(st, &s[at.min(s.len())..], last)
}

// The next record from a position on, and the position after it; none from one at or past the end. A refusal, 'finished' and 'more
// bytes' leave the position.
// Kept: (a) a slice with a position, a public function as before: for callers that hold the two themselves (docs/DECISIONS.md, 14).
pub fn next_at(st: State, s: &[u8], at: usize, last: bool) -> NextAt
    ensures next { answer_of result.next ≡ read last (rule st) (drop at s.now) }
    ensures at { result.at ≡ at + taken_by st last (drop at s.now) }
{
    let next = given_at(st, s, at, last);
    match next {
        Ok(given) => NextAt {
            next,
            at: at + given.bytes,
        },
        Err(_) => NextAt { next, at },
    }
}

// The bytes and the position that counts over them.
// Kept: (a) a slice with a position, not a slice that shrinks: by a rule of the project the position travels with the bytes that it counts
// over, and a caller may set one past their end.
#[derive(Clone, Copy, Debug, PartialEq, Eq)]
pub struct Reader<'a> {
    pub bytes: &'a [u8],
    pub at: usize,
}

impl<'a> Reader<'a> {
    // A reader of the bytes, at their start.
    pub fn new(bytes: &'a [u8]) -> Reader<'a>
        ensures bytes { result.bytes ≡ bytes.entry }
        ensures at { result.at ≡ 0 }
    {
        Reader { bytes, at: 0 }
    }

    // How many bytes are left from its position on: none from one at or past the end.
    pub fn left(&self) -> usize
        ensures { result ≡ length (unread self.now) }
    {
        self.bytes.len().saturating_sub(self.at)
    }

    // The next record; the reader is moved past it. A refusal, 'finished' and 'more bytes' leave it.
    pub fn next(&mut self, st: State, last: bool) -> Result<Given, Stopped>
        ensures answer { answer_of result ≡ read last (rule st) (unread self.old) }
        ensures moved { self.new ≡ moved self.old (taken_by st last (unread self.old)) }
    {
        let given = next_at(st, self.bytes, self.at, last);
        self.at = given.at;
        given.next
    }
}
