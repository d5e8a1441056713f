// The loop that reads records and puts their lines, and the theorem that a file has one log.
#![tactic(auto)]

ghost use Rattle.std.specs.Prelude.{◌-◌, ◌≤◌, length};
ghost use Rattle.runlog.specs.Runs.{logged, LoggedBy};
ghost use Rattle.runlog.specs.Log.{OneLog};

use digits::Pen;
use error::Stopped;
use streams::State;
use sums::Total;
use tally::Tally;

// How far a part of the bytes was logged.
#[derive(Clone, Copy)]
pub struct Logged {
    // the state after the last record
    pub state: State,
    // the first byte that is not consumed
    pub from: usize,
    pub count: usize,
    // what the unscaled values add up to
    pub total: Total,
    // Ok: the room for lines is used up
    pub closing: Result<(), Stopped>,
}

// Reads records from src, adds their unscaled values to the total and puts their lines by the pen, until its memory has no room for a
// line or there is another answer than a record.
pub fn log_records(st: State, src: &[u8], last: bool, pen: &mut Pen<'_>, total: Total) -> Logged
    requires { pen.old.at ≤ length pen.old.out.now }
    ensures { LoggedBy (logged (length pen.old.out.now - pen.old.at) last st src.now) pen.old total result pen.new }
{
    let mut cur = st;
    let mut f = 0;
    let mut count: usize = 0;
    let mut sum = Tally::start(total);
    // A pen of its own, which no byte that is put can change: so the compiler keeps its index in a register.
    let mut own = Pen {
        out: &mut *pen.out,
        at: pen.at,
    };
    // Kept: (d) each turn takes as many bytes and puts as long a line as its record has, so no range counts the turns; the reader's loop of
    // columns ends by their length, where this one ends by the room that is left, and both are over `next_record`.
    while own.out.len() - own.at >= 70 {
        match chemstation::next_record(cur, &src[f..], last) {
            Err(z) => {
                pen.at = own.at;
                return Logged {
                    state: cur,
                    from: f,
                    count,
                    total: sum.total(),
                    closing: Err(z),
                };
            }
            Ok(given) => {
                sum = sum.add(given.record.unscaled());
                lines::put_record(&mut own, given.record);
                cur = given.state;
                f += given.bytes;
                count += 1;
            }
        }
    }
    pen.at = own.at;
    Logged {
        state: cur,
        from: f,
        count,
        total: sum.total(),
        closing: Ok(()),
    }
}

// Nothing to compute: the contract is the theorem that every file has one log, and what the buffer's size is to it.
pub fn one_log()
    ensures { OneLog }
{}
