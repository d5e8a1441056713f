// The log program without input and output: a run as a machine over two lent buffers, that asks for what it needs.
#![tactic(auto)]

ghost use Rattle.std.specs.Prelude.{◌+◌, ◌≤◌, ◌≡◌, length};
ghost use Rattle.rules.specs.Rule.{read};
ghost use Rattle.rules.specs.Calls.{stopped};
ghost use Rattle.error.specs.Number.{stop_of};
ghost use Rattle.modes.specs.Modes.{open_by};
ghost use Rattle.runlog.specs.Log.{first_total};
ghost use Rattle.places.specs.Machine.{at_hand, fits, goes_on, logs_records, opens, step_of, IsStep};

use digits::Pen;
use error::Stopped;
use modes::open_by;
use places::{Ask, Phase, Place};
use streams::{Mode, State};
use sums::Total;

// What an answer other than a record leads to.
fn go_on(p: Place, st: State, z: Stopped, buf: &mut [u8], out: &mut [u8]) -> Ask
    requires { (p.from ≤ p.to) × (p.to ≤ length buf.old) × (p.at + 68 ≤ length out.old) }
    ensures { IsStep (goes_on p st (stopped (stop_of z)) buf.old out.old) result buf.new out.new }
{
    match z {
        Stopped::MoreBytes => p.refill(buf, out),
        Stopped::Finished => p.end(st, &buf[p.from..p.to], out),
        Stopped::Refused(_) => p.close(Phase::Over, z, out),
    }
}

// Logs the records at hand, and goes on by the answer.
fn log_hand(st: State, p: Place, buf: &mut [u8], out: &mut [u8]) -> Ask
    requires { (p.from ≤ p.to) × (p.to ≤ length buf.old) × (p.at ≤ length out.old) }
    ensures { IsStep (logs_records st p buf.old out.old) result buf.new out.new }
{
    let hand = &buf[p.from..p.to];
    let mut pen = Pen { out, at: p.at };
    let w = runlog::log_records(st, hand, p.last, &mut pen, p.total);
    let left = p.from + w.from;
    if w.count > usize::MAX - p.count {
        let q = Place {
            phase: Phase::TooLong,
            from: left,
            at: pen.at,
            ..p
        };
        return q.write();
    }
    let q = Place {
        phase: Phase::Records(w.state),
        from: left,
        at: pen.at,
        count: p.count + w.count,
        total: w.total,
        ..p
    };
    match w.closing {
        Ok(()) => q.write(),
        Err(z) => go_on(q, w.state, z, buf, pen.out),
    }
}

// The total before the first record: an array's values are not added up.
// Kept: (d) the number, since the log's definition is over it: by the state that was opened it would be as short, and want a lemma that
// kind 6 alone opens an array.
fn first_total(kind: u8) -> Total
    ensures { result ≡ first_total kind }
{
    if kind == 6 { None } else { Some(Ok(0)) }
}

// Opens the run by its reading, and logs the records at hand behind its header.
fn open(mode: Mode, kind: u8, p: Place, buf: &mut [u8], out: &mut [u8]) -> Ask
    requires { (p.from ≤ p.to) × (p.to ≤ length buf.old) × (p.at + 68 ≤ length out.old) }
    ensures { IsStep (opens mode kind p buf.old out.old (read p.last (open_by mode kind) (at_hand buf.old p))) result buf.new out.new }
{
    match open_by(mode, kind, &buf[p.from..p.to], p.last) {
        Err(z) => match z {
            Stopped::MoreBytes => p.refill(buf, out),
            Stopped::Finished | Stopped::Refused(_) => p.close(Phase::Over, z, out),
        },
        Ok(run) => {
            let mut pen = Pen { out, at: p.at };
            lines::put_header(&mut pen, run.metadata.edition, run.metadata.size);
            let q = Place {
                phase: Phase::Records(run.state),
                from: p.from + run.size,
                at: pen.at,
                total: first_total(kind),
                ..p
            };
            log_hand(run.state, q, buf, pen.out)
        }
    }
}

// Whether the numbers of a place lie in the buffers.
fn in_bounds(p: Place, buf: &[u8], out: &[u8]) -> bool
    ensures { result ≡ fits p buf.now out.now }
{
    p.from <= p.to && p.to <= buf.len() && p.at <= out.len() && 1 <= buf.len() && 128 <= out.len()
}

// One step of a run: what it asks for, and where it stands then. A place that lies outside the buffers is closed.
// Kept: (d) it goes by a match on the phase, an enum of this program: see `Phase`.
pub fn step(p: Place, buf: &mut [u8], out: &mut [u8]) -> Ask
    ensures { IsStep (step_of p buf.old out.old) result buf.new out.new }
{
    if !in_bounds(p, buf, out) {
        return Ask::Closed;
    }
    if out.len() - p.at < 70 {
        return p.write();
    }
    match p.phase {
        Phase::Digit(mode) => p.first(mode, out),
        Phase::Header(mode, kind) => open(mode, kind, p, buf, out),
        Phase::Records(st) => log_hand(st, p, buf, out),
        Phase::Ended(_, _) | Phase::TooLong | Phase::Over => p.after(out),
    }
}
