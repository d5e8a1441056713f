// Where a run of the log program stands, and what it asks for there: the parts of a step.
#![tactic(auto)]

ghost use Rattle.std.specs.Prelude.{ℕ, ◌+◌, ◌-◌, ◌≤◌, ◌<◌, ◌≡◌, List, false, length};
ghost use Rattle.rules.specs.Rule.{read};
ghost use Rattle.error.specs.Number.{stop_of};
ghost use Rattle.lines.specs.Left.{left_line, too_long_line};
ghost use Rattle.chemstation.specs.Next.{rule};
ghost use Rattle.places.specs.declared.Phase.TheVariants.{Digit, Over};
ghost use Rattle.places.specs.Machine.{most, started, moved_to, writes, closes, refills, is_finished, closing_bytes, scan_left, ends_by, tells, tells_left, leaves, once_written, by_phase, IsStep, came, over, took_of, wrote_of};

use digits::Pen;
use error::{Refusal, Stopped};
use streams::{Mode, State};
use sums::Total;

// What a run does next.
// Kept: (d) a step goes by a match on it: its cases carry what each step needs, and a closure or a trait's object in the place of each
// would have to be stored in the place from step to step.
#[derive(Clone, Copy)]
pub enum Phase {
    // the digit is due, of a run that is opened by this reading
    Digit(Mode),
    // the header of a run of this kind
    // Kept: (d) any number: opening refuses those that are none, and a kind made of the digit here would have to keep that refusal.
    Header(Mode, u8),
    Records(State),
    // the log is closed with 0: so many bytes of the last scan were left, and so many of them are still due
    Ended(usize, usize),
    // 2^64 bytes or more, or as many records
    TooLong,
    Over,
}

// Where a run stands.
// Kept: (d) the buffers stay parameters beside it, and facts of them in the contracts: a step takes any place and any buffers, and closes
// what lies outside, so the facts are not the place's own; and each function asks for another one, two or three of the five, so that
// no one struct of place and buffers with ghost fields would be all of theirs.
#[derive(Clone, Copy)]
pub struct Place {
    pub phase: Phase,
    // the bytes of the input buffer that have come and are not consumed
    pub from: usize,
    pub to: usize,
    // whether the input has ended
    pub last: bool,
    // the bytes of the output buffer that are not written
    pub at: usize,
    // records
    pub count: usize,
    // what their unscaled values add up to; absent where no t line is due
    pub total: Total,
    // bytes of the input, the digit among them
    pub came: u64,
}

// What a run asks for, and where it stands then.
#[derive(Clone, Copy)]
pub enum Ask {
    // the first bytes of the output buffer, on standard output
    Write(Place, usize),
    // the same on standard error
    Tell(Place, usize),
    // a read into the input buffer behind its first bytes
    Read(Place, usize),
    Closed,
}

// Whether a run is finished, whatever follows.
// Kept: (b) the record loop is asked, so that the reader has one caller in the program, which the compiler then builds into the loop: by
// `next_record` itself here the log cost 51 to 88 instructions a record more.
fn finished(st: State, s: &[u8]) -> bool
    ensures { result ≡ is_finished (read false (rule st) s.now) }
{
    let mut line = [0u8; 70];
    let mut pen = Pen {
        out: &mut line,
        at: 0,
    };
    let w = runlog::log_records(st, s, false, &mut pen, None);
    matches!(w.closing, Err(Stopped::Finished))
}

// How many bytes the fields have that closed a run.
fn closing_bytes(st: State, s: &[u8]) -> usize
    ensures { (result ≡ closing_bytes st s.now) × (result ≤ length s.now) }
{
    (0..s.len())
        .find(|n| finished(st, &s[..*n]))
        .unwrap_or(s.len())
}

// The bytes of the last scan that a run leaves.
fn scan_left(st: State) -> usize
    ensures { result ≡ scan_left st }
{
    match st {
        State::Dad(d) => d.n_bytes_left.0,
        State::Fid(_)
        | State::Ms(_)
        | State::Mwd(_)
        | State::Uv(_)
        | State::Array(_)
        | State::AtlasDad(_)
        | State::AtlasUv(_) => 0,
    }
}

impl Place {
    // The start of a run that is opened by a reading.
    pub fn start(mode: Mode) -> Place
        ensures { result ≡ started mode }
    {
        Place {
            phase: Phase::Digit(mode),
            from: 0,
            to: 0,
            last: false,
            at: 0,
            count: 0,
            total: None,
            came: 0,
        }
    }

    // What stands in the output buffer is written.
    pub fn write(self) -> Ask
        ensures { (buf out : List ℕ) → IsStep (writes self self.phase buf out) result buf out }
    {
        Ask::Write(Place { at: 0, ..self }, self.at)
    }

    // The t line, if there is one, and the closing line are put behind it, and all is written.
    pub fn close(self, phase: Phase, z: Stopped, out: &mut [u8]) -> Ask
        requires { self.at + 68 ≤ length out.old }
        ensures { (buf : List ℕ) → IsStep (closes self phase (stop_of z) buf out.old) result buf out.new }
    {
        let mut pen = Pen { out, at: self.at };
        lines::put_total(&mut pen, self.total);
        lines::put_end(&mut pen, z, self.count);
        Ask::Write(
            Place {
                phase,
                at: 0,
                ..self
            },
            pen.at,
        )
    }

    // More bytes are due behind those at hand. If these fill the buffer, the run closes.
    pub fn refill(self, buf: &mut [u8], out: &mut [u8]) -> Ask
        requires { (self.from ≤ self.to) × (self.to ≤ length buf.old) × (self.at + 68 ≤ length out.old) }
        ensures { IsStep (refills self buf.old out.old) result buf.new out.new }
    {
        let n = self.to - self.from;
        if n == buf.len() {
            return self.close(Phase::Over, Stopped::MoreBytes, out);
        }
        buf.copy_within(self.from..self.to, 0);
        Ask::Read(
            Place {
                from: 0,
                to: n,
                ..self
            },
            n,
        )
    }

    // The run is closed with 0: the fields that closed it are consumed.
    pub fn end(self, st: State, hand: &[u8], out: &mut [u8]) -> Ask
        requires { (self.from + length hand.now ≤ self.to) × (self.at + 68 ≤ length out.old) }
        ensures { (buf : List ℕ) → IsStep (ends_by st self hand.now buf out.old) result buf out.new }
    {
        let due = scan_left(st);
        let q = Place {
            from: self.from + closing_bytes(st, hand),
            ..self
        };
        q.close(Phase::Ended(due, due), Stopped::Finished, out)
    }

    // What is left is told, if anything is.
    // Kept: (d) this and `tell_too_long` share a pen and an answer, one line each: a function over what is put would take a closure, and its
    // contract would be longer than both.
    fn tell_left(self, scan: usize, behind: usize, out: &mut [u8]) -> Ask
        requires { 128 ≤ length out.old }
        ensures { (buf : List ℕ) → IsStep (tells_left scan behind self buf out.old) result buf out.new }
    {
        if scan == 0 && behind == 0 {
            return Ask::Closed;
        }
        let mut pen = Pen { out, at: 0 };
        lines::put_left(&mut pen, scan, behind);
        Ask::Tell(self.silent(), pen.at)
    }

    // What is left of the last scan is passed over, and what is left is told.
    fn leave(self, all: usize, due: usize, out: &mut [u8]) -> Ask
        requires { (self.from ≤ self.to) × (128 ≤ length out.old) }
        ensures { (buf : List ℕ) → IsStep (leaves all due self buf out.old) result buf out.new }
    {
        let hand = self.to - self.from;
        let rest = due.saturating_sub(hand);
        if due < hand || self.last {
            return self.tell_left(all.saturating_sub(rest), hand.saturating_sub(due), out);
        }
        Ask::Read(
            Place {
                phase: Phase::Ended(all, rest),
                from: 0,
                to: 0,
                at: 0,
                ..self
            },
            0,
        )
    }

    // The digit is due.
    pub fn first(self, mode: Mode, out: &mut [u8]) -> Ask
        requires { self.at + 68 ≤ length out.old }
        ensures { (buf : List ℕ) → IsStep (by_phase (Digit mode) self buf out.old) result buf out.new }
    {
        if self.last {
            return self.close(Phase::Over, Stopped::Refused(Refusal::UnknownKind), out);
        }
        Ask::Read(
            Place {
                phase: Phase::Digit(mode),
                from: 0,
                to: 0,
                ..self
            },
            0,
        )
    }

    // That the input is too long is told.
    fn tell_too_long(self, out: &mut [u8]) -> Ask
        requires { 128 ≤ length out.old }
        ensures { (buf : List ℕ) → IsStep (tells self too_long_line buf out.old) result buf out.new }
    {
        let mut pen = Pen { out, at: 0 };
        lines::put_too_long(&mut pen);
        Ask::Tell(self.silent(), pen.at)
    }

    // What a run asks for once its log is closed and written.
    pub fn after(self, out: &mut [u8]) -> Ask
        requires { (self.from ≤ self.to) × (128 ≤ length out.old) }
        ensures { (buf : List ℕ) → IsStep (once_written self buf out.old) result buf out.new }
    {
        if self.at > 0 {
            return self.write();
        }
        match self.phase {
            Phase::Ended(all, due) => self.leave(all, due, out),
            Phase::TooLong => self.tell_too_long(out),
            Phase::Over | Phase::Digit(_) | Phase::Header(_, _) | Phase::Records(_) => Ask::Closed,
        }
    }

    // ---- what a read answers, and a write

    // So many bytes came behind those at hand. The first of them is the digit; the others are the file's.
    fn arrive(self, k: usize, buf: &[u8]) -> Place
        requires { (0 < k) × (self.to + k ≤ length buf.now) × (self.came + k ≤ most) }
        ensures { result ≡ came self.phase self k buf.now }
    {
        let grown = Place {
            to: self.to + k,
            came: self.came + k as u64,
            ..self
        };
        match self.phase {
            Phase::Digit(mode) => Place {
                phase: Phase::Header(mode, digits::kind_of(buf[self.to])),
                from: self.to + 1,
                ..grown
            },
            Phase::Header(_, _)
            | Phase::Records(_)
            | Phase::Ended(_, _)
            | Phase::TooLong
            | Phase::Over => grown,
        }
    }

    // Where a run stands when a read has given so many bytes.
    #[tactic(auto, unfolding(crate::specs::Machine::took_of))]
    pub fn took(self, k: usize, buf: &[u8]) -> Place
        ensures { result ≡ took_of self k buf.now }
    {
        if k == 0 {
            return Place { last: true, ..self };
        }
        if k > buf.len().saturating_sub(self.to) {
            return self.over();
        }
        if k as u64 > u64::MAX - self.came {
            return Place {
                phase: Phase::TooLong,
                ..self
            };
        }
        self.arrive(k, buf)
    }

    // Where it stands when a read has failed: nothing is asked for any more but to write what stands in the output buffer.
    pub fn over(self) -> Place
        ensures { result ≡ over self }
    {
        Place {
            phase: Phase::Over,
            ..self
        }
    }

    // The same, with nothing to write.
    fn silent(self) -> Place
        ensures { result ≡ moved_to self Over self.from self.to 0 self.count }
    {
        Place {
            at: 0,
            ..self.over()
        }
    }

    // Where it stands when all was written, or not.
    // Kept: (d) the flag is what the system answered, and the theorems about whole runs are over either answer.
    pub fn wrote(self, ok: bool) -> Place
        ensures { result ≡ wrote_of self ok }
    {
        if ok { self } else { self.silent() }
    }
}
