// Answers stored cases: frames from standard input, the texts of the answers to standard output.
#![tactic(auto)]

ghost use Rattle.std.specs.Prelude.{◌+◌, ◌*◌, ◌≤◌, ◌≡◌, length, IfOk, IfSome};
ghost use Rattle.replay.specs.Pens.{Stays};

use common::Number;
use digits::Pen;
use error::Stopped;
use fetch::fetch_text;
use metadata::ChemstationMetadata;
use std::io::{Read, Write};
use streams::State;

// ---- faults

// What should not be in the input: it is said, so that the comparison fails.
#[derive(Clone, Copy)]
enum Fault {
    // the input ends within a frame
    CutFrame,
    // a frame is longer than the buffer
    LongFrame,
    // a frame has no letter of a case
    EmptyFrame,
    // a letter is none of a case
    NoMode,
    // a case ends before its file
    CutCase,
    // a text is longer than the buffer
    LongText,
    // there are more frames than numbers
    ManyFrames,
}

impl Fault {
    fn line(self) -> &'static [u8] {
        match self {
            Fault::CutFrame => b"? a frame that is cut\n",
            Fault::LongFrame => b"? a frame longer than the buffer\n",
            Fault::EmptyFrame => b"? an empty frame\n",
            Fault::NoMode => b"? no such mode\n",
            Fault::CutCase => b"? a case that is cut\n",
            Fault::LongText => b"? a text longer than the buffer\n",
            Fault::ManyFrames => b"? more frames than can be numbered\n",
        }
    }
}

// ---- output

// Bytes of room before a case, one of its texts, and its closing line. A log longer than what a case then has left is a fault.
const CASE: usize = 32768;

// Bytes that a line takes at most.
const LINE: usize = 4096;

// Where the answers go. What the pen has put is written when its memory runs short; what can't be written is missing in the comparison.
#[derive(Drop)]
struct Output<'a, 'b, W> {
    to: &'a mut W,
    pen: Pen<'b>,
    ghost inside: { pen.at ≤ length pen.out.now },
    ghost long: { 32768 ≤ length pen.out.now },
}

impl<W: Write> Output<'_, '_, W> {
    // Writes what the pen has put.
    fn write(&mut self)
        ensures start { self.new.pen.at ≡ 0 }
    {
        let Output { to, pen } = self;
        let n = pen.at;
        let _ = to.write_all(&pen.out[..n]);
        pen.at = 0;
    }

    // Makes room for n bytes more.
    fn room(&mut self, n: usize)
        requires { n ≤ 32768 }
        ensures { self.new.pen.at + n ≤ length self.new.pen.out.now }
    {
        if self.pen.out.len() - self.pen.at < n {
            self.write();
        }
    }

    // Says what should not be.
    fn complain(&mut self, fault: Fault)
        ensures start { self.new.pen.at ≡ 0 }
    {
        self.write();
        let _ = self.to.write_all(fault.line());
    }

    // A closing line.
    fn put_end(&mut self, z: Stopped, count: usize) {
        self.room(LINE);
        lines::put_end(&mut self.pen, z, count);
    }

    // The line of a header.
    fn put_header(&mut self, edition: u32, size: usize) {
        self.room(LINE);
        lines::put_header(&mut self.pen, edition, size);
    }

    // The header, and its numbers and doubles.
    fn put_description(&mut self, d: ChemstationMetadata) {
        self.put_header(d.edition, d.size);
        self.room(LINE);
        put_numbers(&mut self.pen, d);
        put_doubles(&mut self.pen, d);
    }

    // The line of a text by its number, fetched into lent memory. What is refused has a closing line.
    fn put_text(&mut self, kind: u8, number: u8, s: &[u8], lent: &mut [u8])
        requires { length lent.old ≤ 1024 }
    {
        // the units replaced are no part of the original's answer
        match fetch_text(kind, number, s, lent) {
            Err(r) => self.put_end(Stopped::Refused(r), 0),
            Ok(text) => self.put_found(number, &lent[..text.bytes]),
        }
    }

    // The line of a text that was fetched.
    fn put_found(&mut self, number: u8, text: &[u8])
        requires { length text.now ≤ 1024 }
    {
        self.room(LINE);
        lines::put_letter(&mut self.pen, b't');
        self.pen.put_number(u64::from(number), b' ');
        put_hex(&mut self.pen, text);
        self.pen.put_byte(b'\n');
    }

    // The eight texts.
    fn put_texts(&mut self, kind: u8, s: &[u8]) {
        let mut lent = [0u8; 1024];
        for number in 1..9 {
            self.room(CASE);
            self.put_text(kind, number, s, &mut lent);
        }
    }

    // The records behind a header, all bytes at hand in each call, and the closing line.
    fn put_records(&mut self, st: State, s: &[u8], last: bool) -> Result<(), Fault> {
        let w = runlog::log_records(st, s, last, &mut self.pen, None);
        match w.closing {
            Ok(()) => Err(Fault::LongText),
            Err(z) => {
                self.room(CASE);
                self.put_end(z, w.count);
                Ok(())
            }
        }
    }

    // The line that begins the answer to a case.
    fn put_case_number(&mut self, number: u64) {
        self.room(CASE);
        lines::put_letter(&mut self.pen, b'=');
        self.pen.put_number(number, b'\n');
    }
}

// A text, two digits a byte.
fn put_hex(pen: &mut Pen<'_>, text: &[u8])
    requires { pen.old.at + 2 * length text.now ≤ length pen.old.out.now }
    ensures end { pen.new.at ≡ pen.old.at + 2 * length text.now }
    ensures stays { Stays pen.old pen.new }
{
    // A pen of its own, which no byte that is put can change: so the compiler keeps its index in a register.
    let mut own = Pen {
        out: &mut *pen.out,
        at: pen.at,
    };
    for b in text {
        own.put_digits(16, 2, u64::from(*b));
    }
    pen.at = own.at;
}

fn put_numbers(pen: &mut Pen<'_>, d: ChemstationMetadata)
    requires { pen.old.at + 65 ≤ length pen.old.out.now }
    ensures upper_bound { pen.new.at ≤ pen.old.at + 65 }
    ensures stays { Stays pen.old pen.new }
{
    lines::put_letter(pen, b'n');
    pen.put_number(u64::from(d.sequence), b' ');
    pen.put_number(u64::from(d.vial), b' ');
    pen.put_number(u64::from(d.replicate), b'\n');
}

fn put_doubles(pen: &mut Pen<'_>, d: ChemstationMetadata)
    requires { pen.old.at + 70 ≤ length pen.old.out.now }
    ensures upper_bound { pen.new.at ≤ pen.old.at + 70 }
    ensures stays { Stays pen.old pen.new }
{
    lines::put_letter(pen, b'd');
    lines::put_double(pen, d.start_time, b' ');
    lines::put_double(pen, d.end_time, b' ');
    lines::put_double(pen, d.offset_correction, b' ');
    lines::put_double(pen, d.mult_correction, b'\n');
}

// ---- cases

// What a case asks for.
#[derive(Clone, Copy)]
enum Case {
    Header,
    // a log, all bytes of the file at hand
    Whole,
    // a log, more bytes may follow
    Part,
    Fetch,
}

impl TryFrom<u8> for Case {
    type Error = Fault;

    fn try_from(letter: u8) -> Result<Case, Fault> {
        match letter {
            b'h' => Ok(Case::Header),
            b'w' => Ok(Case::Whole),
            b's' => Ok(Case::Part),
            b'f' => Ok(Case::Fetch),
            _ => Err(Fault::NoMode),
        }
    }
}

fn header_case<W: Write>(kind: u8, s: &[u8], output: &mut Output<'_, '_, W>) {
    match metadata::open_header(kind, s, true) {
        Err(z) => output.put_end(z, 0),
        Ok(o) => {
            output.put_description(o.metadata);
            output.put_texts(kind, s);
        }
    }
}

fn log_case<W: Write>(
    kind: u8,
    s: &[u8],
    last: bool,
    output: &mut Output<'_, '_, W>,
) -> Result<(), Fault> {
    match opening::open_run(kind, s, last) {
        Err(z) => {
            output.put_end(z, 0);
            Ok(())
        }
        Ok(run) => {
            output.put_header(run.metadata.edition, run.metadata.size);
            output.put_records(run.state, &s[run.size..], last)
        }
    }
}

// Fetch alone: the number of the text, the length of the memory to lend, the kind digit, the file.
fn fetch_case<W: Write>(s: &[u8], output: &mut Output<'_, '_, W>) -> Result<(), Fault> {
    let [number, length, digit, file @ ..] = s else {
        return Err(Fault::CutCase);
    };
    let mut lent = [0u8; 1024];
    let n = usize::from(*length);
    output.put_text(digits::kind_of(*digit), *number, file, &mut lent[..n]);
    Ok(())
}

// A case by its letter, what stands behind it: a kind digit that may be missing, and the file.
fn answer<W: Write>(s: &[u8], output: &mut Output<'_, '_, W>) -> Result<(), Fault> {
    let (letter, rest) = s.split_first().ok_or(Fault::EmptyFrame)?;
    let kind = digits::kind_of(rest.first().copied().unwrap_or(0));
    let file = rest.get(1..).unwrap_or(b"");
    match Case::try_from(*letter)? {
        Case::Header => {
            header_case(kind, file, output);
            Ok(())
        }
        Case::Whole => log_case(kind, file, true, output),
        Case::Part => log_case(kind, file, false, output),
        Case::Fetch => fetch_case(rest, output),
    }
}

// The case of a frame, behind its number. What is wrong with it is said, and the next one follows.
fn put_case<W: Write>(s: &[u8], number: u64, output: &mut Output<'_, '_, W>) {
    output.put_case_number(number);
    if let Err(fault) = answer(s, output) {
        output.complain(fault);
    }
}

// ---- input

// Reads until the buffer is full, the input ends or a read fails, and answers how many bytes came.
// Kept: (d) `read_exact` tells no count, and a failed read ends the frame as the input's end does.
fn read_full<R: Read>(input: &mut R, buf: &mut [u8]) -> usize
    ensures { result ≤ length buf.old }
{
    let mut done: usize = 0;
    while done < buf.len() {
        match input.read(&mut buf[done..]) {
            Ok(0) | Err(_) => return done,
            Ok(n) => done += n,
        }
    }
    done
}

// The next frame, in lent memory, and none where the input has ended.
fn next_frame<'b, R: Read>(input: &mut R, buf: &'b mut [u8]) -> Result<Option<&'b [u8]>, Fault>
    ensures { IfOk result (λ frame. IfSome frame (λ s. length s.now ≤ length buf.old)) }
{
    let mut head = [0u8; 4];
    match read_full(input, &mut head) {
        0 => return Ok(None),
        1..=3 => return Err(Fault::CutFrame),
        _ => {}
    }
    let n = u32::be_at(&head, 0) as usize;
    if n > buf.len() {
        return Err(Fault::LongFrame);
    }
    if read_full(input, &mut buf[..n]) < n {
        return Err(Fault::CutFrame);
    }
    Ok(Some(&buf[..n]))
}

// All frames. What is wrong with the input is said, so that no case is passed over in silence.
fn replay<R: Read, W: Write>(input: &mut R, output: &mut Output<'_, '_, W>, buf: &mut [u8]) {
    for number in 0..u64::MAX {
        match next_frame(input, buf) {
            Ok(Some(frame)) => put_case(frame, number + 1, output),
            Ok(None) => return output.write(),
            Err(fault) => return output.complain(fault),
        }
    }
    output.complain(Fault::ManyFrames);
}

// Kept: (a) no heap: the memory for a frame and for the answers is fixed.
fn main(rt: HostRuntime) {
    let mut buf = [0u8; 65536];
    let mut out = [0u8; 65536];
    let mut to = rt.stdout();
    let pen = Pen {
        out: &mut out,
        at: 0,
    };
    let mut output = Output { to: &mut to, pen };
    replay(&mut rt.stdin(), &mut output, &mut buf);
}
