// The log program's input and output: what the machine asks for is read and written.
#![tactic(auto)]

ghost use Rattle.std.specs.Prelude.{ℕ, ◌≤◌, ◌<◌, ◌≡◌, List, length, take, IsTrue, IfSome, IfOk, IsOk, ◌++◌};
ghost use Rattle.std.specs.Io.KnownBytes.{Appends};
ghost use Rattle.places.specs.declared.Ask.TheVariants as ask;
ghost use Rattle.places.specs.Machine.{most};
ghost use Rattle.runs.specs.Whole.{weight, Falls};
ghost use Rattle.logger.specs.Shell.{name_of, place_of, TookPart, Logged};

use places::{Ask, Place};
use std::io;
use std::io::{Cursor, Read, Write};
use streams::Mode;

// How many bytes the words of a failure may have.
const WORDS: usize = 128;

// The system's words without the number that std puts behind them.
fn without_number(text: &[u8]) -> &[u8]
    ensures { length result.now ≤ length text.now }
{
    match text.iter().rposition(|b| *b == b'(') {
        Some(i) => &text[..i.saturating_sub(1)],
        None => text,
    }
}

// The system's words for a failure, in lent memory.
fn words_of<'a>(e: &io::Error, words: &'a mut [u8]) -> &'a [u8]
    ensures { length result.now ≤ length words.old }
{
    let mut text = Cursor::new(&mut words[..]);
    let _ = write!(text, "{e}");
    let n = (text.position() as usize).min(words.len());
    without_number(&words[..n])
}

// The name of the program that reads so, before what it tells.
fn name(mode: Mode) -> &'static [u8]
    ensures { result.now ≡ name_of mode }
{
    match mode {
        Mode::Plain => b"chemlog: ",
        Mode::Atlas => b"atlaslog: ",
    }
}

// What could not be read or written, by the name of the program that does.
// Kept: (d) two literals each, and not the name in front of the rest: then a failure is told in one write more.
fn input_of(mode: Mode) -> &'static [u8] {
    match mode {
        Mode::Plain => b"chemlog: standard input",
        Mode::Atlas => b"atlaslog: standard input",
    }
}

fn output_of(mode: Mode) -> &'static [u8] {
    match mode {
        Mode::Plain => b"chemlog: standard output",
        Mode::Atlas => b"atlaslog: standard output",
    }
}

// Where a run stands behind what it asked for; an Err where that was not done whole: the run is then over, and what stands in the
// output buffer may still be written.
type Stand = Result<Place, Place>;

// Where it is told what failed, behind the name of the program that reads so.
#[derive(Drop)]
struct Teller<'a, E> {
    mode: Mode,
    to: &'a mut E,
}

impl<E: Write> Teller<'_, E> {
    // Tells what failed and why, in a line.
    // Kept: (d) no `write!`: the system's words are bytes, cut where the memory ends, and so no text that it takes.
    fn fail(&mut self, what: &[u8], e: &io::Error)
        ensures { self.new.mode ≡ self.old.mode }
    {
        let mut memory = [0u8; WORDS];
        let words = words_of(e, &mut memory);
        let _ = self.to.write_all(what);
        let _ = self.to.write_all(b": ");
        let _ = self.to.write_all(words);
        let _ = self.to.write_all(b"\n");
    }

    // Where a run stands when a text was written, or not. What could not be written is told, and ends the run.
    fn written(&mut self, q: Place, done: io::Result<()>) -> Stand
        ensures mode { self.new.mode ≡ self.old.mode }
        ensures falls { (p : Place) → weight q < weight p → weight (place_of result) < weight p }
        ensures ok { IfOk result (λ r. IsOk done × (r ≡ q)) }
        ensures same { IsOk done → self.new.to.now ≡ self.old.to.now }
    {
        match done {
            Ok(()) => Ok(q.wrote(true)),
            Err(e) => {
                self.fail(output_of(self.mode), &e);
                Err(q.wrote(false))
            }
        }
    }

    // Tells the first n bytes.
    fn tell(&mut self, q: Place, n: usize, out: &[u8]) -> Stand
        requires { n ≤ length out.now }
        ensures mode { self.new.mode ≡ self.old.mode }
        ensures falls { (p : Place) → weight q < weight p → weight (place_of result) < weight p }
        ensures told { IfOk result (λ r. Appends (E.contents self.old.to.now) (E.contents self.new.to.now) (name_of self.old.mode ++ take n out.now) × (r ≡ q)) }
    {
        let named = self.to.write_all(name(self.mode));
        let done = self.to.write_all(&out[..n]);
        let after = self.written(q, done)?;
        match named {
            Ok(()) => Ok(after),
            Err(_) => Err(after),
        }
    }
}

// Reads behind the first n bytes. A read that fails is told, and ends the run.
fn read_more<R: Read, E: Write>(
    input: &mut R,
    teller: &mut Teller<'_, E>,
    q: Place,
    n: usize,
    buf: &mut [u8],
) -> Stand
    requires { n < length buf.old }
    ensures mode { teller.new.mode ≡ teller.old.mode }
    ensures falls { (p : Place) (old text : List ℕ) → Falls p old text (ask.Read q n) → weight (place_of result) < weight p }
    ensures took { IfOk result (λ r. IfSome (R.remaining input.old)
        (λ xs. TookPart q n buf.old buf.new xs (R.remaining input.new) r)) }
{
    match input.read(&mut buf[n..]) {
        Ok(k) => Ok(q.took(k, buf)),
        Err(e) => {
            teller.fail(input_of(teller.mode), &e);
            Err(q.over())
        }
    }
}

// Writes the first n bytes. A write that fails is told, and ends the run.
fn write_out<W: Write, E: Write>(
    output: &mut W,
    teller: &mut Teller<'_, E>,
    q: Place,
    n: usize,
    out: &[u8],
) -> Stand
    requires { n ≤ length out.now }
    ensures mode { teller.new.mode ≡ teller.old.mode }
    ensures falls { (p : Place) → weight q < weight p → weight (place_of result) < weight p }
    ensures wrote { IfOk result (λ r. Appends (W.contents output.old) (W.contents output.new) (take n out.now) × (r ≡ q)) }
{
    let done = output.write_all(&out[..n]);
    teller.written(q, done)
}

// The whole program, by a reading. Answers whether all was read and written; then what was written is the log of the input.
pub fn log_input<R: Read, W: Write, E: Write>(
    mode: Mode,
    input: &mut R,
    output: &mut W,
    errors: &mut E,
    buf: &mut [u8],
    out: &mut [u8],
) -> bool
    ensures { IsTrue result → 1 ≤ length buf.old → 128 ≤ length out.old →
        IfSome (R.remaining input.old) (λ xs. length xs ≤ most →
        IfSome (W.contents output.old) (λ ys. Logged mode (length buf.old) xs ys (W.contents output.new))) }
{
    let mut teller = Teller { mode, to: errors };
    let mut whole = true;
    let mut p = Place::start(mode);
    loop {
        let after = match machine::step(p, buf, out) {
            Ask::Closed => return whole,
            Ask::Write(q, n) => write_out(output, &mut teller, q, n, out),
            Ask::Tell(q, n) => teller.tell(q, n, out),
            Ask::Read(q, n) => read_more(input, &mut teller, q, n, buf),
        };
        p = match after {
            Ok(q) => q,
            Err(q) => {
                whole = false;
                q
            }
        };
    }
}

// The same in buffers of 32,768 bytes, as the log programs have them.
// Kept: (a) no heap: the memory is fixed, refilled and passed in parts.
pub fn run<R: Read, W: Write, E: Write>(
    mode: Mode,
    input: &mut R,
    output: &mut W,
    errors: &mut E,
) -> bool
    ensures { IsTrue result → IfSome (R.remaining input.old) (λ xs. length xs ≤ most →
        IfSome (W.contents output.old) (λ ys. Logged mode 32768 xs ys (W.contents output.new))) }
{
    let mut buf = [0u8; 32768];
    let mut out = [0u8; 32768];
    log_input(mode, input, output, errors, &mut buf, &mut out)
}

#[cfg(test)]
mod tests {
    use super::*;
    use std::test::Fail;

    // Fails as the system does by its error of this number.
    #[derive(Drop)]
    struct Broken(i32);

    impl Read for Broken {
        fn read(&mut self, _buf: &mut [u8]) -> io::Result<usize> {
            Err(io::Error::from_raw_os_error(self.0))
        }
    }

    impl Write for Broken {
        fn write(&mut self, _buf: &[u8]) -> io::Result<usize> {
            Err(io::Error::from_raw_os_error(self.0))
        }

        fn flush(&mut self) -> io::Result<()> {
            Ok(())
        }
    }

    #[test]
    fn an_input_without_a_digit(rt: HostRuntime) -> Result<(), Fail> {
        let mut output = Vec::new(rt.alloc());
        let mut errors = Vec::new(rt.alloc());
        let mut buf = [0u8; 256];
        let mut out = [0u8; 256];
        let whole = log_input(
            Mode::Plain,
            &mut b"".as_slice(),
            &mut output,
            &mut errors,
            &mut buf,
            &mut out,
        );
        assert!(rt; whole);
        assert_eq!(rt; output.as_slice(), b"e 1 0\n".as_slice());
        assert_eq!(rt; errors.as_slice(), b"".as_slice());
        Ok(())
    }

    #[test]
    fn a_read_that_fails(rt: HostRuntime) -> Result<(), Fail> {
        let mut output = Vec::new(rt.alloc());
        let mut errors = Vec::new(rt.alloc());
        let mut buf = [0u8; 256];
        let mut out = [0u8; 256];
        let whole = log_input(
            Mode::Atlas,
            &mut b"4".as_slice().chain(Broken(5)),
            &mut output,
            &mut errors,
            &mut buf,
            &mut out,
        );
        assert!(rt; !whole);
        assert_eq!(rt; output.as_slice(), b"".as_slice());
        assert_eq!(rt;
            errors.as_slice(),
            b"atlaslog: standard input: Input/output error\n".as_slice()
        );
        Ok(())
    }

    #[test]
    fn a_write_that_fails(rt: HostRuntime) -> Result<(), Fail> {
        let mut errors = Vec::new(rt.alloc());
        let mut buf = [0u8; 256];
        let mut out = [0u8; 256];
        let whole = log_input(
            Mode::Plain,
            &mut b"1".as_slice(),
            &mut Broken(28),
            &mut errors,
            &mut buf,
            &mut out,
        );
        assert!(rt; !whole);
        assert_eq!(rt;
            errors.as_slice(),
            b"chemlog: standard output: No space left on device\n".as_slice()
        );
        Ok(())
    }
}
