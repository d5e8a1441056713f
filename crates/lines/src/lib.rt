// The lines of a log, put by a pen.
// Kept: (d) no `write!`: it says what it wrote only with an Ok, which no clause promises (see digits), so that each line could fail.
#![tactic(auto)]

ghost use Rattle.std.specs.Prelude.{◌+◌, ◌≤◌, [], ◌∷◌, length};
ghost use Rattle.error.specs.Number.{stop_of};
ghost use Rattle.digits.specs.Put.{Puts};
ghost use Rattle.lines.specs.Left.{behind_text, more_text, scan_text, left_line, too_long_line};
ghost use Rattle.lines.specs.Lines.{double_text, time_text, values_text, point_line, record_line, header_line, total_line, answer_text, end_line};

use digits::Pen;
use error::Stopped;
use floats::f64_to_bits;
use streams::Record;
use sums::Total;

// nan, byte by byte: a text is copied by a function that looks first where it lies, and an array may be of NaNs alone.
#[inline(always)]
fn put_nan(pen: &mut Pen<'_>)
    requires { pen.old.at + 3 ≤ length pen.old.out.now }
    ensures { Puts (110 ∷ 97 ∷ 110 ∷ []) pen.old pen.new }
{
    pen.put_byte(b'n');
    pen.put_byte(b'a');
    pen.put_byte(b'n');
}

// A double's bits, or nan, and what ends the field.
#[inline(always)]
pub fn put_double(pen: &mut Pen<'_>, x: f64, sep: u8)
    requires { pen.old.at + 17 ≤ length pen.old.out.now }
    ensures put { Puts (double_text x sep) pen.old pen.new }
    ensures upper_bound { pen.new.at ≤ pen.old.at + 17 }
{
    match f64_to_bits(x) {
        Some(n) => pen.put_bits(n),
        None => put_nan(pen),
    }
    pen.put_byte(sep);
}

// A line's letter.
#[inline(always)]
pub fn put_letter(pen: &mut Pen<'_>, b: u8)
    requires { pen.old.at + 2 ≤ length pen.old.out.now }
    ensures { Puts (b ∷ 32 ∷ []) pen.old pen.new }
{
    pen.put_byte(b);
    pen.put_byte(b' ');
}

// The letter and the time of a record.
#[inline(always)]
fn put_time(pen: &mut Pen<'_>, t: f64)
    requires { pen.old.at + 19 ≤ length pen.old.out.now }
    ensures put { Puts (time_text t) pen.old pen.new }
    ensures upper_bound { pen.new.at ≤ pen.old.at + 19 }
{
    put_letter(pen, b'r');
    put_double(pen, t, b' ');
}

// The values of a record, unscaled and scaled, to the end of its line.
#[inline(always)]
fn put_values(pen: &mut Pen<'_>, u: f64, s: f64)
    requires { pen.old.at + 34 ≤ length pen.old.out.now }
    ensures put { Puts (values_text u s) pen.old pen.new }
    ensures upper_bound { pen.new.at ≤ pen.old.at + 34 }
{
    put_double(pen, u, b' ');
    put_double(pen, s, b'\n');
}

// The line of a record on an axis.
#[inline(always)]
fn put_point(pen: &mut Pen<'_>, t: f64, x: f64, u: f64, s: f64)
    requires { pen.old.at + 70 ≤ length pen.old.out.now }
    ensures put { Puts (point_line t x u s) pen.old pen.new }
    ensures upper_bound { pen.new.at ≤ pen.old.at + 70 }
{
    put_time(pen, t);
    put_double(pen, x, b' ');
    put_values(pen, u, s);
}

// The line of a record.
#[tactic(auto, unfolding(crate::specs::Lines::record_line))]
#[inline(always)]
pub fn put_record(pen: &mut Pen<'_>, r: Record)
    requires { pen.old.at + 70 ≤ length pen.old.out.now }
    ensures put { Puts (record_line r) pen.old pen.new }
    ensures upper_bound { pen.new.at ≤ pen.old.at + 70 }
{
    match r {
        Record::Trace {
            time,
            unscaled,
            scaled,
        } => {
            put_time(pen, time);
            put_letter(pen, b'-');
            put_values(pen, unscaled, scaled);
        }
        Record::Mass {
            time,
            mz,
            unscaled,
            scaled,
            ..
        } => put_point(pen, time, mz, unscaled, scaled),
        Record::Spectrum {
            time,
            wavelength,
            unscaled,
            scaled,
            ..
        } => put_point(pen, time, wavelength, unscaled, scaled),
    }
}

// The line of a header.
pub fn put_header(pen: &mut Pen<'_>, edition: u32, size: usize)
    requires { pen.old.at + 44 ≤ length pen.old.out.now }
    ensures put { Puts (header_line edition size) pen.old pen.new }
    ensures upper_bound { pen.new.at ≤ pen.old.at + 44 }
{
    put_letter(pen, b'h');
    pen.put_number(u64::from(edition), b' ');
    pen.put_number(size as u64, b'\n');
}

// The line of a total, if there is one.
pub fn put_total(pen: &mut Pen<'_>, t: Total)
    requires { pen.old.at + 24 ≤ length pen.old.out.now }
    ensures put { Puts (total_line t) pen.old pen.new }
    ensures upper_bound { pen.new.at ≤ pen.old.at + 24 }
{
    match t {
        None => {}
        Some(Ok(n)) => {
            put_letter(pen, b't');
            pen.put_signed(n, b'\n');
        }
        Some(Err(_)) => pen.put_text(b"t -\n"),
    }
}

// The closing answer, and what ends its field.
#[tactic(auto, unfolding(crate::specs::Lines::answer_text))]
fn put_answer(pen: &mut Pen<'_>, z: Stopped)
    requires { pen.old.at + 21 ≤ length pen.old.out.now }
    ensures put { Puts (answer_text (stop_of z)) pen.old pen.new }
    ensures upper_bound { pen.new.at ≤ pen.old.at + 21 }
{
    match z {
        Stopped::Finished => pen.put_number(0, b' '),
        Stopped::Refused(c) => pen.put_number(u64::from(u8::from(c)), b' '),
        Stopped::MoreBytes => put_letter(pen, b'm'),
    }
}

// The line that closes a log.
pub fn put_end(pen: &mut Pen<'_>, z: Stopped, count: usize)
    requires { pen.old.at + 44 ≤ length pen.old.out.now }
    ensures put { Puts (end_line (stop_of z) count) pen.old pen.new }
    ensures upper_bound { pen.new.at ≤ pen.old.at + 44 }
{
    put_letter(pen, b'e');
    put_answer(pen, z);
    pen.put_number(count as u64, b'\n');
}

// ---- what is told on standard error

// So many bytes stand in the buffer behind the end of the run.
fn put_behind(pen: &mut Pen<'_>, behind: usize)
    requires { pen.old.at + 67 ≤ length pen.old.out.now }
    ensures put { Puts (behind_text behind) pen.old pen.new }
    ensures upper_bound { pen.new.at ≤ pen.old.at + 67 }
{
    pen.put_number(behind as u64, b' ');
    pen.put_text(b"bytes in the buffer behind the end of the run\n");
}

// What follows the bytes of the last scan.
fn put_more(pen: &mut Pen<'_>, behind: usize)
    requires { pen.old.at + 69 ≤ length pen.old.out.now }
    ensures put { Puts (more_text behind) pen.old pen.new }
    ensures upper_bound { pen.new.at ≤ pen.old.at + 69 }
{
    if behind == 0 {
        return pen.put_byte(b'\n');
    }
    pen.put_text(b", ");
    put_behind(pen, behind);
}

// The bytes left of the last scan, and those behind it.
fn put_scan(pen: &mut Pen<'_>, scan: usize, behind: usize)
    requires { pen.old.at + 112 ≤ length pen.old.out.now }
    ensures put { Puts (scan_text scan behind) pen.old pen.new }
    ensures upper_bound { pen.new.at ≤ pen.old.at + 112 }
{
    if scan == 0 {
        return put_behind(pen, behind);
    }
    pen.put_number(scan as u64, b' ');
    pen.put_text(b"bytes of the last scan");
    put_more(pen, behind);
}

// The line that tells what is left where a run closes with 0.
pub fn put_left(pen: &mut Pen<'_>, scan: usize, behind: usize)
    requires { pen.old.at + 128 ≤ length pen.old.out.now }
    ensures put { Puts (left_line scan behind) pen.old pen.new }
    ensures upper_bound { pen.new.at ≤ pen.old.at + 128 }
{
    pen.put_text(b"left: ");
    put_scan(pen, scan, behind);
}

// The line that tells that the input was too long.
#[tactic(auto, unfolding(crate::specs::Left::too_long_line))]
pub fn put_too_long(pen: &mut Pen<'_>)
    requires { pen.old.at + 128 ≤ length pen.old.out.now }
    ensures put { Puts too_long_line pen.old pen.new }
    ensures upper_bound { pen.new.at ≤ pen.old.at + 128 }
{
    pen.put_text(b"the log is too long\n");
}
