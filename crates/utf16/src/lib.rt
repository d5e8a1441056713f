// UTF-16 made into UTF-8, in a lent buffer.
#![tactic(auto)]

ghost use Rattle.std.specs.Prelude.{IfSome, MatchOption, ◌≡◌, List, ◌++◌, ℕ, ◌+◌, ◌≤◌, ◌<◌, leb, length, drop};
ghost use Rattle.std.specs.Iterator.{at_most};
ghost use Rattle.utf8.specs.Utf8.{encode, six, Utf8};
ghost use Rattle.written.specs.Written.{written, Puts};
ghost use Rattle.common.specs.Bytes.{AreBytes};
ghost use Rattle.utf16.specs.Utf16.{units, utf16, utf8_of, unpaired, bytes_of, piece_of, first_unit, First};

// A scalar, how many bytes of UTF-16 it takes, and how many units of these were replaced by it: one or none.
// Kept: a number and no bool, since the definitions have this record and add it (`unpaired (units s) ≡ r.replaced + ..`), as the code does:
// a bool would have to be made a number in both (d).
#[derive(Clone, Copy, Debug, PartialEq, Eq)]
struct Piece {
    pub scalar: char,
    pub width: usize,
    pub replaced: usize,
}

// The bytes of UTF-8 that were put, and the units that were replaced on the way.
#[derive(Clone, Copy, Debug, PartialEq, Eq)]
pub struct Recoded {
    pub bytes: usize,
    pub replaced: usize,
}

// ---- The UTF-8 of a scalar

fn byte(c: u32) -> u8
    requires { c < 256 }
    ensures { result ≡ c }
{
    c as u8
}

fn six(c: u32) -> u8
    ensures { result ≡ six c }
{
    byte(0x80 + c % 64)
}

// Puts the UTF-8 of a scalar at the start of out, and answers its length.
// Kept: stored byte by byte. Straight into out, `encode_utf8` does not say what stands behind its bytes; into four bytes of its own, and a
// copy of these, it proves, but the eight texts of a new edition cost 10,679 instructions in place of 7,535 (b).
fn put_scalar(out: &mut [u8], scalar: char) -> usize
    requires { length (encode scalar) ≤ length out.old }
    ensures { (result ≡ length (encode scalar)) × (out.new ≡ encode scalar ++ drop (length (encode scalar)) out.old) }
{
    let c = u32::from(scalar);
    if c < 0x80 {
        out[0] = byte(c);
        return 1;
    }
    if c < 0x800 {
        out[0] = byte(0xC0 + c / 64);
        out[1] = six(c);
        return 2;
    }
    if c < 0x10000 {
        out[0] = byte(0xE0 + c / 64 / 64);
        out[1] = six(c / 64);
        out[2] = six(c);
        return 3;
    }
    out[0] = byte(0xF0 + c / 64 / 64 / 64);
    out[1] = six(c / 64 / 64);
    out[2] = six(c / 64);
    out[3] = six(c);
    4
}

// ---- UTF-16

// Stands for each surrogate that is part of no pair.
const REPLACEMENT: char = '\u{FFFD}';

// It stands for one unit.
const REPLACED: usize = 1;

// The first unit of some bytes, or 0 where there is none.
// Kept: 0 is no surrogate and ends no pair, as the definitions have it beyond the end. Of an Option the None would never come for the unit
// in front, and behind it would be one case with a unit that ends no pair (d).
fn first_unit(s: &[u8]) -> u16
    ensures { result ≡ first_unit s.now }
{
    match s {
        [a, b, ..] => u16::from_le_bytes([*a, *b]),
        _ => 0,
    }
}

// What the unit u begins, if v is the next.
fn piece_of(u: u16, v: u16) -> Piece
    ensures { result ≡ piece_of u v }
{
    let pair = (0xD800..=0xDBFF).contains(&u) && (0xDC00..=0xDFFF).contains(&v);
    let (code, width) = if pair {
        let high = u32::from(u - 0xD800);
        let low = u32::from(v - 0xDC00);
        (0x10000 + high * 1024 + low, 4)
    } else {
        (u32::from(u), 2)
    };
    match char::from_u32(code) {
        Some(scalar) => Piece {
            scalar,
            width,
            replaced: 0,
        },
        None => Piece {
            scalar: REPLACEMENT,
            width,
            replaced: REPLACED,
        },
    }
}

// What the UTF-16 in s begins with.
fn first_piece(s: &[u8]) -> Piece
    requires { 2 ≤ length s.now }
    ensures { First s.now result }
{
    let u = first_unit(s);
    // behind a unit that is a scalar the next is not looked at
    if let Some(scalar) = char::from_u32(u32::from(u)) {
        return Piece {
            scalar,
            width: 2,
            replaced: 0,
        };
    }
    piece_of(u, first_unit(&s[2..]))
}

// The pieces of the UTF-16 that is left, from the front. An odd byte at the end is none.
// Kept: `char::decode_utf16` over `s.chunks_exact(2).map(..)` was tried once, in `measured`, and what that returns stayed open
// (`returns-in_err-left`): an invariant has to tie the unit that was looked at, and the chunks behind it, to the text, and no lemma of std leads
// from the iterator's steps to `utf16_chars` (c).
#[derive(Drop)]
struct Pieces<'a>(&'a [u8]);

impl<'a> Iterator for Pieces<'a> {
    type Item = Piece;

    ghost next_gives = { λ s r t. MatchOption r (length s.0.now < 2) (λ p. First s.0.now p × (t.0.now ≡ drop p.width s.0.now)) };

    ghost remaining = { λ s. at_most (length s.0.now) };

    fn next(&mut self) -> Option<Piece> {
        if self.0.len() < 2 {
            return None;
        }
        let p = first_piece(self.0);
        self.0 = &self.0[p.width..];
        Some(p)
    }
}

// How many bytes of UTF-8 the UTF-16 in s makes, if there is room for them.
pub fn measured(s: &[u8], room: usize) -> Option<usize>
    ensures { result ≡ written room (utf8_of s.now) }
{
    let mut left = room;
    for p in Pieces(s) {
        left = left.checked_sub(p.scalar.len_utf8())?;
    }
    Some(room - left)
}

// Whether there is room for the UTF-8 of the UTF-16 in s. No byte makes more than two: only where the room is less is it measured.
#[tactic(auto, using(crate::proofs::Units::twice))]
fn has_room(s: &[u8], room: usize) -> bool
    ensures { result ≡ leb (length (utf8_of s.now)) room }
{
    if s.len() <= room / 2 {
        return true;
    }
    measured(s, room).is_some()
}

// Puts the UTF-8 of the UTF-16 in s at the start of out, and answers its length and how many units were replaced.
pub fn recode(s: &[u8], out: &mut [u8]) -> Recoded
    requires { length (utf8_of s.now) ≤ length out.old }
    ensures bytes { (result.bytes ≡ length (utf8_of s.now)) × (out.new ≡ utf8_of s.now ++ drop result.bytes out.old) }
    ensures replaced { result.replaced ≡ unpaired (units s.now) }
{
    let mut bytes: usize = 0;
    let mut replaced: usize = 0;
    for p in Pieces(s) {
        bytes += put_scalar(&mut out[bytes..], p.scalar);
        replaced += p.replaced;
    }
    Recoded { bytes, replaced }
}

// Writes the UTF-8 of the UTF-16 in src to the start of out, if there is room for it, and reports the units that were replaced.
pub fn decode_utf16(src: &[u8], out: &mut [u8]) -> Option<Recoded>
    ensures written { Puts (bytes_of result) out.old out.new (utf8_of src.now) }
    ensures replaced { IfSome result (λ r. r.replaced ≡ unpaired (units src.now)) }
{
    if !has_room(src, out.len()) {
        return None;
    }
    Some(recode(src, out))
}

// What the definitions mean, in a contract so that it cannot be left out: UTF-16 becomes UTF-8.
#[tactic(auto, using(crate::proofs::Units::recodes))]
pub fn utf16_laws()
    ensures recodes { (bs : List ℕ) → AreBytes bs → Utf8 (utf8_of bs) (utf16 (units bs)) }
{}
