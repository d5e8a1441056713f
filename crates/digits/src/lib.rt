// Numbers as text, decimal and hexadecimal, put into lent memory.
#![tactic(auto)]

ghost use Rattle.std.specs.Prelude.{◌+◌, ◌^◌, ◌≤◌, ◌<◌, ◌≡◌, [], ◌∷◌, length};
ghost use Rattle.common.specs.Bytes.{le};
ghost use Rattle.digits.specs.Put.{Puts};
ghost use Rattle.digits.specs.Numbers.{kind_of, digit as digit_of, digits, places, number, signed_number};

// The kind that a digit names, or 0, which is no kind.
// Kept: (d) a kind is any number of the caller's, and the reader refuses 0 as it does 9: an Option would be made a number again at each call.
pub fn kind_of(digit: u8) -> u8
    ensures { result ≡ kind_of digit }
{
    if digit.is_ascii_digit() {
        digit - b'0'
    } else {
        0
    }
}

// A digit below 16, upper case, without a branch.
fn digit(d: u64) -> u8
    requires { d < 16 }
    ensures { result ≡ digit_of d }
{
    (48 + d + (d + 6) / 16 * 7) as u8
}

// How many decimal digits n has.
fn count_places(n: u64) -> usize
    ensures { (result ≡ places 19 n) × (result ≤ 20) }
{
    match n.checked_ilog10() {
        Some(k) => k as usize + 1,
        None => 1,
    }
}

// Eight hexadecimal digits as the bytes of a word, the first in its lowest. A log is mostly such digits, so all are made at
// once: n is parted into halves of four digits, these into halves of two, and these into digits, each in a field of its own.
#[inline(always)]
fn hex_word(n: u64) -> u64
    requires { n < 2 ^ 32 }
    ensures { result ≡ le (digits 16 8 n) }
{
    let fours = n % 0x1_0000 * 0x1_0000_0000 + n / 0x1_0000;
    let twos = (fours & 0xFF_0000_00FF) * 0x1_0000 + (fours / 0x100 & 0xFF_0000_00FF);
    let ones = (twos & 0xF_000F_000F_000F) * 0x100 + (twos / 0x10 & 0xF_000F_000F_000F);
    // 1 for each digit above 9
    let above = (ones + 0x0606_0606_0606_0606) / 0x10 & 0x0101_0101_0101_0101;
    ones + 0x3030_3030_3030_3030 + above * 7
}

// A pen over lent memory: it puts texts there, one behind the other.
// Kept: (a) memory of a fixed size and an index, since the project has no heap; a cursor of std's answers each text with a Result, and the
// contracts here leave no want of room to answer.
#[derive(Drop)]
pub struct Pen<'a> {
    pub out: &'a mut [u8],
    // the index behind the last text
    pub at: usize,
}

impl Pen<'_> {
    // A byte.
    #[inline(always)]
    pub fn put_byte(&mut self, b: u8)
        requires { self.old.at < length self.old.out.now }
        ensures { Puts (b ∷ []) self.old self.new }
    {
        self.out[self.at] = b;
        self.at += 1;
    }

    // A text.
    #[inline(always)]
    pub fn put_text(&mut self, text: &[u8])
        requires { self.old.at + length text.now ≤ length self.old.out.now }
        ensures { Puts text.now self.old self.new }
    {
        let end = self.at + text.len();
        self.out[self.at..end].copy_from_slice(text);
        self.at = end;
    }

    // The last k digits of n.
    pub fn put_digits(&mut self, base: u64, k: usize, n: u64)
        requires { (self.old.at + k ≤ length self.old.out.now) × (0 < base) × (base ≤ 16) }
        ensures { Puts (digits base k n) self.old self.new }
    {
        let mut rest = n;
        for i in (0..k).rev() {
            self.out[self.at + i] = digit(rest % base);
            rest /= base;
        }
        self.at += k;
    }

    // A number in decimal, and what ends its field.
    // Kept: (d) std's `write!` says what it wrote only with an Ok, and no clause promises the Ok: what cannot fail here would be able to.
    pub fn put_number(&mut self, n: u64, sep: u8)
        requires { self.old.at + 21 ≤ length self.old.out.now }
        ensures put { Puts (number n sep) self.old self.new }
        ensures upper_bound { self.new.at ≤ self.old.at + 21 }
    {
        self.put_digits(10, count_places(n), n);
        self.put_byte(sep);
    }

    // A number with a sign in decimal, and what ends its field.
    pub fn put_signed(&mut self, n: i64, sep: u8)
        requires { self.old.at + 22 ≤ length self.old.out.now }
        ensures put { Puts (signed_number n sep) self.old self.new }
        ensures upper_bound { self.new.at ≤ self.old.at + 22 }
    {
        if n < 0 {
            self.put_byte(b'-');
        }
        self.put_number(n.unsigned_abs(), sep);
    }

    // The 16 hexadecimal digits of n.
    // Kept: (d) as in put_number, and most of a log's time goes here.
    #[inline(always)]
    pub fn put_bits(&mut self, n: u64)
        requires { self.old.at + 16 ≤ length self.old.out.now }
        ensures { Puts (digits 16 16 n) self.old self.new }
    {
        let upper = hex_word(n / 0x1_0000_0000);
        let lower = hex_word(n % 0x1_0000_0000);
        // put at once, so that the compiler makes the two side by side
        let both = u128::from(lower) * 0x1_0000_0000_0000_0000 + u128::from(upper);
        self.put_text(&both.to_le_bytes());
    }
}
