// Doubles: from bit patterns and to them, a stored time in minutes, and a scan quotient cut to a count.
// Every function has an answer for every input, NaNs and infinities included.
#![tactic(auto)]

ghost use Rattle.std.specs.Prelude.{◌≡◌, from_bits};
ghost use Rattle.std.specs.Float.{binary32, binary64};
ghost use Rattle.floats.specs.Doubles.{minutes, bits_of, scan_count_of};
ghost use Rattle.floats.specs.Wholes.{ExactSums};

use std::num::{f32_from_bits_with_nan, f64_from_bits_with_nan, truncating_f64_to_u64};

// ---- times

// A stored time, in thousandths of a second, as minutes.
pub fn minutes_of(x: f64) -> f64
    ensures { result ≡ minutes x }
{
    x / 60000.0
}

// ---- bit patterns

// A double from a stored number's bits.
pub trait FromPattern<B>: Sized {
    // the number of these bits
    ghost number: { B → Self };

    // A NaN's pattern gives a NaN. Rust's `from_bits`, which Rattle's is only of the other patterns.
    fn from_pattern(bits: B) -> Self
        ensures { result ≡ number bits };
}

impl FromPattern<u64> for f64 {
    ghost number = { λ bits. from_bits binary64 bits };

    fn from_pattern(bits: u64) -> f64 {
        f64_from_bits_with_nan(bits)
    }
}

// A single, widened: exact.
impl FromPattern<u32> for f64 {
    ghost number = { λ bits. from_bits binary32 bits };

    // Kept: (b) by `f64::from(f32_from_bits_with_nan(bits))` alone, or by `f64::from` for the cast, each number is tested for a NaN twice: Fill
    // columns of an array of singles took 56 and 55 instructions a record in place of 52.
    #[tactic(auto, using(std::proofs::lemmas::Float::not_nan_f32_bits))]
    fn from_pattern(bits: u32) -> f64 {
        if bits % 0x8000_0000 > 0x7f80_0000 {
            f64::from(f32_from_bits_with_nan(bits))
        } else {
            f32::from_bits(bits) as f64
        }
    }
}

// A double's bits, as they are printed. A NaN has none: its bits are free.
pub fn f64_to_bits(x: f64) -> Option<u64>
    ensures { result ≡ bits_of x }
{
    if x.is_nan() { None } else { Some(x.to_bits()) }
}

// ---- the scans of an array

// How many scans a quotient makes, 1 and as many whole steps as fit, where it is below 2^53.
pub fn scan_count(quotient: f64) -> Option<usize>
    ensures { result ≡ scan_count_of quotient }
{
    if quotient >= 9007199254740992.0 {
        return None;
    }
    if quotient >= 1.0 {
        let whole = truncating_f64_to_u64(quotient);
        return Some(1 + whole as usize);
    }
    Some(1)
}

// ---- sums of whole numbers

// Nothing to compute: the contract is the theorem that sums of whole numbers in doubles are exact.
#[tactic(auto, using(crate::proofs::Running::exact_sums))]
pub fn exact_sums()
    ensures { ExactSums }
{}
