// Values added up in whole numbers: one value more, and what is so of every column.
#![tactic(auto)]

ghost use Rattle.std.specs.Prelude.{◌≡◌, ◌+ℤ◌, ◌&&◌, if◌then◌else◌, Some, None};
ghost use Rattle.sums.specs.Sums.{counts, whole_of, in64, plus as plus_of, TotalsAreSums};

use error::Refusal;

// What values add up to: nothing is added up, or a sum, or the sum is refused.
pub type Total = Option<Result<i64, Refusal>>;

// A value as a whole number, if it is one below 2^53 in size.
fn whole_of(v: f64) -> Option<i64>
    ensures { result ≡ (if counts v then Some (whole_of v) else None) }
{
    if v > -9007199254740992.0 && v < 9007199254740992.0 {
        let n = std::num::truncating_f64_to_i64(v);
        if std::num::nearest_i64_to_f64(n) == v {
            return Some(n);
        }
    }
    None
}

// The sum and one value more, if it counts and the new sum fits.
fn sum(a: i64, v: f64) -> Option<i64>
    ensures { result ≡ (if counts v && in64 (a +ℤ whole_of v) then Some (a +ℤ whole_of v) else None) }
{
    a.checked_add(whole_of(v)?)
}

// One value more.
pub fn plus(t: Total, v: f64) -> Total
    ensures { result ≡ plus_of t v }
{
    match t {
        Some(Ok(a)) => Some(sum(a, v).ok_or(Refusal::SumOutOfRange)),
        None | Some(Err(_)) => t,
    }
}

// Nothing to compute: the contract is the theorem on totals and sums in whole numbers.
pub fn totals_are_sums()
    ensures { TotalsAreSums }
{}
