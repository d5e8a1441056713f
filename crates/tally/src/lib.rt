// The sum of a column, and of the records of a log: a total and a double beside it. A value is added to the double where that is exact,
// and to the total where it is not.
//
// The numbers: 4503599627370496 is 2^52, 9007199254740992 is 2^53, between which each double is a whole number and each whole number a
// double; 6755399441055744 is their middle; 4611686018427387904 is 2^62.
#![tactic(auto)]

ghost use Rattle.std.specs.Prelude.{◌≡◌};
ghost use Rattle.sums.specs.Sums.{total_from};
ghost use Rattle.tally.specs.Tally.{inside, roomy, beside_of, exactly, joined, start_of, added_to, total_of};

use sums::Total;

// Kept: (d) no PartialEq: two may stand for one total and be parted otherwise, and a NaN is not equal to itself.
#[derive(Clone, Copy, Debug)]
pub struct Tally {
    // from 2^52 to below 2^53, and how far it is from the middle counts; or a NaN, and nothing does
    // Kept: (d) no Option: every comparison with a NaN is false, so it goes the way of a sum that was rounded, without a case of its own
    // in `add` and in `total`.
    pub near: f64,
    pub far: Total,
}

// Whether a double is a whole number, and each whole number beside it a double.
fn is_inside(near: f64) -> bool
    ensures { result ≡ inside near }
{
    near >= 4503599627370496.0 && near < 9007199254740992.0
}

// Whether no double beside an amount takes it out of 64 bits.
fn is_roomy(a: i64) -> bool
    ensures { result ≡ roomy a }
{
    a.unsigned_abs() <= 4611686018427387904
}

// The double to start with: at the middle where the total has room, and a NaN, to which nothing is added, where it has none.
fn beside(far: Total) -> f64
    ensures { result ≡ beside_of far }
{
    match far {
        Some(Ok(a)) if is_roomy(a) => 6755399441055744.0,
        _ => f64::NAN,
    }
}

// Whether `next`, the sum of the other two, was not rounded, and is where the next one need not be either.
fn exact(near: f64, v: f64, next: f64) -> bool
    ensures { result ≡ exactly near v next }
{
    next - near == v && is_inside(next)
}

impl Tally {
    // A total, and nothing beside it.
    pub fn start(total: Total) -> Tally
        ensures { result ≡ start_of total }
    {
        Tally {
            near: beside(total),
            far: total,
        }
    }

    // One value more.
    pub fn add(self, v: f64) -> Tally
        ensures { result ≡ added_to self v }
    {
        let next = self.near + v;
        if exact(self.near, v, next) {
            return Tally { near: next, ..self };
        }
        match self.far {
            Some(Ok(_)) => Tally::start(sums::plus(self.total(), v)),
            None | Some(Err(_)) => self,
        }
    }

    // The total that the two stand for.
    pub fn total(self) -> Total
        ensures { result ≡ total_of self }
    {
        match self.far {
            Some(Ok(a)) if is_inside(self.near) && is_roomy(a) => {
                Some(Ok(a + (self.near - 6755399441055744.0) as i64))
            }
            far => far,
        }
    }
}

// The values of a column, one behind the other, on top of a total.
#[tactic(auto, using(crate::proofs::Laws::adding_more))]
pub fn total_from(t: Total, values: &[f64]) -> Total
    ensures { result ≡ total_from t values.now }
{
    let mut sum = Tally::start(t);
    for v in values {
        sum = sum.add(*v);
    }
    sum.total()
}
