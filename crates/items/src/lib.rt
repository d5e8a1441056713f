// What stands in a form of a date, item by item: characters, numbers, names of months, am and pm.
#![tactic(auto)]

ghost use Rattle.std.specs.Prelude.{◌≡◌, ◌&&◌, ◌+◌, ◌*◌, nat_eq, slice_get};
ghost use Rattle.std.specs.Bool.{then_some};
ghost use Rattle.std.specs.Option.{option_map};
ghost use Rattle.std.specs.List.{position};
ghost use Rattle.std.specs.Cmp.Lexicographic.{pointwise};
ghost use Rattle.items.specs.declared.Item.TheVariants.{OneOrTwo, MonthName, HalfDay};
ghost use Rattle.items.specs.Items.{is_digit, digit, char_at, lower, ranged, stands_at};

// What stands in a form, one behind the other. The two numbers are the least and the most.
// Kept: (d) a struct of the two would stand in each row of a form, `Two(Bounds { least: 1, most: 31 })` for `Two(1, 31)`, for the one test of a
// range; `Two(1..=31)` would be no Copy, and the definitions would speak of its third field, whether it is used up.
#[derive(Clone, Copy, Debug, PartialEq, Eq)]
pub enum Item {
    // this character
    Sign(u8),
    // a number of two digits
    Two(u8, u8),
    // a number of one or two digits
    OneOrTwo(u8, u8),
    // the three letters of a month, in any case
    MonthName,
    // am or pm, in any case
    HalfDay,
    // + or -
    PlusMinus,
}

// What an item is at the start of a text: its value, of those that have one, and its width in characters.
#[derive(Clone, Copy, Debug, PartialEq, Eq)]
pub struct Found {
    pub value: Option<u8>,
    pub width: usize,
}

// A character that has no value.
const SIGN: Found = Found {
    value: None,
    width: 1,
};

// The value of a digit at a place.
fn digit_at(t: &[u8], at: usize) -> Option<u8>
    ensures { result ≡ then_some (is_digit (char_at t.now at)) (digit (char_at t.now at)) }
{
    let c = *t.get(at)?;
    c.is_ascii_digit().then(|| c - b'0')
}

// The value of two digits.
fn two_digits(t: &[u8]) -> Option<u8>
    ensures { result ≡ then_some (is_digit (char_at t.now 0) && is_digit (char_at t.now 1)) (10 * digit (char_at t.now 0) + digit (char_at t.now 1)) }
{
    Some(10 * digit_at(t, 0)? + digit_at(t, 1)?)
}

// A value of so many characters, if it is in its range.
fn in_range(least: u8, most: u8, v: u8, width: usize) -> Option<Found>
    ensures { result ≡ ranged least most v width }
{
    (least..=most).contains(&v).then_some(Found {
        value: Some(v),
        width,
    })
}

// The names of the months.
const MONTHS: [[u8; 3]; 12] = [
    *b"jan", *b"feb", *b"mar", *b"apr", *b"may", *b"jun", *b"jul", *b"aug", *b"sep", *b"oct",
    *b"nov", *b"dec",
];

// The character at a place as a small letter.
fn letter_at(t: &[u8], at: usize) -> Option<u8>
    ensures { result ≡ option_map (λ c. lower c) (slice_get t.now at) }
{
    Some(t.get(at)?.to_ascii_lowercase())
}

// Which of the names three small letters are, from 0.
fn place_of(letters: [u8; 3]) -> Option<usize>
    ensures { result ≡ position (λ name. pointwise nat_eq letters name) MONTHS }
{
    MONTHS.iter().position(|name| letters == *name)
}

#[tactic(auto, using(crate::proofs::Letters::no_first, crate::proofs::Letters::no_second, crate::proofs::Letters::no_third, crate::proofs::Letters::no_name))]
fn month_at(t: &[u8]) -> Option<Found>
    ensures { result ≡ stands_at MonthName t.now }
{
    let letters = [letter_at(t, 0)?, letter_at(t, 1)?, letter_at(t, 2)?];
    let place = place_of(letters)?;
    Some(Found {
        // Kept: (d) the place is below twelve, so the cast loses nothing; u8 has no From of a usize, try_from would add a None that never
        // comes, and the numbers 1 to 12 beside the names would say again what their order says.
        value: Some(place as u8 + 1),
        width: 3,
    })
}

#[tactic(auto, unfolding(crate::specs::Items::stands_at))]
fn half_at(t: &[u8]) -> Option<Found>
    ensures { result ≡ stands_at HalfDay t.now }
{
    let hours = match [letter_at(t, 0)?, letter_at(t, 1)?] {
        [b'a', b'm'] => 0,
        [b'p', b'm'] => 12,
        _ => return None,
    };
    Some(Found {
        value: Some(hours),
        width: 2,
    })
}

#[tactic(auto, unfolding(crate::specs::Items::stands_at))]
fn one_or_two_at(least: u8, most: u8, t: &[u8]) -> Option<Found>
    ensures { result ≡ stands_at (OneOrTwo least most) t.now }
{
    match two_digits(t) {
        Some(v) => in_range(least, most, v, 2),
        None => in_range(least, most, digit_at(t, 0)?, 1),
    }
}

// An item at the start of a text.
#[tactic(auto, unfolding(crate::specs::Items::stands_at))]
pub fn item_at(item: Item, t: &[u8]) -> Option<Found>
    ensures { result ≡ stands_at item t.now }
{
    match item {
        Item::Sign(c) => t.starts_with(&[c]).then_some(SIGN),
        Item::Two(least, most) => in_range(least, most, two_digits(t)?, 2),
        Item::OneOrTwo(least, most) => one_or_two_at(least, most, t),
        Item::MonthName => month_at(t),
        Item::HalfDay => half_at(t),
        Item::PlusMinus => (t.starts_with(b"+") || t.starts_with(b"-")).then_some(SIGN),
    }
}
