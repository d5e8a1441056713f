// The four forms in which a run date is written, and the instant that it names.
#![tactic(auto)]

ghost use Rattle.std.specs.Prelude.{◌≡◌, ◌+◌, ◌≤◌, ◌<◌, length};
ghost use Rattle.std.specs.Option.{option_map};
ghost use Rattle.dates.specs.Grammar.{FourForms};
ghost use Rattle.dates.specs.Dates.{items_of, year_of, hour_of, moment_of, values_of, lows, date_by, date_of, form_of, InRanges};

use arrayvec::ArrayVec;
use calendar::Moment;
use items::{Item, item_at};

#[derive(Clone, Copy, Debug, PartialEq, Eq)]
pub enum Form {
    First,
    Second,
    Third,
    Fourth,
}

// ---- the forms

static FIRST: [Item; 12] = [
    Item::Two(1, 31),
    Item::Sign(b'-'),
    Item::MonthName,
    Item::Sign(b'-'),
    Item::Two(0, 99),
    Item::Sign(b','),
    Item::Sign(b' '),
    Item::Two(0, 23),
    Item::Sign(b':'),
    Item::Two(0, 59),
    Item::Sign(b':'),
    Item::Two(0, 59),
];

// The third form begins with the second.
static THIRD: [Item; 15] = [
    Item::OneOrTwo(1, 31),
    Item::Sign(b' '),
    Item::MonthName,
    Item::Sign(b' '),
    Item::Two(0, 99),
    Item::Sign(b' '),
    Item::OneOrTwo(1, 12),
    Item::Sign(b':'),
    Item::Two(0, 59),
    Item::Sign(b' '),
    Item::HalfDay,
    Item::Sign(b' '),
    Item::PlusMinus,
    Item::Two(0, 23),
    Item::Two(0, 59),
];

static FOURTH: [Item; 13] = [
    Item::Two(1, 12),
    Item::Sign(b'/'),
    Item::Two(1, 31),
    Item::Sign(b'/'),
    Item::Two(0, 99),
    Item::Sign(b' '),
    Item::Two(1, 12),
    Item::Sign(b':'),
    Item::Two(0, 59),
    Item::Sign(b':'),
    Item::Two(0, 59),
    Item::Sign(b' '),
    Item::HalfDay,
];

// What stands in a form, one behind the other.
fn items_of(form: Form) -> &'static [Item]
    ensures { result.now ≡ items_of form }
{
    match form {
        Form::First => &FIRST,
        Form::Second => &THIRD[..11],
        Form::Third => &THIRD,
        Form::Fourth => &FOURTH,
    }
}

// ---- a form

// The values of the items of a form, one behind the other, if the text has that form. No form has more than 15 items.
#[tactic(auto, using(crate::proofs::Walk::begun, crate::proofs::Walk::not_found, crate::proofs::Walk::ends, crate::proofs::Walk::on_passed, crate::proofs::Walk::on_value, crate::proofs::Walk::ended, crate::proofs::Walk::most_items))]
fn values_of(form: Form, t: &[u8]) -> Option<ArrayVec<u8, 15>>
    ensures { option_map (λ v. v.items) result ≡ values_of (items_of form) t.now }
{
    let mut values = ArrayVec::new();
    let mut rest = t;
    for item in items_of(form) {
        let found = item_at(*item, rest)?;
        rest = &rest[found.width..];
        if let Some(v) = found.value {
            values.push(v);
        }
    }
    rest.is_empty().then_some(values)
}

// ---- the date

fn year_of(y: u8) -> u16
    ensures { result ≡ year_of y }
{
    if y <= 68 {
        return 2000 + u16::from(y);
    }
    1900 + u16::from(y)
}

// The hour of a day from that of a half, of which so many hours lie before.
fn hour_of(h: u8, half: u8) -> u8
    requires { half ≤ 12 }
    ensures { result ≡ hour_of h half }
{
    h % 12 + half
}

// What the values of a form say.
#[tactic(auto, using(crate::proofs::Ranges::five), unfolding(crate::specs::Dates::moment_of))]
fn moment_of(form: Form, v: &[u8]) -> Moment
    requires ranges { InRanges (items_of form) v.now }
    requires all { length (lows (items_of form)) ≤ length v.now }
    ensures { result ≡ moment_of form v.now }
{
    let by_the_minute = Moment {
        year: year_of(v[2]),
        month: v[1],
        day: v[0],
        hour: v[3],
        minute: v[4],
        second: 0,
    };
    match form {
        Form::First => Moment {
            second: v[5],
            ..by_the_minute
        },
        Form::Second | Form::Third => Moment {
            hour: hour_of(v[3], v[5]),
            ..by_the_minute
        },
        Form::Fourth => Moment {
            month: v[0],
            day: v[1],
            hour: hour_of(v[3], v[6]),
            second: v[5],
            ..by_the_minute
        },
    }
}

// The date of a text that is of a form, if its month has such a day.
#[tactic(auto, using(crate::proofs::Ranges::of_ranges, crate::proofs::Ranges::all_there, crate::proofs::Ranges::in_span))]
fn date_by(form: Form, t: &[u8]) -> Option<u32>
    ensures { result ≡ date_by form t.now }
{
    let moment = moment_of(form, &values_of(form, t)?);
    moment.is_day().then(|| moment.instant())
}

// The one form that a text of so many bytes can have.
fn form_of(n: usize) -> Form
    ensures { result ≡ form_of n }
{
    match n {
        0..=18 => Form::Second,
        19 => Form::First,
        20 => Form::Fourth,
        _ => Form::Third,
    }
}

// The date that a text is, in any of the forms: seconds from 1 January 1969, 00:00:00.
#[tactic(auto, using(crate::proofs::Forms::by_one_form))]
pub fn date_of(t: &[u8]) -> Option<u32>
    ensures { result ≡ date_of t.now }
{
    date_by(form_of(t.len()), t)
}

// The forms, in a contract so that they cannot be left out.
#[tactic(auto, using(crate::proofs::Forms::forms))]
pub fn four_forms()
    ensures { FourForms }
{}
