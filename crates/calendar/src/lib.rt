// Days of the Gregorian calendar from 1969 to 2068, and instants: whole seconds from 1 January 1969, 00:00:00.
#![tactic(auto)]

ghost use Rattle.std.specs.Prelude.{◌≡◌, ◌≤◌, ◌<◌};
ghost use Rattle.calendar.specs.Calendar.{leap, days_in, before_month, of_years, day_number, is_day, instant_of, InRange, CalendarDays};

// A day and a time of that day.
#[derive(Clone, Copy, Debug, PartialEq, Eq)]
pub struct Moment {
    pub year: u16,
    pub month: u8,
    pub day: u8,
    pub hour: u8,
    pub minute: u8,
    pub second: u8,
}

#[tactic(auto, unfolding(crate::specs::Calendar::leap))]
fn is_leap(year: u16) -> bool
    ensures { result ≡ leap year }
{
    year % 4 == 0 && (year % 100 != 0 || year % 400 == 0)
}

// The days of a month; what is no month has none.
#[tactic(auto, using(crate::proofs::Days::month_days), unfolding(crate::specs::Calendar::days_in))]
fn days_in(year: u16, month: u8) -> u8
    ensures days { result ≡ days_in year month }
    ensures few { result ≤ 31 }
{
    match month {
        2 if is_leap(year) => 29,
        2 => 28,
        4 | 6 | 9 | 11 => 30,
        1..=12 => 31,
        _ => 0,
    }
}

// The days of a year before a month.
fn before_month(year: u16, month: u8) -> u16
    ensures { result ≡ before_month year month }
{
    (0..month)
        .map(|earlier| u16::from(days_in(year, earlier)))
        .sum()
}

// The days of so many years from 1969 on; every fourth year, 1972 first, has one more.
#[tactic(auto, using(crate::proofs::Days::years_sum))]
fn of_years(years: u32) -> u32
    requires { years < 100 }
    ensures days { result ≡ of_years years }
    ensures few { result ≤ 36159 }
{
    years * 365 + years / 4
}

impl Moment {
    // Whether its month has such a day.
    #[tactic(auto, unfolding(crate::specs::Calendar::is_day))]
    pub fn is_day(self) -> bool
        ensures { result ≡ is_day self.year self.month self.day }
    {
        (1..=days_in(self.year, self.month)).contains(&self.day)
    }

    // How many days after 1 January 1969 its day is.
    #[tactic(auto, using(crate::proofs::Days::day_within), unfolding(crate::specs::Calendar::day_number))]
    fn day_number(self) -> u32
        requires { InRange self }
        ensures { result ≡ day_number self.year self.month self.day }
    {
        of_years(u32::from(self.year - 1969))
            + u32::from(before_month(self.year, self.month))
            + u32::from(self.day - 1)
    }

    // The instant. The last one, 3,155,759,999, is above 2^31.
    #[tactic(auto, using(crate::proofs::Onward::latest_day), unfolding(crate::specs::Calendar::instant_of))]
    pub fn instant(self) -> u32
        requires { InRange self }
        ensures { result ≡ instant_of self }
    {
        let hours = self.day_number() * 24 + u32::from(self.hour);
        (hours * 60 + u32::from(self.minute)) * 60 + u32::from(self.second)
    }
}

// The calendar, in a contract so that it cannot be left out.
#[tactic(auto, using(crate::proofs::Onward::calendar))]
pub fn calendar_days()
    ensures { CalendarDays }
{}
