// What stands where in a header, by the edition.
#![tactic(auto)]

ghost use Rattle.std.specs.Prelude.{◌≡◌, ◌+◌, ◌≤◌, map, IfSome};
ghost use Rattle.layouts.specs.Table.{look, minima, clocks, offsets, multipliers, texts};
ghost use Rattle.layouts.specs.Editions.{edition_number, Decodes, stored};
ghost use Rattle.layouts.specs.declared.Clock.TheVariants.{Nowhere};
ghost use Rattle.pascal.specs.declared.TextField.TheVariants.{Absent};

use error::Refusal;
use pascal::TextField;

// How the start and the end of a run are stored.
// Kept: `Nowhere` as a third case. The definition of a time has three, and so has the match on this; with an `Option` both would still
// have three, and the tables of specs would hold `Some` of the other two. (d)
#[derive(Clone, Copy, Debug, PartialEq, Eq)]
pub enum Clock {
    Nowhere,
    Whole,
    Single,
}

// The editions of headers that are known, by their numbers: the old ones up to 102, then the new ones.
#[derive(Clone, Copy, Debug, PartialEq, Eq)]
pub enum Edition {
    E2 = 2,
    E30 = 30,
    E31 = 31,
    E81 = 81,
    E102 = 102,
    E130 = 130,
    E131 = 131,
    E179 = 179,
}

impl TryFrom<u32> for Edition {
    type Error = Refusal;

    ghost try_from_gives = { Decodes };

    #[tactic(auto, unfolding(crate::specs::Editions::editions))]
    fn try_from(number: u32) -> Result<Edition, Refusal> {
        match number {
            2 => Ok(Edition::E2),
            30 => Ok(Edition::E30),
            31 => Ok(Edition::E31),
            81 => Ok(Edition::E81),
            102 => Ok(Edition::E102),
            130 => Ok(Edition::E130),
            131 => Ok(Edition::E131),
            179 => Ok(Edition::E179),
            _ => Err(Refusal::UnknownEdition),
        }
    }
}

impl From<Edition> for u32 {
    ghost from_gives = { λ e n. n ≡ edition_number e };

    fn from(edition: Edition) -> u32 {
        edition as u32
    }
}

// ---- the fields of the eight texts

static OLD: [TextField; 8] = [
    TextField::Pascal {
        start: 24,
        width: 60,
    },
    TextField::Pascal {
        start: 86,
        width: 60,
    },
    TextField::Pascal {
        start: 148,
        width: 28,
    },
    TextField::Pascal {
        start: 208,
        width: 20,
    },
    TextField::PascalToEnd { start: 228 },
    TextField::Absent,
    TextField::Absent,
    TextField::Pascal {
        start: 178,
        width: 60,
    },
];

static OLD_WITH_SIGNAL: [TextField; 8] = [
    TextField::Pascal {
        start: 24,
        width: 60,
    },
    TextField::Pascal {
        start: 86,
        width: 60,
    },
    TextField::Pascal {
        start: 148,
        width: 28,
    },
    TextField::Pascal {
        start: 208,
        width: 20,
    },
    TextField::PascalToEnd { start: 228 },
    TextField::Pascal {
        start: 596,
        width: 40,
    },
    TextField::Absent,
    TextField::Pascal {
        start: 178,
        width: 60,
    },
];

static OLD_WITH_UNITS: [TextField; 8] = [
    TextField::Pascal {
        start: 24,
        width: 60,
    },
    TextField::Pascal {
        start: 86,
        width: 60,
    },
    TextField::Pascal {
        start: 148,
        width: 28,
    },
    TextField::Pascal {
        start: 208,
        width: 20,
    },
    TextField::PascalToEnd { start: 228 },
    TextField::Pascal {
        start: 596,
        width: 40,
    },
    TextField::Pascal {
        start: 244,
        width: 64,
    },
    TextField::Pascal {
        start: 178,
        width: 60,
    },
];

static NEW: [TextField; 8] = [
    TextField::Utf16 { start: 858 },
    TextField::Absent,
    TextField::Utf16 { start: 1880 },
    TextField::Utf16 { start: 2492 },
    TextField::Utf16 { start: 2574 },
    TextField::Absent,
    TextField::Utf16 { start: 3093 },
    TextField::Utf16 { start: 2391 },
];

static NEW_WITH_SIGNAL: [TextField; 8] = [
    TextField::Utf16 { start: 858 },
    TextField::Absent,
    TextField::Utf16 { start: 1880 },
    TextField::Utf16 { start: 2492 },
    TextField::Utf16 { start: 2574 },
    TextField::Utf16 { start: 4213 },
    TextField::Utf16 { start: 4172 },
    TextField::Utf16 { start: 2391 },
];

impl Edition {
    // The smallest size of a header, in bytes.
    #[tactic(auto, unfolding(crate::specs::Table::minima))]
    pub fn minimum(self) -> usize
        ensures row { result ≡ look 0 minima (edition_number self) }
        ensures lower_bound { 512 ≤ result }
    {
        match self {
            Edition::E2 | Edition::E31 | Edition::E102 => 512,
            Edition::E30 | Edition::E81 => 652,
            Edition::E131 => 4000,
            Edition::E130 | Edition::E179 => 4800,
        }
    }

    #[tactic(auto, unfolding(crate::specs::Table::clocks))]
    pub fn clock(self) -> Clock
        ensures { result ≡ look Nowhere clocks (edition_number self) }
    {
        match self {
            Edition::E31 => Clock::Nowhere,
            Edition::E179 => Clock::Single,
            _ => Clock::Whole,
        }
    }

    // Where the offset correction is stored.
    #[tactic(auto, unfolding(crate::specs::Table::offsets, crate::specs::Table::minima))]
    pub fn offset(self) -> Option<usize>
        ensures row { result ≡ stored (look 0 offsets (edition_number self)) }
        ensures within { IfSome result (λ at. at + 8 ≤ look 0 minima (edition_number self)) }
    {
        match self {
            Edition::E30 | Edition::E81 => Some(636),
            _ => None,
        }
    }

    // Where the correction's factor is stored.
    #[tactic(auto, unfolding(crate::specs::Table::multipliers, crate::specs::Table::minima))]
    pub fn multiplier(self) -> Option<usize>
        ensures row { result ≡ stored (look 0 multipliers (edition_number self)) }
        ensures within { IfSome result (λ at. at + 8 ≤ look 0 minima (edition_number self)) }
    {
        match self {
            Edition::E30 | Edition::E81 => Some(644),
            Edition::E131 => Some(3085),
            Edition::E130 | Edition::E179 => Some(4732),
            _ => None,
        }
    }

    // The field of each of the eight texts.
    // Kept: (b) tables in the program's memory, forty rows where sixteen would do: made anew for each header they cost some 90 instructions
    // of the 400 that opening a new one takes.
    #[tactic(auto, unfolding(crate::specs::Table::texts))]
    pub fn fields(self) -> &'static [TextField; 8]
        ensures { result.now ≡ map (λ t. look Absent t (edition_number self)) texts }
    {
        match self {
            Edition::E2 | Edition::E31 | Edition::E102 => &OLD,
            Edition::E30 => &OLD_WITH_SIGNAL,
            Edition::E81 => &OLD_WITH_UNITS,
            Edition::E131 => &NEW,
            Edition::E130 | Edition::E179 => &NEW_WITH_SIGNAL,
        }
    }
}
