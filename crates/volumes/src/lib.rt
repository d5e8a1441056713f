// The run date of a file, and whether it lies in a window of time.
#![tactic(auto)]

ghost use Rattle.std.specs.Prelude.{◌≡◌};
ghost use Rattle.fetch.specs.Headers.{text_in};
ghost use Rattle.dates.specs.Dates.{date_of};
ghost use Rattle.volumes.specs.Volume.{told, run_date, date_told, place_of, where_told, placed, place_told, VolumeWindows};

use dates::date_of;
use error::Refusal;
use fetch::{Described, Stored};
use std::ops::Range;
use utf16::decode_utf16;

// Where a file's date lies, of a window.
#[derive(Clone, Copy, Debug, PartialEq, Eq)]
pub enum Placed {
    Inside,
    Outside,
    // without a date a file lies in no window
    Undated,
}

// The date in a header. No form is longer than 24 characters: a text that has no room in 96 bytes is no date, and 24 units
// of UTF-16 need not be measured for them.
#[tactic(auto, using(crate::proofs::Told::in_buffer, crate::proofs::Told::the_text, crate::proofs::Told::too_long))]
fn date_in(d: &Described<'_>) -> Option<u32>
    ensures { result ≡ date_of (text_in 7 d.now) }
{
    match d.text(7) {
        Stored::Utf8(bytes) => date_of(bytes),
        Stored::Utf16(bytes) => {
            // Kept: (a) the programs and the C library use no heap, so the text is decoded into memory of a fixed size.
            let mut text = [0u8; 96];
            let recoded = decode_utf16(bytes, &mut text)?;
            date_of(&text[..recoded.bytes])
        }
    }
}

// The run date of a file, from its bytes: seconds from 1 January 1969, 00:00:00, if the file has a date.
#[tactic(auto, using(crate::proofs::Told::tells_refusal, crate::proofs::Told::tells_date))]
pub fn run_date(kind: u8, s: &[u8]) -> Result<Option<u32>, Refusal>
    ensures { date_told result ≡ run_date kind s.now }
{
    let d = Described::open(kind, s)?;
    Ok(date_in(&d))
}

// Where a date lies.
fn place_of(window: Range<u32>, date: Option<u32>) -> Placed
    ensures { where_told result ≡ place_of window.start window.end (told date) }
{
    match date {
        None => Placed::Undated,
        Some(i) if window.contains(&i) => Placed::Inside,
        Some(_) => Placed::Outside,
    }
}

// Whether the run date of a file lies in the window from one instant up to, not including, another.
// Kept: (a) the C interface hands over two instants, and here is refused what is no window: an end before the start.
#[tactic(auto, unfolding(crate::specs::Volume::placed))]
pub fn in_window(start: u32, end: u32, kind: u8, s: &[u8]) -> Result<Placed, Refusal>
    ensures { place_told result ≡ placed start end kind s.now }
{
    if end < start {
        return Err(Refusal::WindowReversed);
    }
    Ok(place_of(start..end, run_date(kind, s)?))
}

// What windows hold, in a contract so that it cannot be left out.
#[tactic(auto, using(crate::proofs::Windows::windows))]
pub fn volume_windows()
    ensures { VolumeWindows }
{}
