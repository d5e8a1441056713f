// What a header says (the Rust's metadata.rs): numbers, where its eight texts stand, and the scans due.
#![tactic(auto)]

ghost use Rattle.std.specs.Prelude.{◌≡◌, ℕ, ◌+◌, ◌≤◌, length, IfSome};
ghost use Rattle.rules.specs.Rule.{read};
ghost use Rattle.error.specs.Number.{outcome};
ghost use Rattle.agilent.specs.Header.{kind_number};
ghost use Rattle.layouts.specs.Table.{look, minima, clocks};
ghost use Rattle.layouts.specs.Editions.{edition_number, stored};
ghost use Rattle.layouts.specs.declared.Clock.TheVariants.{Nowhere};
ghost use Rattle.metadata.specs.Metadata.{time_at, double_at, described_by, described_rule, metadata_rule, step_of, after_description, after_bytes, open_rule, header_read};
ghost use Rattle.metadata.specs.Remaining.{header_of};

use agilent::{Kind, read_agilent_header_of};
use common::Number;
use error::{Refusal, Stopped};
use floats::{FromPattern, minutes_of, scan_count};
use layouts::{Clock, Edition};
use pascal::text_place;

#[derive(Clone, Copy, Debug, PartialEq)]
pub struct ChemstationMetadata {
    pub edition: u32,
    pub size: usize,
    pub sequence: u16,
    pub vial: u16,
    pub replicate: u16,
    // in minutes
    pub start_time: f64,
    pub end_time: f64,
    pub offset_correction: f64,
    pub mult_correction: f64,
    // in bytes from the header's first, after trimming; 0, 0 for an empty text
    // Kept: two arrays of eight numbers, since a rule of the project fixes this form, and the C interface lends both. (a)
    pub text_starts: [usize; 8],
    pub text_lengths: [usize; 8],
}

// A header that was opened: what it says, the scans due (0 for FID and MWD), and an array's minutes a record (0.0 for the other kinds).
// Kept: both numbers for every kind, as the definition of Open gives them. An enum of what is due would be matched beside the kind
// where a run begins, with cases there that no kind has. (d)
#[derive(Clone, Copy, Debug, PartialEq)]
pub struct OpenedHeader {
    pub scans: usize,
    pub time_step: f64,
    pub metadata: ChemstationMetadata,
}

// ---- the description

// A header as long as its edition asks.
#[derive(Clone, Copy)]
struct WholeHeader<'a> {
    bytes: &'a [u8],
    edition: Edition,
    ghost long: { look 0 minima (edition_number edition) ≤ length bytes.now },
    ghost least: { 512 ≤ length bytes.now },
}

impl WholeHeader<'_> {
    // The start or the end of the run, in minutes.
    #[tactic(auto, using(crate::proofs::Constants::zero_is))]
    fn time_at(&self, at: usize) -> f64
        requires { at + 4 ≤ 512 }
        ensures { result ≡ time_at (look Nowhere clocks (edition_number self.now.edition)) at self.now.bytes.now }
    {
        match self.edition.clock() {
            Clock::Nowhere => 0.0,
            Clock::Whole => minutes_of(f64::from(i32::be_at(self.bytes, at))),
            Clock::Single => minutes_of(f64::from_pattern(u32::be_at(self.bytes, at))),
        }
    }

    // A stored double, or what stands for it in the editions that store none.
    fn double_at(&self, at: Option<usize>, other: f64) -> f64
        requires { IfSome at (λ n. n + 8 ≤ length self.now.bytes.now) }
        ensures { (n : ℕ) → at ≡ stored n → result ≡ double_at n other self.now.bytes.now }
    {
        at.map_or(other, |at| f64::from_pattern(u64::be_at(self.bytes, at)))
    }

    // What it says, if its texts stand at these places.
    #[tactic(auto, using(crate::proofs::Constants::zero_is, crate::proofs::Constants::one_is), unfolding(crate::specs::Metadata::described_by))]
    fn described(&self, text_starts: [usize; 8], text_lengths: [usize; 8]) -> ChemstationMetadata
        ensures { result ≡ described_by (edition_number self.now.edition) self.now.bytes.now text_starts text_lengths }
    {
        ChemstationMetadata {
            edition: self.edition.into(),
            size: self.bytes.len(),
            sequence: u16::be_at(self.bytes, 252),
            vial: u16::be_at(self.bytes, 254),
            replicate: u16::be_at(self.bytes, 256),
            start_time: self.time_at(282),
            end_time: self.time_at(286),
            offset_correction: self.double_at(self.edition.offset(), 0.0),
            mult_correction: self.double_at(self.edition.multiplier(), 1.0),
            text_starts,
            text_lengths,
        }
    }

    // Finds its texts in the order of their numbers, then describes it.
    #[tactic(auto, using(crate::proofs::Gathers::all, crate::proofs::Opens::texts_found))]
    fn describe(&self) -> Result<ChemstationMetadata, Refusal>
        ensures { outcome (λ d. d) result ≡ described_rule (edition_number self.now.edition) self.now.bytes.now }
    {
        let mut text_starts = [0usize; 8];
        let mut text_lengths = [0usize; 8];
        for (k, field) in self.edition.fields().iter().enumerate() {
            let text = text_place(self.bytes, *field)?;
            text_starts[k] = text.start;
            text_lengths[k] = text.count;
        }
        Ok(self.described(text_starts, text_lengths))
    }
}

// What a header says.
// Kept: the 512 bytes as a `requires`, here and in `from_header`. Each is called once, and a struct that carries the fact would be
// made in `open_header_of` and taken apart in both. (d)
#[tactic(auto, using(std::proofs::lemmas::Result::err_from_is_err_and, layouts::proofs::Tables::no_minimum, crate::proofs::Opens::edition_unknown, crate::proofs::Opens::below_minimum, crate::proofs::Opens::past_minimum))]
fn metadata_of(h: &[u8]) -> Result<ChemstationMetadata, Refusal>
    requires { 512 ≤ length h.now }
    ensures { outcome (λ d. d) result ≡ metadata_rule h.now }
{
    let edition = Edition::try_from(u32::be_at(h, 248))?;
    if h.len() < edition.minimum() {
        return Err(Refusal::BelowEditionMinimum);
    }
    WholeHeader { bytes: h, edition }.describe()
}

// ---- Open, as far as the header goes

// An array's minutes a record: one number over another is in seconds.
fn time_step(h: &[u8]) -> f64
    requires { 4126 ≤ length h.now }
    ensures { result ≡ step_of h.now }
{
    let first = f64::from(u16::be_at(h, 4122));
    let second = f64::from(u16::be_at(h, 4124));
    first / second / 60.0
}

// Opens an array's header h that says so.
#[tactic(auto, using(crate::proofs::Opens::array_small))]
fn open_array(metadata: ChemstationMetadata, h: &[u8]) -> Result<OpenedHeader, Refusal>
    ensures { outcome (header_of h.now) result ≡ after_description 6 h.now metadata }
{
    if h.len() < 4126 {
        return Err(Refusal::ArrayHeaderTooSmall);
    }
    let time_step = time_step(h);
    let quotient = (metadata.end_time - metadata.start_time) / time_step;
    let scans = scan_count(quotient).ok_or(Refusal::TooManyScans)?;
    Ok(OpenedHeader {
        scans,
        time_step,
        metadata,
    })
}

// Opens a whole header.
#[tactic(auto, using(std::proofs::lemmas::Result::err_from_is_err_and, crate::proofs::Opens::not_described))]
fn from_header(kind: Kind, h: &[u8]) -> Result<OpenedHeader, Refusal>
    requires { 512 ≤ length h.now }
    ensures { outcome (header_of h.now) result ≡ after_bytes (kind_number kind) h.now }
{
    let metadata = metadata_of(h)?;
    let scans = match kind {
        Kind::Array => return open_array(metadata, h),
        Kind::Fid | Kind::Mwd => 0,
        Kind::Ms | Kind::Dad | Kind::Uv => u32::be_at(h, 278) as usize,
    };
    Ok(OpenedHeader {
        scans,
        time_step: 0.0,
        metadata,
    })
}

// Opens a run of a kind as far as its header goes: the description, the scans due and an array's time step.
#[tactic(auto, using(std::proofs::lemmas::Result::err_from_is_err_and, agilent::proofs::HeaderLaws::header_gives, crate::proofs::Opens::open_refused))]
pub fn open_header_of(kind: Kind, s: &[u8], last: bool) -> Result<OpenedHeader, Stopped>
    ensures { header_read s.now result ≡ read last (open_rule (kind_number kind)) s.now }
{
    let size = read_agilent_header_of(kind, s, last)?;
    let opened = from_header(kind, &s[..size])?;
    Ok(opened)
}

// The same by the kind's number.
#[tactic(auto, using(std::proofs::lemmas::Result::err_from_is_err_and, crate::proofs::Opens::open_unknown))]
pub fn open_header(kind: u8, s: &[u8], last: bool) -> Result<OpenedHeader, Stopped>
    ensures { header_read s.now result ≡ read last (open_rule kind) s.now }
{
    open_header_of(Kind::try_from(kind)?, s, last)
}
