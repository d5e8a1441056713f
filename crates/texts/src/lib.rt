// All eight texts of a run at once: it is opened once, and they stand one behind the other in one lent buffer.
#![tactic(auto)]

ghost use Rattle.std.specs.Prelude.{MatchOption, ◌≡◌, true, List, [], Result, ℕ, ◌+◌, ◌-◌, ◌≤◌, ◌<◌, leb, length, sum, get_or};
ghost use denote.Triple.Both.{Both};
ghost use Rattle.rules.specs.Rule.{read, map_read};
ghost use Rattle.error.specs.declared.Refusal.{Refusal};
ghost use Rattle.written.specs.Written.{written};
ghost use Rattle.utf16.specs.declared.Recoded.{Recoded};
ghost use Rattle.fetch.specs.Fetch.{fetch_rule, Fetches};
ghost use Rattle.texts.specs.declared.FetchedTexts.{FetchedTexts};
ghost use Rattle.texts.specs.Eight.{eight_rule, joined, Texts, lent_texts, replaced_of, FetchesAll, AsFetched, Lies, all_passed, texts_in, replaced_in_each, Lays};

use error::Refusal;
use fetch::Described;

// The texts that were fetched: the bytes that they take together, and how many units of each were replaced by U+FFFD.
#[derive(Clone, Copy, Debug, PartialEq, Eq)]
pub struct FetchedTexts {
    pub bytes: usize,
    pub replaced: [usize; 8],
}

// The room that is left behind so many bytes as the eight texts take in the header, if it holds them.
fn stored_left(lengths: &[usize; 8], room: usize) -> Option<usize>
    ensures { MatchOption result (room < sum lengths.now) (λ left. left + sum lengths.now ≡ room) }
{
    let mut left = room;
    for n in lengths {
        left = left.checked_sub(*n)?;
    }
    Some(left)
}

// The bytes that the eight texts of a header take together, text by text, if there is room for them.
// Kept: by index, here and in `lay_out`. `text` takes the number of a text, and a method for all eight would make an array of them by the
// same index. (d)
fn joined_length(d: &Described<'_>, room: usize) -> Option<usize>
    ensures { result ≡ written room (joined (texts_in d.now)) }
{
    let mut n: usize = 0;
    for k in 0..8 {
        n += d.text(k).measured(room - n)?;
    }
    Some(n)
}

// Whether there is room for them. No stored byte makes more than two: only where the room is less are the texts measured.
fn fit(d: &Described<'_>, room: usize) -> bool
    ensures { result ≡ leb (length (joined (texts_in d.now))) room }
{
    stored_left(&d.says.text_lengths, room / 2).is_some() || joined_length(d, room).is_some()
}

// Puts the eight texts of a header at the start of out, which has room for them, and says where.
// Kept: the bytes, the starts and the lengths are the parameters of `fetch_texts`, as C lends the three one by one (a); a struct would be made
// there only to be taken apart here (d).
fn lay_out(
    d: &Described<'_>,
    out: &mut [u8],
    starts: &mut [usize; 8],
    lengths: &mut [usize; 8],
) -> FetchedTexts
    requires { length (joined (texts_in d.now)) ≤ length out.old }
    ensures { Lays result (lent_texts out starts lengths).entry (lent_texts out starts lengths).exit (texts_in d.now) (replaced_in_each d.now) }
{
    let mut replaced = [0; 8];
    let mut n: usize = 0;
    for k in 0..8 {
        let t = d.text(k).put(&mut out[n..]);
        starts[k] = n;
        lengths[k] = t.bytes;
        replaced[k] = t.replaced;
        n += t.bytes;
    }
    FetchedTexts { bytes: n, replaced }
}

// All texts, from the bytes of a whole file.
// Kept: the bytes, the starts and the lengths are three parameters, as C lends them one by one. (a)
pub fn fetch_texts(
    kind: u8,
    s: &[u8],
    out: &mut [u8],
    starts: &mut [usize; 8],
    lengths: &mut [usize; 8],
) -> Result<FetchedTexts, Refusal>
    ensures texts { FetchesAll result (lent_texts out starts lengths) (read true (eight_rule kind) s.now) }
    ensures replaced { replaced_of result ≡ all_passed kind out.old s.now }
{
    let d = Described::open(kind, s)?;
    if !fit(&d, out.len()) {
        return Err(Refusal::LentLength);
    }
    Ok(lay_out(&d, out, starts, lengths))
}

// What stands where in the lent memory is what Fetch gives, text by text, in a contract so that it cannot be left out.
#[tactic(auto, using(crate::proofs::Laws::reads_each, crate::proofs::Laws::agrees, crate::proofs::Laws::lies))]
pub fn texts_are_fetched()
    ensures reads { (kind number : ℕ) (s : List ℕ) → 1 ≤ number → number ≤ 8 → read true (fetch_rule kind number) s ≡ map_read (λ ts. get_or ts (number - 1) []) (read true (eight_rule kind) s) }
    ensures agrees { (kind number : ℕ) (s : List ℕ) (r : Result FetchedTexts Refusal) (f : Result Recoded Refusal) (m : Both Texts Texts) (old new : List ℕ) → 1 ≤ number → number ≤ 8 → FetchesAll r m (read true (eight_rule kind) s) → Fetches f old new (read true (fetch_rule kind number) s) → AsFetched r m number f old new }
    ensures lies { (kind : ℕ) (s : List ℕ) (r : Result FetchedTexts Refusal) (m : Both Texts Texts) → FetchesAll r m (read true (eight_rule kind) s) → Lies r m }
{}
