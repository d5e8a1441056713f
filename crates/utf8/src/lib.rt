// UTF-8: the text that bytes are.
#![tactic(auto)]

ghost use Rattle.std.specs.Prelude.{MatchOption, ◌≡◌, ◌↔◌, List, ℕ, ◌≤◌, ◌<◌, length, take, drop, None};
ghost use Rattle.std.specs.Str.{chars};
ghost use Rattle.utf8.specs.Utf8.{front, front_in, encode, encodes, Scalars, Utf8, decode, bad, text};

// The text that some bytes are, if they are UTF-8.
#[tactic(auto, using(crate::proofs::Library::is_text, crate::proofs::Library::no_text))]
pub fn text_in(s: &[u8]) -> Option<&str>
    ensures { MatchOption result (decode s.now ≡ bad) (λ t. (t.now ≡ s.now) × (decode s.now ≡ text (chars s.now))) }
{
    str::from_utf8(s).ok()
}

// The first scalar of the first n bytes, if there are so many and they are UTF-8.
fn first_of(s: &[u8], n: usize) -> Option<char>
    requires { 1 ≤ n }
    ensures { MatchOption result (n ≤ length s.now → decode (take n s.now) ≡ bad) (λ c. front c (length (encode c)) ≡ front_in s.now) }
{
    text_in(s.get(..n)?)?.chars().next()
}

// The scalar that the bytes from a place on begin with, and how many of them it takes. What stands behind it may be ill-formed.
pub fn front_at(s: &[u8], at: usize) -> Option<(char, usize)>
    requires { at < length s.now }
    ensures { MatchOption result (None ≡ front_in (drop at s.now)) (λ r. front r.0 r.1 ≡ front_in (drop at s.now)) }
{
    let s = &s[at..];
    let short = first_of(s, 1).or(first_of(s, 2));
    let scalar = short.or(first_of(s, 3)).or(first_of(s, 4))?;
    Some((scalar, scalar.len_utf8()))
}

// What the definitions mean, in a contract so that it cannot be left out: the decoder finds the scalars exactly where the
// bytes are the UTF-8 of some, and gives them back.
pub fn utf8_laws()
    ensures exactly { (bs cs : List ℕ) → (decode bs ≡ text cs) ↔ Utf8 bs cs }
    ensures inverts { (cs : List ℕ) → Scalars cs → decode (encodes cs) ≡ text cs }
{}
