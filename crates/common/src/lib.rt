// Numbers at a position of a byte slice, as the Rust's `impl_extract!` list has them. The caller sees that the bytes are there.
#![tactic(auto)]

ghost use Rattle.std.specs.Prelude.{◌≡◌, refl, List, reverse, ℕ, ◌+◌, ◌≤◌, length};
ghost use Rattle.common.specs.Bytes.{be, le, order_of, signed, part};
ghost use Rattle.common.specs.Orders.{signed_mirrored};

// Which byte of a number stands first: the one that counts most, or the one that counts ones.
#[derive(Clone, Copy, Debug, PartialEq, Eq)]
pub enum Endian {
    Big,
    Little,
}

// A number of a fixed width in bytes.
// Kept: (d) a slice and a position beside it, as in `u32::be_at(s, 248)`: most positions are numbers of the format, and a struct of the two
// would be made at each read.
pub trait Number: Sized {
    // how many bytes it has
    ghost width: { ℕ };

    // the number that bytes say in an order
    ghost said_by: { (List ℕ → ℕ) → List ℕ → Self };

    // Big-endian, at a position.
    fn be_at(s: &[u8], at: usize) -> Self
        requires { at + width ≤ length s.now }
        ensures { result ≡ said_by be (part at width s.now) };

    // Little-endian, at a position.
    fn le_at(s: &[u8], at: usize) -> Self
        requires { at + width ≤ length s.now }
        ensures { result ≡ said_by le (part at width s.now) };

    // At a position, in an order that is passed along.
    fn in_order(order: Endian, s: &[u8], at: usize) -> Self
        requires { at + width ≤ length s.now }
        ensures { result ≡ said_by (order_of order) (part at width s.now) }
    {
        match order {
            Endian::Big => Self::be_at(s, at),
            Endian::Little => Self::le_at(s, at),
        }
    }

    // Either order says of the reversed bytes what the other says of the bytes.
    ghost mirrored: { (bs : List ℕ) → said_by be bs ≡ said_by le (reverse bs) };
}

impl Number for u16 {
    ghost width = { 2 };

    ghost said_by = { λ order bs. order bs };

    fn be_at(s: &[u8], at: usize) -> u16 {
        u16::from_be_bytes([s[at], s[at + 1]])
    }

    fn le_at(s: &[u8], at: usize) -> u16 {
        u16::from_le_bytes([s[at], s[at + 1]])
    }

    ghost mirrored = { λ bs. refl };
}

impl Number for i16 {
    ghost width = { 2 };

    ghost said_by = { signed };

    fn be_at(s: &[u8], at: usize) -> i16 {
        u16::be_at(s, at).cast_signed()
    }

    fn le_at(s: &[u8], at: usize) -> i16 {
        u16::le_at(s, at).cast_signed()
    }

    ghost mirrored = { signed_mirrored };
}

impl Number for u32 {
    ghost width = { 4 };

    ghost said_by = { λ order bs. order bs };

    fn be_at(s: &[u8], at: usize) -> u32 {
        u32::from_be_bytes([s[at], s[at + 1], s[at + 2], s[at + 3]])
    }

    fn le_at(s: &[u8], at: usize) -> u32 {
        u32::from_le_bytes([s[at], s[at + 1], s[at + 2], s[at + 3]])
    }

    ghost mirrored = { λ bs. refl };
}

impl Number for i32 {
    ghost width = { 4 };

    ghost said_by = { signed };

    fn be_at(s: &[u8], at: usize) -> i32 {
        u32::be_at(s, at).cast_signed()
    }

    fn le_at(s: &[u8], at: usize) -> i32 {
        u32::le_at(s, at).cast_signed()
    }

    ghost mirrored = { signed_mirrored };
}

impl Number for u64 {
    ghost width = { 8 };

    ghost said_by = { λ order bs. order bs };

    fn be_at(s: &[u8], at: usize) -> u64 {
        u64::from_be_bytes([
            s[at],
            s[at + 1],
            s[at + 2],
            s[at + 3],
            s[at + 4],
            s[at + 5],
            s[at + 6],
            s[at + 7],
        ])
    }

    fn le_at(s: &[u8], at: usize) -> u64 {
        u64::from_le_bytes([
            s[at],
            s[at + 1],
            s[at + 2],
            s[at + 3],
            s[at + 4],
            s[at + 5],
            s[at + 6],
            s[at + 7],
        ])
    }

    ghost mirrored = { λ bs. refl };
}
