// Texts written to a lent buffer, from its start.
#![tactic(auto)]

ghost use Rattle.std.specs.Prelude.{◌≡◌, ◌++◌, ◌≤◌, length, drop};
ghost use Rattle.written.specs.Written.{Puts};

// Puts src at the start of out.
// Kept: (a) no `copy_from_slice`: it is a call of memmove, which the archive for C would then need from outside.
pub fn put(src: &[u8], out: &mut [u8])
    requires { length src.now ≤ length out.old }
    ensures { out.new ≡ src.now ++ drop (length src.now) out.old }
{
    for i in 0..src.len() {
        out[i] = src[i];
    }
}

// Writes src to the start of out, if there is room for it, and answers its length.
pub fn copy_text(src: &[u8], out: &mut [u8]) -> Option<usize>
    ensures { Puts result out.old out.new src.now }
{
    let (front, _) = out.split_at_mut_checked(src.len())?;
    put(src, front);
    Some(src.len())
}
