// The front of a list copied.
ghost use Rattle.std.specs.Prelude.{◌≡◌, ◌≤◌, length, take};

// The front of a list to all of `out`. By index, and a function of its own: std's copy, and a loop that stands where it is known that the two
// lists don't overlap, would be a call of C's memmove or memcpy, which the archive for C doesn't ask for.
#[inline(never)]
pub(crate) fn copy_front<T: Copy>(from: &[T], out: &mut [T])
    requires { length out.old ≤ length from.now }
    ensures { out.new ≡ take (length out.old) from.now }
{
    for i in 0..out.len() {
        out[i] = from[i];
    }
}
