// A list copied to where it is lent.
ghost use Rattle.std.specs.Prelude.{◌≡◌, length};

// Copies `from` to `to`, an element at a time: std's copy would have C's library asked for `memcpy`, which the archive needs nowhere else.
pub(crate) fn copy<T: Copy>(from: &[T], to: &mut [T])
    requires { length to.old ≡ length from.now }
    ensures { to.new ≡ from.now }
{
    for i in 0..from.len() {
        to[i] = from[i];
    }
}
