// Reads and stores of elements of lent slices, whatever their type; and unsigned numbers cleared.
ghost use Rattle.std.specs.Prelude.{◌≡◌, set, get_or};
ghost use Rattle.number.specs.Words.{clear_of};

// What stands at place i of s; `none` outside.
pub fn at<T: Copy>(s: &[T], i: usize, none: T) -> T
    ensures { result ≡ get_or s.now i none }
{
    if i < s.len() { s[i] } else { none }
}

// Stores v at place `at` of s; outside, nothing changes.
pub fn put<T: Copy>(s: &mut [T], at: usize, v: T)
    ensures { s.new ≡ set s.old at v }
{
    if at < s.len() {
        s[at] = v;
    }
}

// Stores 0 at place `from` of s and at every place after it.
#[tactic(auto, unfolding(crate::specs::Words::clear_of))]
pub fn clear_u32(s: &mut [u32], from: usize)
    ensures { s.new ≡ clear_of s.old from }
{
    if from < s.len() {
        s[from..].fill(0);
    }
}
