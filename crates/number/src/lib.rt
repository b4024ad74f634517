// The only crate that sees a signed machine number: taken apart, made again, read and stored; and the same for elements of any type.
#![tactic(auto)]

mod words;

ghost use Rattle.std.specs.Prelude.{◌≡◌, pos, ◌<◌, set, get_or, length, replicate};
ghost use Rattle.number.specs.Number.{sign_of, number_of, is_plus, plus_of};

pub use words::{at, clear_u32, put};

// A number taken apart: what it is, or what it is the negative of.
#[derive(Clone, Copy, Debug, PartialEq, Eq)]
pub enum Signed {
    Plus(u32),
    Minus(u32),
}

// A machine number taken apart by its sign. A word of its own beside `number`, which is total where a `TryFrom` would refuse.
pub fn sign(v: i32) -> Signed
    ensures { result ≡ sign_of v }
{
    if v < 0 {
        Signed::Minus((-(v as i64)) as u32)
    } else {
        Signed::Plus(v as u32)
    }
}

// The machine number made again; 0 where it does not fit.
pub fn number(s: Signed) -> i32
    ensures { result ≡ number_of s }
{
    match s {
        Signed::Plus(n) if n <= 2147483647 => n as i32,
        Signed::Minus(n) if n <= 2147483648 => (-(n as i64)) as i32,
        _ => 0,
    }
}

// What stands at place i of s; 0 outside.
pub fn at_i32(s: &[i32], i: usize) -> Signed
    ensures { result ≡ sign_of (get_or s.now i (pos 0)) }
{
    sign(at(s, i, 0))
}

// What stands at place i of s is n; 0 stands outside.
pub fn holds_i32(s: &[i32], i: usize, n: u32) -> bool
    ensures { result ≡ is_plus (sign_of (get_or s.now i (pos 0))) n }
{
    at(s, i, 0) as i64 == n as i64
}

// Stores v at place `at` of s; outside, nothing changes.
pub fn put_i32(s: &mut [i32], at: usize, v: Signed)
    ensures { s.new ≡ set s.old at (number_of v) }
{
    put(s, at, number(v));
}

// v, or 0 where it is negative.
fn plus(v: i32) -> u32
    ensures { (result ≡ plus_of v) × (result < 2147483648) }
{
    match sign(v) {
        Signed::Plus(n) => n,
        Signed::Minus(_) => 0,
    }
}

// What stands at place i of s; 0 outside, and where it is negative.
pub fn plus_at(s: &[i32], i: usize) -> u32
    ensures { (result ≡ plus_of (get_or s.now i (pos 0))) × (result < 2147483648) }
{
    plus(at(s, i, 0))
}

// Stores v at every place of s.
pub fn fill_i32(s: &mut [i32], v: Signed)
    ensures { s.new ≡ replicate (length s.old) (number_of v) }
{
    s.fill(number(v));
}
