// A value that is one plain line of digits, with a dot among them or not. Any other value is read
// byte by byte.
ghost use Rattle.std.specs.Prelude.{◌≡◌, true, [], ◌+◌, ◌^◌, ◌≤◌, ◌<◌, length, drop};
ghost use Rattle.values.specs.Value.{value_from};
ghost use Rattle.totals.specs.Totals.{millionths_of};
ghost use Rattle.totals.specs.Figures.{filled_from, counted};
ghost use Rattle.totals.specs.Plain.{Run, PlainTold};

use super::figures::{filled, value_millionths};
use super::signs::signed_of;

// Where digits end, and the number that they make behind another one.
#[derive(Drop)]
struct Digits {
    at: usize,
    number: u64,
}

// The digits from i on, up to a place.
fn read_digits(s: &[u8], i: usize, end: usize, number: u64) -> Digits
    requires { (i ≤ end) × (end ≤ length s.now) × (end ≤ i + 8) × (number < 100000000) }
    ensures { Run s.now i end number result.at result.number }
{
    let mut m = number;
    for at in i..end {
        let d = numbers::digit_of(s[at]);
        if 9 < d {
            return Digits { at, number: m };
        }
        m = m * 10 + d;
    }
    Digits { at: end, number: m }
}

// So many bytes from i on, or as many as there are.
fn reach(s: &[u8], i: usize, n: usize) -> usize
    requires { (i ≤ length s.now) × (n ≤ 8) }
    ensures { (i ≤ result) × (result ≤ length s.now) × (result ≤ i + n) }
{
    if s.len() - i < n { s.len() } else { i + n }
}

// Does a value end at i, at a newline with no plus behind it?
fn ends_at(s: &[u8], i: usize) -> bool
    requires { i ≤ length s.now }
    ensures { result ≡ true → value_from (drop i s.now) ≡ [] }
{
    if lines::byte(s, i) != b'\n' {
        return false;
    }
    if lines::byte(s, i + 1) == b'+' {
        return false;
    }
    true
}

// A number of so many digits behind the dot, in millionths.
fn scaled(digits: usize, number: u64) -> u64
    requires { (digits ≤ 6) × (number < 10 ^ (8 + digits)) }
    ensures { (result ≡ filled_from digits number) × (result < 100000000000000) }
{
    if digits == 2 {
        return number * 10000;
    }
    filled(digits, number)
}

// The value that begins where s does, if it is plain.
fn plain_value(s: &[u8]) -> Option<u64>
    ensures { PlainTold s.now result }
{
    let before = reach(s, 0, 8);
    let w = read_digits(s, 0, before, 0);
    let e = w.at;
    if e == 0 {
        return None;
    }
    if ends_at(s, e) {
        return Some(scaled(0, w.number));
    }
    if lines::byte(s, e) != b'.' {
        return None;
    }
    let a = e + 1;
    let behind = reach(s, a, 6);
    let f = read_digits(s, a, behind, w.number);
    let z = f.at;
    if z == a {
        return None;
    }
    if ends_at(s, z) {
        return Some(scaled(z - a, f.number));
    }
    None
}

// What the value that begins where s does adds to a total.
pub fn read_value(s: &[u8]) -> Option<i64>
    ensures { counted result ≡ millionths_of (value_from s.now) }
{
    let Some(m) = plain_value(s) else {
        return value_millionths(s);
    };
    Some(signed_of(false, m))
}
