// Ints and reals, over decoded text.
#![tactic(auto)]

ghost use Rattle.std.specs.Prelude.{◌≡◌, true, false, ◌<◌, ◌≤◌, drop};
ghost use Rattle.format.specs.Bytes.{is_some};
ghost use Rattle.format.specs.Numbers.{int_bounds, digit, are_digits, natural, unsigned, int_of, is_at_most, number_of, decimal_in, is_real};
ghost use Rattle.numbers.specs.Meaning.{int_in, int_answer, natural_answer, bounds_in, up_to_limit};

// An int: below zero, or not.
#[derive(Clone, Copy)]
pub enum Whole {
    Minus(u64),
    Plus(u64),
}

// The ends of int: from -least to greatest.
#[derive(Drop)]
pub struct Ends {
    pub least: u64,
    pub greatest: u64,
}

impl Ends {
    // This is the one place.
    pub const LEAST: u64 = 9223372036854775808;

    pub const GREATEST: u64 = 9223372036854775807;
}

// The value of a digit of either case, 16 of any other byte.
pub fn digit_of(b: u8) -> u64
    ensures { result ≡ digit b }
{
    match b {
        b'0'..=b'9' => b as u64 - 48,
        b'A'..=b'F' => b as u64 - 55,
        b'a'..=b'f' => b as u64 - 87,
        _ => 16,
    }
}

// Is this text one or more digits of a base?
pub fn are_digits(s: &[u8], base: u64) -> bool
    ensures { result ≡ are_digits base s.now }
{
    if s.is_empty() {
        return false;
    }
    s.iter().all(|b| digit_of(*b) < base)
}

// The number that the digits from `from` on stand for, where it is at most limit: no product passes the limit.
fn natural_of(s: &[u8], from: usize, base: u64, limit: u64) -> Option<u64>
    requires { 0 < base }
    ensures { natural_answer result ≡ up_to_limit limit (natural base (drop from s.now)) }
{
    if s.len() <= from {
        return None;
    }
    let most = limit / base;
    let mut m: u64 = 0;
    for b in &s[from..] {
        let d = digit_of(*b);
        if base <= d {
            return None;
        }
        if most < m {
            return None;
        }
        if limit - m * base < d {
            return None;
        }
        m = m * base + d;
    }
    Some(m)
}

// A number with no sign from `from` on: hexadecimal behind `0x`, octal from 0 on, else decimal.
fn unsigned_of(s: &[u8], from: usize, limit: u64) -> Option<u64>
    requires { from ≤ 1 }
    ensures { natural_answer result ≡ up_to_limit limit (unsigned (drop from s.now)) }
{
    if lines::byte(s, from) == b'0' {
        if lines::byte(s, from + 1) == b'x' {
            return natural_of(s, from + 2, 16, limit);
        }
        return natural_of(s, from, 8, limit);
    }
    natural_of(s, from, 10, limit)
}

// An int within any ends.
fn int_within(s: &[u8], ends: Ends) -> Option<Whole>
    ensures { int_answer result ≡ int_of (bounds_in ends) s.now }
{
    if lines::byte(s, 0) == b'-' {
        return Some(Whole::Minus(unsigned_of(s, 1, ends.least)?));
    }
    Some(Whole::Plus(unsigned_of(s, 0, ends.greatest)?))
}

// The int that a text stands for.
pub fn int_of(s: &[u8]) -> Option<Whole>
    ensures { int_answer result ≡ int_of int_bounds s.now }
{
    int_within(
        s,
        Ends {
            least: Ends::LEAST,
            greatest: Ends::GREATEST,
        },
    )
}

// The int of at least 0 that a text stands for.
pub fn number_of(s: &[u8]) -> Option<u64>
    ensures { natural_answer result ≡ number_of int_bounds s.now }
{
    match int_of(s)? {
        Whole::Plus(n) => Some(n),
        Whole::Minus(0) => Some(0),
        Whole::Minus(_) => None,
    }
}

// Is the first int at most the second? By hand: 0 and -0 are equal, and a derived order would
// tell them apart.
pub fn at_most(a: Whole, b: Whole) -> bool
    ensures { result ≡ is_at_most (int_in a) (int_in b) }
{
    match (a, b) {
        (Whole::Minus(m), Whole::Minus(n)) => n <= m,
        (Whole::Minus(_), Whole::Plus(_)) => true,
        (Whole::Plus(m), Whole::Minus(n)) => m == 0 && n == 0,
        (Whole::Plus(m), Whole::Plus(n)) => m <= n,
    }
}

// Digits, or digits, a dot and digits.
fn is_decimal(s: &[u8]) -> bool
    ensures { result ≡ is_some (decimal_in false s.now) }
{
    let e = words::part_end(s, b'.');
    if !are_digits(&s[..e], 10) {
        return false;
    }
    s.len() <= e || are_digits(&s[e + 1..], 10)
}

// Is this text a real?
pub fn is_real(s: &[u8]) -> bool
    ensures { result ≡ is_real s.now }
{
    if lines::byte(s, 0) == b'-' {
        is_decimal(&s[1..])
    } else {
        is_decimal(s)
    }
}
