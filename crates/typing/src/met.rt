// Does a value meet a type: one test for each kind.
ghost use Rattle.std.specs.Prelude.{◌≡◌, ◌&&◌, ◌<◌, ◌≤◌, eqb, length, get_or};
ghost use Rattle.format.specs.Bytes.{among, is_some};
ghost use Rattle.format.specs.Numbers.{are_digits};
ghost use Rattle.format.specs.Types.{is_in_range, truths, is_uuid, is_continuation, size_count};
ghost use Rattle.words.specs.Spans.{span};
ghost use Rattle.numbers.specs.Meaning.{int_in, int_answer};
ghost use Rattle.typing.specs.Meaning.{Sound, meets_in};

use super::Shape;
use super::symbols::has_symbol;
use numbers::Whole;

// Is this text a truth value?
fn is_truth(s: &[u8]) -> bool
    ensures { result ≡ among s.now truths }
{
    words::is_among(s, b"yes no 0 1 true false", 6)
}

// Hex digits from start to end, and a dash behind them?
fn dashed(s: &[u8], start: usize, end: usize) -> bool
    requires { (start ≤ end) × (end < length s.now) }
    ensures { result ≡ (are_digits 16 (span start end s.now) && eqb (get_or s.now end 0) 45) }
{
    numbers::are_digits(&s[start..end], 16) && s[end] == b'-'
}

// Is this text a uuid?
fn is_uuid(s: &[u8]) -> bool
    ensures { result ≡ is_uuid s.now }
{
    if s.len() != 36 {
        return false;
    }
    if !dashed(s, 0, 8) {
        return false;
    }
    if !dashed(s, 9, 13) {
        return false;
    }
    if !dashed(s, 14, 18) {
        return false;
    }
    if !dashed(s, 19, 23) {
        return false;
    }
    numbers::are_digits(&s[24..36], 16)
}

// Is what was read an int?
pub fn is_int(x: Option<Whole>) -> bool
    ensures { result ≡ is_some (int_answer x) }
{
    x.is_some()
}

// Is what was read an int from a to b?
pub fn is_between(a: Whole, b: Whole, x: Option<Whole>) -> bool
    ensures { result ≡ is_in_range (int_in a) (int_in b) (int_answer x) }
{
    let Some(n) = x else {
        return false;
    };
    numbers::at_most(a, n) && numbers::at_most(n, b)
}

// Is this byte one from hex 80 to BF, which a size leaves out?
fn is_continuation(c: u8) -> bool
    ensures { result ≡ is_continuation c }
{
    c >= 128 && c <= 191
}

// The size of a value: how many of its bytes are no continuation.
fn size_count(v: &[u8]) -> usize
    ensures { result ≡ size_count v.now }
{
    let mut n = 0;
    for &c in v {
        if !is_continuation(c) {
            n += 1;
        }
    }
    n
}

// Does a value meet the type that was read from text? An alias has to be followed first.
// A match and no closure: the type is read from the file.
pub fn meets(k: Shape, text: &[u8], v: &[u8]) -> bool
    requires { Sound text.now k }
    ensures { result ≡ meets_in text.now k v.now }
{
    let t = words::trimmed(v);
    let w = &v[t.start..t.end];
    match k {
        Shape::Int => is_int(numbers::int_of(w)),
        Shape::Range(low, high) => is_between(low, high, numbers::int_of(w)),
        Shape::Real => numbers::is_real(w),
        Shape::Line => lines::line_len(v) == v.len(),
        Shape::Size(n) => size_count(v) as u64 <= n,
        Shape::Enum { start, end } => has_symbol(&text[start..end], w),
        Shape::Bool => is_truth(w),
        Shape::Field => words::is_name(w),
        Shape::Uuid => is_uuid(w),
        Shape::Alias { .. } => false,
    }
}
