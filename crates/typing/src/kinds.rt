// The text of a type, read into a shape by its first word.
ghost use Rattle.std.specs.Prelude.{◌≡◌, false, ◌≤◌, length, drop};
ghost use Rattle.format.specs.Words.{words};
ghost use Rattle.format.specs.Numbers.{int_bounds};
ghost use Rattle.format.specs.Lists.{onward};
ghost use Rattle.format.specs.Types.{uncomment, before_comment, enum_in, end_of, range_of, size_of, alias_of, plain_kind, type_of};
ghost use Rattle.lines.specs.Line.{run};
ghost use Rattle.words.specs.Spans.{span};
ghost use Rattle.numbers.specs.Meaning.{int_answer};
ghost use Rattle.typing.specs.Meaning.{head_of, range_in, Told, Placeless};

use super::Shape;
use super::symbols::is_enum;
use numbers::{Ends, Whole};
use words::Span;

// What the first word of a type says, if it is not `enum`.
#[derive(Drop)]
enum Head {
    Bare(Shape),
    Range,
    Size,
    Name,
}

fn head_of(w: &[u8]) -> Head
    ensures { result ≡ head_of w.now }
{
    match words::word_place(w, b"int range real line size bool field uuid") {
        0 => Head::Bare(Shape::Int),
        1 => Head::Range,
        2 => Head::Bare(Shape::Real),
        3 => Head::Bare(Shape::Line),
        4 => Head::Size,
        5 => Head::Bare(Shape::Bool),
        6 => Head::Bare(Shape::Field),
        7 => Head::Bare(Shape::Uuid),
        _ => Head::Name,
    }
}

// The end of the bytes that a text begins with and that no gap and no comment ends.
fn head_end(s: &[u8]) -> usize
    ensures { result ≡ run before_comment s.now }
{
    s.iter()
        .position(|&b| words::is_gap(b) || b == b'(')
        .unwrap_or(s.len())
}

// An enum, whose text stands behind `at`.
fn enum_type(s: &[u8], at: usize) -> Option<Shape>
    requires { at ≤ length s.now }
    ensures { Told s.now (onward enum_in (uncomment false (drop at s.now))) result }
{
    if is_enum(&s[at..]) {
        Some(Shape::Enum {
            start: at,
            end: s.len(),
        })
    } else {
        None
    }
}

// One end of a range.
fn end_of(w: &[u8]) -> Option<Whole>
    ensures { int_answer result ≡ end_of int_bounds w.now }
{
    if lines::same_bytes(w, b"MIN") {
        return Some(Whole::Minus(Ends::LEAST));
    }
    if lines::same_bytes(w, b"MAX") {
        return Some(Whole::Plus(Ends::GREATEST));
    }
    numbers::int_of(w)
}

// A range between two ends.
fn ranged(low: Option<Whole>, high: Option<Whole>) -> Option<Shape>
    ensures { result ≡ range_in low high }
{
    Some(Shape::Range(low?, high?))
}

// A range: one or two words.
fn range_of(s: &[u8]) -> Option<Shape>
    ensures { Placeless (range_of int_bounds (words s.now)) result }
{
    let first = words::next_word(s)?;
    let x = end_of(&s[first.start..first.end]);
    let t = &s[first.end..];
    let Some(Span { start, end }) = words::next_word(t) else {
        return ranged(Some(Whole::Plus(0)), x);
    };
    let None = words::next_word(&t[end..]) else {
        return None;
    };
    let y = end_of(&t[start..end]);
    ranged(x, y)
}

// A size: one word.
fn size_of(s: &[u8]) -> Option<Shape>
    ensures { Placeless (size_of int_bounds (words s.now)) result }
{
    let w = words::next_word(s)?;
    let None = words::next_word(&s[w.end..]) else {
        return None;
    };
    let n = numbers::number_of(&s[w.start..w.end])?;
    Some(Shape::Size(n))
}

// A typedef's name from start to end, with nothing after it.
fn alias_of(s: &[u8], start: usize, end: usize) -> Option<Shape>
    requires { (start ≤ end) × (end ≤ length s.now) }
    ensures { Told s.now (alias_of (span start end s.now) (words (span end (length s.now) s.now))) result }
{
    let None = words::next_word(&s[end..]) else {
        return None;
    };
    if words::is_type_name(&s[start..end]) {
        Some(Shape::Alias { start, end })
    } else {
        None
    }
}

// A type that is no enum.
fn plain_type(s: &[u8]) -> Option<Shape>
    ensures { Told s.now (plain_kind int_bounds (words s.now)) result }
{
    let w = words::next_word(s)?;
    match head_of(&s[w.start..w.end]) {
        Head::Bare(k) => {
            let None = words::next_word(&s[w.end..]) else {
                return None;
            };
            Some(k)
        }
        Head::Range => range_of(&s[w.end..]),
        Head::Size => size_of(&s[w.end..]),
        Head::Name => alias_of(s, w.start, w.end),
    }
}

// The type that a text stands for.
pub fn type_of(s: &[u8]) -> Option<Shape>
    ensures { Told s.now (type_of int_bounds s.now) result }
{
    let start = words::gap_end(s);
    let end = start + head_end(&s[start..]);
    if lines::same_bytes(&s[start..end], b"enum") {
        enum_type(s, end)
    } else {
        plain_type(s)
    }
}
