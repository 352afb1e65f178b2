// Words, names and trimming, over decoded text.
#![tactic(auto)]

ghost use Rattle.std.specs.Prelude.{◌≡◌, true, false, ◌≤◌, length};
ghost use Rattle.format.specs.Bytes.{all};
ghost use Rattle.format.specs.Lines.{is_later, is_name};
ghost use Rattle.format.specs.Words.{is_gap, not_gap, trim, is_type_name};
ghost use Rattle.lines.specs.Line.{run};
ghost use Rattle.words.specs.Spans.{span, not_byte, next_word};

use format::{Class, Classes};

mod fieldnames;
mod fixed;

pub use fieldnames::{Rule, rule_of};
pub use fixed::{is_among, word_place};

// Is this byte a blank or a newline?
pub fn is_gap(b: u8) -> bool
    ensures { result ≡ is_gap b }
{
    matches!(b, b' ' | b'\t' | b'\n')
}

// The end of the blanks and newlines that a text begins with.
pub fn gap_end(s: &[u8]) -> usize
    ensures { result ≡ run is_gap s.now }
{
    s.iter().position(|b| !is_gap(*b)).unwrap_or(s.len())
}

// The end of the word that a text begins with.
pub fn word_end(s: &[u8]) -> usize
    ensures { result ≡ run not_gap s.now }
{
    s.iter().position(|b| is_gap(*b)).unwrap_or(s.len())
}

// A part of a text, from start to end.
#[derive(Clone, Copy)]
pub struct Span {
    pub start: usize,
    pub end: usize,
}

// The first word of a text.
pub fn next_word(s: &[u8]) -> Option<Span>
    ensures { result ≡ next_word s.now }
{
    let start = gap_end(s);
    if start < s.len() {
        let end = start + word_end(&s[start..]);
        Some(Span { start, end })
    } else {
        None
    }
}

// The end of the part of a text before its first byte d.
pub fn part_end(s: &[u8], d: u8) -> usize
    ensures { result ≡ run (not_byte d) s.now }
{
    s.iter().position(|b| *b == d).unwrap_or(s.len())
}

// The text without the blanks and newlines around it.
pub fn trimmed(s: &[u8]) -> Span
    ensures { (result.start ≤ result.end) × (result.end ≤ length s.now) × (span result.start result.end s.now ≡ trim s.now) }
{
    let start = gap_end(s);
    let rest = &s[start..];
    let gap = rest
        .iter()
        .rev()
        .position(|b| !is_gap(*b))
        .unwrap_or(rest.len());
    let end = s.len() - gap;
    Span { start, end }
}

// Do all bytes of a text go on a name?
fn later_bytes(table: &Classes, s: &[u8]) -> bool
    ensures { result ≡ all is_later s.now }
{
    s.iter().all(|b| table.is_later(*b))
}

// Is this text a name?
pub fn is_name(s: &[u8]) -> bool
    ensures { result ≡ is_name s.now }
{
    let Some((first, rest)) = s.split_first() else {
        return false;
    };
    let table = Classes::new();
    table.is_first(*first) && later_bytes(&table, rest)
}

// Is this text a type name?
pub fn is_type_name(s: &[u8]) -> bool
    ensures { result ≡ is_type_name s.now }
{
    let Some((first, rest)) = s.split_first() else {
        return false;
    };
    let table = Classes::new();
    table.class(*first) == Class::LETTER && later_bytes(&table, rest)
}
