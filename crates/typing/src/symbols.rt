// The text behind the word `enum`: its words, comments passed over, each a symbol.
ghost use Rattle.std.specs.Prelude.{◌≡◌, true, false, ◌≤◌, length, drop};
ghost use Rattle.format.specs.Bytes.{all, among};
ghost use Rattle.format.specs.Types.{uncomment, is_symbol_byte, is_symbol};
ghost use Rattle.lines.specs.Line.{run};
ghost use Rattle.typing.specs.Meaning.{is_read, symbols_in};
ghost use Rattle.values.specs.Stretches.{not_paren};
ghost use Rattle.typing.specs.Symbols.{is_plain, symbols_of, NextSymbol, are_symbols, is_enum};

use format::{Class, Classes};

// May a symbol go on with this byte?
fn symbol_byte(table: &Classes, b: u8) -> bool
    ensures { result ≡ is_symbol_byte b }
{
    table.is_later(b) || b == b'-'
}

// Do all bytes from `from` on go on a symbol?
fn symbol_bytes(table: &Classes, s: &[u8], from: usize) -> bool
    requires from_in_bounds { from ≤ length s.now }
    ensures { result ≡ all is_symbol_byte (drop from s.now) }
{
    s[from..].iter().all(|&b| symbol_byte(table, b))
}

// Is this text a symbol?
fn is_symbol(table: &Classes, s: &[u8]) -> bool
    ensures { result ≡ is_symbol s.now }
{
    if s.len() == 0 {
        return false;
    }
    let k = table.class(s[0]);
    if k != Class::LETTER && k != Class::DIGIT {
        return false;
    }
    symbol_bytes(table, s, 1)
}

// Is this byte neither a gap nor a parenthesis?
fn is_plain(b: u8) -> bool
    ensures { result ≡ is_plain b }
{
    !words::is_gap(b) && b != b'(' && b != b')'
}

// The end of the bytes that a text begins with and that are neither gaps nor parentheses.
fn plain_end(s: &[u8]) -> usize
    ensures { result ≡ run is_plain s.now }
{
    s.iter().position(|&b| !is_plain(b)).unwrap_or(s.len())
}

// The first parenthesis of a text.
fn paren_at(s: &[u8]) -> usize
    ensures { result ≡ run not_paren s.now }
{
    s.iter()
        .position(|&b| b == b'(' || b == b')')
        .unwrap_or(s.len())
}

// What the text behind the word `enum` goes on with, comments passed over.
#[derive(Drop)]
enum Symbol {
    At { start: usize, end: usize },
    End,
    Fault,
}

fn next_symbol(s: &[u8]) -> Symbol
    ensures { NextSymbol s.now result }
{
    let mut at = words::gap_end(s);
    while at < s.len() {
        if s[at] == b')' {
            return Symbol::Fault;
        }
        if s[at] != b'(' {
            let end = at + plain_end(&s[at..]);
            return Symbol::At { start: at, end };
        }
        let inner = at + 1;
        let close = inner + paren_at(&s[inner..]);
        if lines::byte(s, close) != b')' {
            return Symbol::Fault;
        }
        let behind = close + 1;
        at = behind + words::gap_end(&s[behind..]);
    }
    Symbol::End
}

// Are all words of the text symbols?
fn all_symbols(table: &Classes, s: &[u8]) -> bool
    ensures { result ≡ are_symbols (symbols_of s.now) }
{
    let mut rest = s;
    loop {
        match next_symbol(rest) {
            Symbol::At { start, end } => {
                if !is_symbol(table, &rest[start..end]) {
                    return false;
                }
                rest = &rest[end..];
            }
            Symbol::End => return true,
            Symbol::Fault => return false,
        }
    }
}

// One symbol or more?
pub(crate) fn is_enum(s: &[u8]) -> bool
    ensures { result ≡ is_enum (symbols_of s.now) }
{
    let table = Classes::new();
    let Symbol::At { .. } = next_symbol(s) else {
        return false;
    };
    all_symbols(&table, s)
}

// Is v one of the symbols in the text s behind the word `enum`?
pub(crate) fn has_symbol(s: &[u8], v: &[u8]) -> bool
    requires { is_read (uncomment false s.now) ≡ true }
    ensures { result ≡ among v.now (symbols_in (uncomment false s.now)) }
{
    let mut rest = s;
    loop {
        let Symbol::At { start, end } = next_symbol(rest) else {
            return false;
        };
        if lines::same_bytes(v, &rest[start..end]) {
            return true;
        }
        rest = &rest[end..];
    }
}
