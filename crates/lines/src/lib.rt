// Reading lines: each reader is given the part of the file that starts at the byte reached.
#![tactic(auto)]

ghost use Rattle.std.specs.Prelude.{◌≡◌, true, false, ◌+◌, ◌-◌, ◌<◌, ◌≤◌, length, drop, get_or};
ghost use Rattle.format.specs.Bytes.{same, pick, is_blank, all};
ghost use Rattle.format.specs.Lines.{lines, is_ended, is_special};
ghost use Rattle.lines.specs.Line.{line_len, first_line, GoesOn, name_len};
ghost use Rattle.lines.specs.Piece.{extent_of, next_of, is_fault};

use format::{Class, Classes};

// The byte at i, 0 past the end.
pub fn byte(s: &[u8], i: usize) -> u8
    ensures { result ≡ get_or s.now i 0 }
{
    if i < s.len() { s[i] } else { 0 }
}

// One where a test holds, else none.
pub fn one_if(b: bool) -> usize
    ensures { (result ≡ pick b 1 0) × (result ≤ 1) }
{
    if b { 1 } else { 0 }
}

// Does a name begin with `%`?
pub fn is_special(name: &[u8]) -> bool
    ensures { result ≡ is_special name.now }
{
    byte(name, 0) == b'%'
}

// Are two texts the same?
pub fn same_bytes(a: &[u8], b: &[u8]) -> bool
    ensures { result ≡ same a.now b.now }
{
    a == b
}

// The number of bytes before the first newline.
pub fn line_len(s: &[u8]) -> usize
    ensures { result ≡ line_len s.now }
{
    s.iter().position(|b| *b == b'\n').unwrap_or(s.len())
}

// The place of the first newline from i on, in a text that ends with one.
fn line_end(s: &[u8], i: usize) -> usize
    requires s_value { is_ended s.now ≡ true }
    requires i_in_bounds { i < length s.now }
    ensures { (result ≡ i + line_len (drop i s.now)) × (get_or s.now result 0 ≡ 10) }
{
    // An index by hand: the hottest walk; a search would look at each turn for an end that cannot come.
    let mut at = i;
    loop {
        if s[at] == b'\n' {
            return at;
        }
        at += 1;
    }
}

// Is the first physical line empty or all blanks?
pub fn blank_line(table: &Classes, s: &[u8]) -> bool
    ensures { result ≡ all is_blank (first_line s.now) }
{
    for &b in s {
        let k = table.class(b);
        if k == Class::NEWLINE {
            return true;
        }
        if k != Class::BLANK {
            return false;
        }
    }
    true
}

// The number of bytes of the name that s begins with, 0 where it begins with none.
pub fn name_len(table: &Classes, s: &[u8]) -> usize
    ensures { result ≡ name_len s.now }
{
    if s.is_empty() {
        return 0;
    }
    if !table.is_first(s[0]) {
        return 0;
    }
    let rest = &s[1..];
    1 + rest
        .iter()
        .position(|b| !table.is_later(*b))
        .unwrap_or(rest.len())
}

// The same where a text that ends with a newline begins with a name.
fn name_end(table: &Classes, s: &[u8]) -> usize
    requires s_value { is_ended s.now ≡ true }
    requires s_nonzero { 0 < name_len s.now }
    ensures { result ≡ name_len s.now }
{
    // An index by hand: the hottest walk; a search would look at each turn for an end that cannot come.
    let mut i = 1;
    loop {
        if table.is_later(s[i]) {
            i += 1;
        } else {
            return i;
        }
    }
}

// How many bytes a field takes: its line, looked at from a place within it on, the lines that it takes on, and the plus lines that directly follow. None: a line is to be taken on and there is none.
fn field_extent(s: &[u8], at: usize) -> Option<usize>
    requires s_value { is_ended s.now ≡ true }
    requires goes_on { GoesOn s.now at }
    ensures { result ≡ extent_of true 0 (lines s.now) }
{
    let mut i = at;
    loop {
        let e = line_end(s, i);
        let taken = s[e - 1] == b'\\';
        i = e + 1;
        if i == s.len() {
            if taken {
                return None;
            }
            return Some(i);
        }
        if !taken {
            if s[i] != b'+' {
                return Some(i);
            }
        }
    }
}

// What a part goes on with: a piece and how many bytes it takes. A field's name has its first bytes, and its value begins at value.
#[derive(Drop)]
pub enum Next {
    End,
    Fault,
    Blank {
        size: usize,
    },
    Comment {
        size: usize,
    },
    Field {
        name: usize,
        value: usize,
        size: usize,
    },
}

// A line that begins as a name does.
fn next_field(table: &Classes, s: &[u8]) -> Next
    requires s_value { is_ended s.now ≡ true }
    requires s_nonzero { 0 < name_len s.now }
    ensures { result ≡ next_of s.now }
{
    let name = name_end(table, s);
    if s[name] != b':' {
        return Next::Fault;
    }
    let k = table.class(s[name + 1]);
    let mut value = name + 2;
    if k == Class::NEWLINE {
        value = name + 1;
    } else if k != Class::BLANK {
        return Next::Fault;
    }
    match field_extent(s, value) {
        Some(size) => Next::Field { name, value, size },
        None => Next::Fault,
    }
}

// The next piece of a part that begins where a piece may begin.
pub fn next_piece(table: &Classes, s: &[u8]) -> Next
    requires s_value { is_ended s.now ≡ true }
    ensures { result ≡ next_of s.now }
{
    if s.len() == 0 {
        return Next::End;
    }
    let b = s[0];
    if b == b'\n' {
        return Next::Blank { size: 1 };
    }
    if table.is_first(b) {
        return next_field(table, s);
    }
    if b == b'#' {
        let n = line_len(s);
        return Next::Comment { size: n + 1 };
    }
    if blank_line(table, s) {
        let n = line_len(s);
        return Next::Blank { size: n + 1 };
    }
    Next::Fault
}

// The name that s begins with ends at its first colon, where a colon is known to follow it.
fn name_to_colon(s: &[u8]) -> usize
    requires s_value { is_ended s.now ≡ true }
    requires s_nonzero { (0 < name_len s.now) × (get_or s.now (name_len s.now) 0 ≡ 58) }
    ensures { result ≡ name_len s.now }
{
    // An index by hand: the hottest walk; a search would look at each turn for an end that cannot come.
    let mut i = 1;
    while s[i] != b':' {
        i += 1;
    }
    i
}

// A line that begins as a name does, in a part that goes on with no fault.
fn read_field(s: &[u8]) -> Next
    requires s_value { is_ended s.now ≡ true }
    requires s_nonzero { 0 < name_len s.now }
    requires s_value_2 { is_fault (next_of s.now) ≡ false }
    ensures { result ≡ next_of s.now }
{
    let name = name_to_colon(s);
    let mut value = name + 1;
    if s[value] != b'\n' {
        value += 1;
    }
    match field_extent(s, value) {
        Some(size) => Next::Field { name, value, size },
        None => Next::Fault,
    }
}

// The next piece of a part that goes on with no fault: its first byte tells the form.
pub fn read_piece(s: &[u8]) -> Next
    requires s_value { is_ended s.now ≡ true }
    requires s_value_2 { is_fault (next_of s.now) ≡ false }
    ensures { result ≡ next_of s.now }
{
    if s.len() == 0 {
        return Next::End;
    }
    let b = s[0];
    if b == b'\n' {
        return Next::Blank { size: 1 };
    }
    if b'#' < b {
        return read_field(s);
    }
    let n = line_end(s, 0);
    if b == b'#' {
        return Next::Comment { size: n + 1 };
    }
    Next::Blank { size: n + 1 }
}
