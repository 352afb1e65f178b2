// Legal names and values, and the text of a field.
#![tactic(auto)]

ghost use Rattle.std.specs.Prelude.{◌≡◌, false, ◌+◌, ◌≤◌, length};
ghost use Rattle.std.proofs.lemmas.List.Edits.{sets};
ghost use Rattle.format.specs.Limits.{file_bytes};
ghost use Rattle.format.specs.Written.{indent, written, is_legal_name, is_legal_value};
ghost use Rattle.format.specs.Calls.{over};
ghost use Rattle.writing.specs.Value.{is_plain_from};

use format::{Class, Classes, Record};

mod moves;

pub use moves::{move_down, move_up};

// Is it a name of at most 64 bytes that does not begin with `%`?
pub fn is_legal_name(s: &[u8]) -> bool
    ensures { result ≡ is_legal_name s.now }
{
    let table = Classes::new();
    if s.len() > Record::NAME {
        return false;
    }
    if lines::is_special(s) {
        return false;
    }
    let n = lines::name_len(&table, s);
    if n == 0 {
        return false;
    }
    n == s.len()
}

// Are all bytes allowed, with no backslash before a newline or at the end?
fn is_plain(table: &Classes, s: &[u8]) -> bool
    ensures { result ≡ is_plain_from false s.now }
{
    let mut slash = false;
    for &b in s {
        let k = table.class(b);
        if k == Class::NONE {
            return false;
        }
        if k == Class::NEWLINE && slash {
            return false;
        }
        slash = b == b'\\';
    }
    !slash
}

// Is it a value of at most 4,096 bytes that can be written?
pub fn is_legal_value(s: &[u8]) -> bool
    ensures { result ≡ is_legal_value s.now }
{
    let table = Classes::new();
    if s.len() > Record::VALUE {
        return false;
    }
    is_plain(&table, s)
}

// The length of a value's text: a newline takes two bytes more.
fn value_text_len(value: &[u8]) -> usize
    requires { length value.now ≤ file_bytes }
    ensures { result ≡ length (indent value.now) }
{
    value.len() + 2 * value.iter().filter(|b| **b == b'\n').count()
}

// The length of a field's text.
pub fn written_len(name: &[u8], value: &[u8]) -> usize
    requires { (length name.now ≤ file_bytes) × (length value.now ≤ file_bytes) }
    ensures { result ≡ length (written name.now value.now) }
{
    name.len() + value_text_len(value) + 3
}

// The bytes of s, at the front of out. Bytes behind them stay.
pub fn put_bytes(out: &mut [u8], s: &[u8])
    requires { length s.now ≤ length out.old }
    ensures { out.new ≡ over s.now out.old }
{
    // By an index: the library's `copy_from_slice` needs memmove, and the archive asks for none.
    for i in 0..s.len() {
        out[i] = s[i];
    }
}

// A value's text from a place of out on, with a plus and a space after each newline; where it ends.
fn put_value(out: &mut [u8], at: usize, value: &[u8]) -> usize
    requires { at + length (indent value.now) ≤ length out.old }
    ensures { (result ≡ at + length (indent value.now)) × (out.new ≡ sets out.old at (indent value.now)) }
{
    let mut n = at;
    for &b in value {
        out[n] = b;
        n += 1;
        if b == b'\n' {
            out[n] = b'+';
            out[n + 1] = b' ';
            n += 2;
        }
    }
    n
}

// A field's text at the front of out, which holds it: name, colon, space, value, newline. Bytes behind it stay.
pub fn put_field(out: &mut [u8], name: &[u8], value: &[u8]) -> usize
    requires { length (written name.now value.now) ≤ length out.old }
    ensures { (result ≡ length (written name.now value.now)) × (out.new ≡ over (written name.now value.now) out.old) }
{
    let n = name.len();
    put_bytes(out, name);
    out[n] = b':';
    out[n + 1] = b' ';
    let end = put_value(out, n + 2, value);
    out[end] = b'\n';
    end + 1
}
