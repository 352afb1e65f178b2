// A value where it stands in a text: its bytes forwards and backwards, its length, whether it is a
// given text, the word that it begins with, the words that it lists, the stretches that are passed
// over, the int that it is, and how two values compare. Only `copy_value` and `copy_word` decode it
// to anywhere. It begins where the lent part does, or is looked at from a place of that part on.
#![tactic(auto)]

ghost use Rattle.std.specs.Prelude.{◌≡◌, ◌+◌, ◌-◌, ◌<◌, ◌≤◌, length, get_or};
ghost use Rattle.format.specs.Bytes.{same};
ghost use Rattle.format.specs.Calls.{over};
ghost use Rattle.values.specs.Value.{value_from, Plain, Reaches, Unfolds, Precedes, is_plus, is_plus_space};

mod ends;
mod ints;
mod lists;
mod starts;
mod stretches;

pub use ends::{Likeness, are_equal, compare};
pub use ints::int_in;
pub use lists::{NextWord, count_words, next_word, part_next};
pub use starts::{copy_word, word_is, word_len, word_start};
pub use stretches::{is_comment_byte, is_head_byte, is_word_byte, pass};

// One byte of a value, and where the next one is looked for; or the value's end.
#[derive(Clone, Copy)]
pub struct Decoded {
    pub byte: u8,
    pub next: usize,
}

// The byte of the value at i, which begins no joined line.
fn plain_byte(s: &[u8], i: usize) -> Option<Decoded>
    requires i_in_bounds { i < length s.now }
    requires fact { get_or s.now i 0 ≡ 92 → get_or s.now (i + 1) 0 ≡ 10 → ⊥ }
    ensures { Unfolds s.now i result }
{
    let b = s[i];
    if b != b'\n' {
        return Some(Decoded {
            byte: b,
            next: i + 1,
        });
    }
    if lines::byte(s, i + 1) != b'+' {
        return None;
    }
    if lines::byte(s, i + 2) == b' ' {
        return Some(Decoded {
            byte: b'\n',
            next: i + 3,
        });
    }
    Some(Decoded {
        byte: b'\n',
        next: i + 2,
    })
}

// The byte of the value that is looked for at i: a backslash before a newline and that newline
// are passed over.
pub fn value_byte(s: &[u8], i: usize) -> Option<Decoded>
    ensures { Unfolds s.now i result }
{
    // An index by hand: it moves by two.
    let mut at = i;
    while at < s.len() {
        if s[at] != b'\\' {
            return plain_byte(s, at);
        }
        if lines::byte(s, at + 1) != b'\n' {
            return plain_byte(s, at);
        }
        at += 2;
    }
    None
}

// The first place from i on where a byte may not stand for itself: a backslash, a newline or the
// end.
pub fn plain_end(s: &[u8], i: usize) -> usize
    ensures { Plain s.now i result }
{
    let Some(rest) = s.get(i..) else {
        return i;
    };
    i + rest
        .iter()
        .position(|b| *b == b'\n' || *b == b'\\')
        .unwrap_or(rest.len())
}

// The length of the value that begins where s does.
pub fn value_len(s: &[u8]) -> usize
    ensures { result ≡ length (value_from s.now) }
{
    let mut i = 0;
    let mut n = 0;
    loop {
        let Some(Decoded { next, .. }) = value_byte(s, i) else {
            return n;
        };
        i = next;
        n += 1;
    }
}

// The value that begins where s does, put into out, which holds it; bytes behind it stay.
pub fn copy_value(s: &[u8], out: &mut [u8]) -> usize
    requires { length (value_from s.now) ≤ length out.old }
    ensures { (result ≡ length (value_from s.now)) × (out.new ≡ over (value_from s.now) out.old) }
{
    let mut i = 0;
    // An index by hand: the loop goes by what the readers find, and this counts what is written.
    let mut n = 0;
    loop {
        let Some(Decoded { byte, next }) = value_byte(s, i) else {
            return n;
        };
        out[n] = byte;
        i = next;
        n += 1;
    }
}

// Is the value that begins where s does this text?
pub fn is_text(s: &[u8], text: &[u8]) -> bool
    ensures { result ≡ same text.now (value_from s.now) }
{
    let mut at = 0;
    // An index by hand: the loop goes by the bytes that are decoded, with the text beside them.
    let mut n = 0;
    loop {
        let Some(Decoded { byte, next }) = value_byte(s, at) else {
            return n == text.len();
        };
        if n == text.len() {
            return false;
        }
        if text[n] != byte {
            return false;
        }
        n += 1;
        at = next;
    }
}

// Does a plus stand at i that vanishes from the value, since the newline before it is no joint's?
fn is_plus(s: &[u8], i: usize) -> bool
    ensures { result ≡ is_plus s.now i }
{
    if lines::byte(s, i) != b'+' {
        return false;
    }
    if i == 0 {
        return false;
    }
    if lines::byte(s, i - 1) != b'\n' {
        return false;
    }
    if i == 1 {
        return true;
    }
    lines::byte(s, i - 2) != b'\\'
}

// Does a space stand at i that vanishes with such a plus?
fn is_plus_space(s: &[u8], i: usize) -> bool
    ensures { result ≡ is_plus_space s.now i }
{
    if lines::byte(s, i) != b' ' {
        return false;
    }
    if i == 0 {
        return false;
    }
    is_plus(s, i - 1)
}

// The byte of the value before k, which ends no joint.
fn last_byte(s: &[u8], k: usize) -> Option<Decoded>
    requires reaches { Reaches s.now 0 k }
    requires k_nonzero { (0 < k) × (get_or s.now (k - 1) 0 ≡ 10 → ⊥) }
    ensures { Precedes s.now k result }
{
    let i = k - 1;
    if is_plus(s, i) {
        return Some(Decoded {
            byte: b'\n',
            next: i - 1,
        });
    }
    if is_plus_space(s, i) {
        return Some(Decoded {
            byte: b'\n',
            next: i - 2,
        });
    }
    Some(Decoded {
        byte: s[i],
        next: i,
    })
}

// The byte of the value before k, and the place that it is decoded at: the other way than
// `value_byte`, from a place that decoding comes to. Nothing above a plus is part of a joint or
// of a plus line.
pub fn byte_before(s: &[u8], k: usize) -> Option<Decoded>
    requires { Reaches s.now 0 k }
    ensures { Precedes s.now k result }
{
    let mut at = k;
    while 0 < at {
        let b = s[at - 1];
        if b'+' < b {
            return Some(Decoded {
                byte: b,
                next: at - 1,
            });
        }
        if b != b'\n' {
            return last_byte(s, at);
        }
        at -= 2;
    }
    None
}
