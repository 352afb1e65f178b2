// The word that a value begins with: the gaps before it passed, and the word compared, measured
// and copied.
ghost use Rattle.std.specs.Prelude.{◌≡◌, ◌≤◌, length, drop};
ghost use Rattle.format.specs.Lists.{front, behind};
ghost use Rattle.format.specs.Bytes.{same};
ghost use Rattle.format.specs.Words.{is_gap, not_gap, first_word};
ghost use Rattle.format.specs.Calls.{over};
ghost use Rattle.values.specs.Value.{value_from};

use super::stretches::pass;
use super::{Decoded, value_byte};

// Is the word that the value from i on begins with this one?
pub fn word_here(s: &[u8], i: usize, word: &[u8]) -> bool
    ensures { result ≡ same word.now (front not_gap (value_from (drop i s.now))) }
{
    let mut at = i;
    // An index by hand: the loop goes by the bytes that are decoded, with the text beside them.
    let mut n = 0;
    loop {
        let Some(Decoded { byte, next }) = value_byte(s, at) else {
            return n == word.len();
        };
        if words::is_gap(byte) {
            return n == word.len();
        }
        if n == word.len() {
            return false;
        }
        if word[n] != byte {
            return false;
        }
        n += 1;
        at = next;
    }
}

// The place in a value, which begins where s does, of its first word: the place behind the gaps
// before it.
pub fn word_start(s: &[u8]) -> usize
    ensures { value_from (drop result s.now) ≡ behind is_gap (value_from s.now) }
{
    pass(s, 0, words::is_gap)
}

// Is the first word of the value that begins where s does this one?
pub fn word_is(s: &[u8], word: &[u8]) -> bool
    ensures { result ≡ same word.now (first_word (value_from s.now)) }
{
    let i = pass(s, 0, words::is_gap);
    word_here(s, i, word)
}

// The length of the word that the value from i on begins with.
pub fn word_len(s: &[u8], i: usize) -> usize
    ensures { result ≡ length (front not_gap (value_from (drop i s.now))) }
{
    let mut at = i;
    let mut n = 0;
    loop {
        let Some(Decoded { byte, next }) = value_byte(s, at) else {
            return n;
        };
        if words::is_gap(byte) {
            return n;
        }
        n += 1;
        at = next;
    }
}

// That word put into out, which holds it; bytes behind it stay.
pub fn copy_word(s: &[u8], i: usize, out: &mut [u8])
    requires { length (front not_gap (value_from (drop i s.now))) ≤ length out.old }
    ensures { out.new ≡ over (front not_gap (value_from (drop i s.now))) out.old }
{
    let mut at = i;
    // An index by hand: the loop goes by what the readers find, and this counts what is written.
    let mut n = 0;
    loop {
        let Some(Decoded { byte, next }) = value_byte(s, at) else {
            return;
        };
        if words::is_gap(byte) {
            return;
        }
        out[n] = byte;
        n += 1;
        at = next;
    }
}
