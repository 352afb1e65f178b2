// What a value lists, read where it stands: its words, and the names between the commas of a word.
ghost use Rattle.std.specs.Prelude.{◌≡◌, ◌≤◌, length};
ghost use Rattle.format.specs.Words.{words};
ghost use Rattle.values.specs.Value.{value_from};
ghost use Rattle.values.specs.Words.{Cuts, Behind};

use super::stretches::pass;
use super::{Decoded, value_byte};

// The next word of a value: where its first byte is looked for, and where what follows it is.
#[derive(Clone, Copy)]
pub struct NextWord {
    pub start: usize,
    pub rest: usize,
}

pub fn next_word(s: &[u8], i: usize) -> Option<NextWord>
    requires { i ≤ length s.now }
    ensures { Cuts s.now i result }
{
    let start = pass(s, i, words::is_gap);
    let Some(Decoded { next, .. }) = value_byte(s, start) else {
        return None;
    };
    let rest = pass(s, next, |b| !words::is_gap(b));
    Some(NextWord { start, rest })
}

// Where the part behind the next comma of the word begins.
pub fn part_next(s: &[u8], i: usize) -> Option<usize>
    ensures { Behind s.now i result }
{
    let mut at = i;
    loop {
        let Some(Decoded { byte, next }) = value_byte(s, at) else {
            return None;
        };
        if words::is_gap(byte) {
            return None;
        }
        if byte == b',' {
            return Some(next);
        }
        at = next;
    }
}

// How many words the value has that begins where s does: a byte that is no gap begins one where
// a gap, or nothing, stands before it.
pub fn count_words(s: &[u8]) -> usize
    ensures { (result ≡ length (words (value_from s.now))) × (result ≤ length s.now) }
{
    let mut i = 0;
    let mut n = 0;
    let mut gap = true;
    loop {
        let Some(Decoded { byte, next }) = value_byte(s, i) else {
            return n;
        };
        let here = words::is_gap(byte);
        n += lines::one_if(gap & !here);
        gap = here;
        i = next;
    }
}
