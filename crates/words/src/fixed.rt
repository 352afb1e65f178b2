// A word among fixed words, which stand in one text with blanks between them.
ghost use Rattle.std.specs.Prelude.{◌≡◌, length};
ghost use Rattle.format.specs.Bytes.{among};
ghost use Rattle.format.specs.Words.{words};
ghost use Rattle.words.specs.RuleNames.{place_in};

use super::{Span, next_word};

// The place of a word among the words of a text, from 0 on; how many there are where it is none of them.
pub fn word_place(w: &[u8], list: &[u8]) -> usize
    ensures { result ≡ place_in w.now (words list.now) }
{
    let mut rest = list;
    let mut n = 0;
    loop {
        let Some(Span { start, end }) = next_word(rest) else {
            return n;
        };
        if lines::same_bytes(w, &rest[start..end]) {
            return n;
        }
        n += 1;
        rest = &rest[end..];
    }
}

// Is this one of the words of a text, which has so many?
pub fn is_among(w: &[u8], list: &[u8], count: usize) -> bool
    requires { count ≡ length (words list.now) }
    ensures { result ≡ among w.now (words list.now) }
{
    word_place(w, list) < count
}
