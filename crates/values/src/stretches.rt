// Stretches of a value that are passed over.
ghost use Rattle.std.specs.Prelude.{◌≡◌, ◌≤◌, ℕ, Bool, length, drop};
ghost use Rattle.format.specs.Lists.{behind};
ghost use Rattle.format.specs.Types.{before_comment};
ghost use Rattle.values.specs.Value.{value_from};
ghost use Rattle.values.specs.Stretches.{is_word_byte, not_paren, Tests};

use super::{Decoded, value_byte};

// Can a byte stand in a name or a symbol? Gaps, commas and parentheses cannot.
pub fn is_word_byte(b: u8) -> bool
    ensures { result ≡ is_word_byte b }
{
    b',' < b || b == b'%'
}

// Can it stand before a comment, in the word that a type's text begins with?
pub fn is_head_byte(b: u8) -> bool
    ensures { result ≡ before_comment b }
{
    !words::is_gap(b) && b != b'('
}

// Can it stand within a comment?
pub fn is_comment_byte(b: u8) -> bool
    ensures { result ≡ not_paren b }
{
    !matches!(b, b'(' | b')')
}

// Where the bytes have been passed that the value from i on begins with, as far as they pass a test.
pub fn pass<F: Fn(u8) -> bool>(s: &[u8], i: usize, test: F) -> usize
    requires i_in_bounds { i ≤ length s.now }
    requires callable { F.IsAlwaysCallable test }
    ensures passed { (p : ℕ → Bool) → Tests (F.post test) p → value_from (drop result s.now) ≡ behind p (value_from (drop i s.now)) }
    ensures inside { (i ≤ result) × (result ≤ length s.now) }
{
    let mut at = i;
    loop {
        let Some(Decoded { byte, next }) = value_byte(s, at) else {
            return at;
        };
        if test(byte) {
            at = next;
        } else {
            return at;
        }
    }
}
