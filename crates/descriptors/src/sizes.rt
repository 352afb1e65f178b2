// The size rule: what a `%size` value stands for, and is a set's size met?
ghost use Rattle.std.specs.Prelude.{◌≡◌, true, [], ◌∷◌, ◌≤◌, length};
ghost use Rattle.std.proofs.Math.Option.{some};
ghost use Rattle.format.specs.Pieces.{read_of};
ghost use Rattle.format.specs.Bytes.{text, all, is_some};
ghost use Rattle.format.specs.Limits.{value_bytes};
ghost use Rattle.format.specs.Numbers.{int_bounds};
ghost use Rattle.format.specs.Records.{fields_of};
ghost use Rattle.format.specs.Rules.{order_of, size_by, size_rule, meets_size};
ghost use Rattle.format.specs.Sets.{values_of};
ghost use Rattle.format.specs.Questions.{fits_record};
ghost use Rattle.format.specs.Words.{words};
ghost use Rattle.values.specs.Value.{value_from};
ghost use Rattle.records.specs.Places.{is_readable};
ghost use Rattle.descriptors.specs.Sizes.{size_answer};

use records::ValuePlace;
use words::Span;

// A size: how many records a set may have.
#[derive(Drop)]
pub enum SizeRule {
    None,
    Exactly(u64),
    Below(u64),
    AtMost(u64),
    Above(u64),
    AtLeast(u64),
}

// The size that a sign and a number make.
fn size_by(sign: &[u8], n: u64) -> SizeRule
    ensures { size_answer result ≡ size_by (order_of sign.now) (some n) }
{
    match words::word_place(sign, b"< <= > >=") {
        0 => SizeRule::Below(n),
        1 => SizeRule::AtMost(n),
        2 => SizeRule::Above(n),
        3 => SizeRule::AtLeast(n),
        _ => SizeRule::None,
    }
}

// The size that one word stands for.
fn size_exactly(w: &[u8]) -> SizeRule
    ensures { size_answer result ≡ size_rule int_bounds (w.now ∷ []) }
{
    match numbers::number_of(w) {
        Some(n) => SizeRule::Exactly(n),
        None => SizeRule::None,
    }
}

// The size that two words stand for.
fn size_signed(sign: &[u8], w: &[u8]) -> SizeRule
    ensures { size_answer result ≡ size_rule int_bounds (sign.now ∷ w.now ∷ []) }
{
    match numbers::number_of(w) {
        Some(n) => size_by(sign, n),
        None => SizeRule::None,
    }
}

// The size that a text stands for.
pub fn size_rule(s: &[u8]) -> SizeRule
    ensures { size_answer result ≡ size_rule int_bounds (words s.now) }
{
    let w = words::next_word(s);
    let Some(Span { start, end }) = w else {
        return SizeRule::None;
    };
    let t = &s[end..];
    let x = words::next_word(t);
    let Some(Span { start: a, end: e }) = x else {
        return size_exactly(&s[start..end]);
    };
    let y = words::next_word(&t[e..]);
    match y {
        Some(_) => SizeRule::None,
        None => size_signed(&s[start..end], &t[a..e]),
    }
}

// Is this a size?
pub fn is_size(r: SizeRule) -> bool
    ensures { result ≡ is_some (size_answer r) }
{
    match r {
        SizeRule::None => false,
        SizeRule::Exactly(_) => true,
        SizeRule::Below(_) => true,
        SizeRule::AtMost(_) => true,
        SizeRule::Above(_) => true,
        SizeRule::AtLeast(_) => true,
    }
}

// Is the size met by n records?
pub fn size_holds(r: SizeRule, n: u64) -> bool
    ensures { result ≡ meets_size (size_answer r) n }
{
    match r {
        SizeRule::None => true,
        SizeRule::Exactly(k) => n == k,
        SizeRule::Below(k) => n < k,
        SizeRule::AtMost(k) => n <= k,
        SizeRule::Above(k) => k < n,
        SizeRule::AtLeast(k) => k <= n,
    }
}

// Is the size that a value stands for met by n records? The value begins where value does, and is decoded into the scratch.
fn value_met(value: &[u8], n: u64, scratch: &mut [u8]) -> bool
    requires { length (value_from value.now) ≤ length scratch.old }
    ensures { (result ≡ meets_size (size_rule int_bounds (words (value_from value.now))) n) × (length scratch.new ≡ length scratch.old) }
{
    let m = values::copy_value(value, scratch);
    let r = size_rule(&scratch[..m]);
    size_holds(r, n)
}

// Is every size of a descriptor met by count records?
pub fn size_met(d: &[u8], count: usize, scratch: &mut [u8]) -> bool
    requires d_value { is_readable d.now ≡ true }
    requires d_value_2 { fits_record (fields_of (read_of d.now)) ≡ true }
    requires value_bytes_in_bounds { value_bytes ≤ length scratch.old }
    ensures { (result ≡ all (λ v. meets_size (size_rule int_bounds (words v)) count) (values_of (text "%size") (fields_of (read_of d.now)))) × (length scratch.new ≡ length scratch.old) }
{
    let mut i = 0;
    loop {
        let Some(ValuePlace { value, end, .. }) = records::next_named(&d[i..], b"%size") else {
            return true;
        };
        if !value_met(&d[i + value..i + end], count as u64, scratch) {
            return false;
        }
        i += end;
    }
}
