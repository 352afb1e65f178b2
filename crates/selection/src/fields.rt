// Which comparisons a field satisfies: a set of their numbers, in one number.
ghost use Rattle.std.specs.Prelude.{◌≡◌, ◌&&◌, ◌||◌, ℕ, ◌<◌, ◌≤◌, eqb, ltb, length};
ghost use Rattle.format.specs.Bytes.{same};
ghost use Rattle.format.specs.Words.{trim};
ghost use Rattle.format.specs.Numbers.{int_bounds, int_of};
ghost use Rattle.values.specs.Value.{value_from};
ghost use Rattle.words.specs.Spans.{span};
ghost use Rattle.numbers.specs.Meaning.{int_in, int_answer};
ghost use Rattle.terms.specs.Sets.{tags, in_set};
ghost use Rattle.selection.specs.Meaning.{ints_compare, string_compares, satisfies, int_compares};
ghost use Rattle.selection.specs.Tokens.{operator_in};
ghost use Rattle.selection.specs.Rows.{operand_in, Filled, name_at, satisfies_at};

use super::parts::Operator;
use super::programs::{Comparison, Operand, Program};
use dictionary::wordsets;
use numbers::Whole;

// The bytes from one place to another, as far as there are any.
fn span_of(s: &[u8], start: usize, end: usize) -> &[u8]
    ensures { result.now ≡ span start end s.now }
{
    if s.len() < start {
        return &s[0..0];
    }
    if end < start {
        return &s[0..0];
    }
    if s.len() < end {
        return &s[start..];
    }
    &s[start..end]
}

// Two ints compared.
fn ints_compare(o: Operator, x: Whole, y: Whole) -> bool
    ensures { result ≡ ints_compare (operator_in o) (int_in x) (int_in y) }
{
    let low = numbers::at_most(x, y);
    let high = numbers::at_most(y, x);
    match o {
        Operator::Equals => low & high,
        Operator::Differs => !(low & high),
        Operator::LessThan => !high,
        Operator::AtMost => low,
        Operator::MoreThan => !low,
        Operator::AtLeast => high,
    }
}

// What a value is as an int, compared with one.
fn int_compares(o: Operator, x: Option<Whole>, y: Whole) -> bool
    ensures { result ≡ int_compares (operator_in o) (int_answer x) (int_in y) }
{
    match x {
        Some(w) => ints_compare(o, w, y),
        None => false,
    }
}

fn string_compares(o: Operator, alike: bool) -> bool
    ensures { result ≡ string_compares (operator_in o) alike }
{
    match o {
        Operator::Equals => alike,
        Operator::Differs => !alike,
        Operator::LessThan | Operator::AtMost | Operator::MoreThan | Operator::AtLeast => false,
    }
}

// Does a value, which is x as an int, satisfy a comparison of the expression e?
fn is_satisfied(e: &[u8], operator: Operator, operand: Operand, v: &[u8], x: Option<Whole>) -> bool
    requires { int_answer x ≡ int_of int_bounds (trim v.now) }
    ensures { result ≡ satisfies (operator_in operator) (operand_in e.now operand) v.now }
{
    match operand {
        Operand::Int(y) => int_compares(operator, x, y),
        Operand::Text { start, end } => {
            let text = span_of(e, start, end);
            string_compares(operator, lines::same_bytes(v, text))
        }
    }
}

// The comparisons whose name is this.
fn named(e: &[u8], p: Program, name: &[u8]) -> u64
    requires { Filled p }
    ensures { (k : ℕ) → in_set k result ≡ (ltb k p.count && same (name_at e.now p.rows k) name.now) }
{
    let mut set = 0;
    for k in 0..p.count {
        let row = p.rows[k];
        let own = span_of(e, row.start, row.end);
        let hit = lines::same_bytes(own, name);
        set = wordsets::with_place(set, k, hit);
    }
    set
}

// Is a comparison to be asked, and does a value, which is x as an int, satisfy it?
fn is_hit(e: &[u8], asked: bool, row: Comparison, v: &[u8], x: Option<Whole>) -> bool
    requires { int_answer x ≡ int_of int_bounds (trim v.now) }
    ensures { result ≡ (asked && satisfies (operator_in row.operator) (operand_in e.now row.operand) v.now) }
{
    asked && is_satisfied(e, row.operator, row.operand, v, x)
}

// Those of a set of comparisons that a value satisfies, which is x as an int.
fn satisfying(e: &[u8], p: Program, hits: u64, v: &[u8], x: Option<Whole>) -> u64
    requires filled { Filled p }
    requires x_value { int_answer x ≡ int_of int_bounds (trim v.now) }
    ensures { (k : ℕ) → in_set k result ≡ (ltb k p.count && (in_set k hits && satisfies_at e.now p.rows k v.now)) }
{
    let mut set = 0;
    for k in 0..p.count {
        let row = p.rows[k];
        let asked = terms::has(hits, k as u64);
        let hit = is_hit(e, asked, row, v, x);
        set = wordsets::with_place(set, k, hit);
    }
    set
}

// A set of comparisons with those that a field of this name, and the value that begins where s
// does, satisfies.
pub(crate) fn with_field(
    e: &[u8],
    p: Program,
    set: u64,
    name: &[u8],
    s: &[u8],
    scratch: &mut [u8],
) -> u64
    requires { Filled p × (length (value_from s.now) ≤ length scratch.old) }
    ensures { (k : ℕ) → in_set k result ≡ (in_set k set || (ltb k p.count && (same (name_at e.now p.rows k) name.now && satisfies_at e.now p.rows k (value_from s.now)))) }
{
    let hits = named(e, p, name);
    if hits == 0 {
        return set;
    }
    let n = values::copy_value(s, &mut *scratch);
    let x = values::int_in(&scratch[..n]);
    set | satisfying(e, p, hits, &scratch[..n], x)
}
