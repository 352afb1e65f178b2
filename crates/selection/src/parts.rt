// The parts of an expression, as the reader of the definitions cuts them.
ghost use Rattle.std.specs.Prelude.{◌≡◌, [], ◌∷◌, ◌<◌, ◌≤◌, length, drop, get_or};
ghost use Rattle.format.specs.Lines.{is_later};
ghost use Rattle.lines.specs.Line.{run};
ghost use Rattle.selection.specs.Expressions.{bytes_at_most};
ghost use Rattle.selection.specs.Reading.{all_signs, sign_among, is_int_first, front_of};
ghost use Rattle.selection.specs.Tokens.{sign_in, front_in, operator_bytes, symbol_bytes, token_bytes};

use format::Classes;
use numbers::Whole;

#[derive(Clone, Copy)]
pub(crate) enum Operator {
    Equals,
    Differs,
    LessThan,
    AtMost,
    MoreThan,
    AtLeast,
}

#[derive(Clone, Copy)]
pub(crate) enum Symbol {
    Comparing(Operator),
    Not,
    And,
    Or,
    Open,
    Close,
    Unknown,
}

// What stands at a place: a blank, a name, an int or a string of so many bytes, a sign, or none of
// these.
#[derive(Clone, Copy)]
pub(crate) enum Token {
    Nothing,
    Gap,
    Name(usize),
    Int(Whole, usize),
    Text(usize),
    Sign(Symbol),
}

// The sign that two bytes begin with.
fn sign_of(b: u8, next: u8) -> Symbol
    ensures { sign_in result ≡ sign_among all_signs (b ∷ next ∷ []) }
{
    if b == b'=' {
        return Symbol::Comparing(Operator::Equals);
    }
    if b == b'!' {
        if next == b'=' {
            return Symbol::Comparing(Operator::Differs);
        }
        return Symbol::Not;
    }
    if b == b'<' {
        if next == b'=' {
            return Symbol::Comparing(Operator::AtMost);
        }
        return Symbol::Comparing(Operator::LessThan);
    }
    if b == b'>' {
        if next == b'=' {
            return Symbol::Comparing(Operator::AtLeast);
        }
        return Symbol::Comparing(Operator::MoreThan);
    }
    if b == b'&' {
        if next == b'&' {
            return Symbol::And;
        }
        return Symbol::Unknown;
    }
    if b == b'|' {
        if next == b'|' {
            return Symbol::Or;
        }
        return Symbol::Unknown;
    }
    if b == b'(' {
        return Symbol::Open;
    }
    if b == b')' {
        return Symbol::Close;
    }
    Symbol::Unknown
}

// How many bytes at the front a name may go on in.
fn name_len(table: &Classes, s: &[u8]) -> usize
    ensures { result ≡ run is_later s.now }
{
    s.iter()
        .position(|b| !table.is_later(*b))
        .unwrap_or(s.len())
}

fn is_int_first(b: u8) -> bool
    ensures { result ≡ is_int_first b }
{
    b == b'-' || b'0' <= b && b <= b'9'
}

// What a text begins with.
pub(crate) fn token_at(table: &Classes, s: &[u8]) -> Token
    requires s_nonzero { (0 < length s.now) × (length s.now ≤ bytes_at_most) }
    ensures { front_in s.now result ≡ front_of (get_or s.now 0 0) (drop 1 s.now) }
{
    let b = s[0];
    if table.is_first(b) {
        let n = name_len(table, &s[1..]);
        return Token::Name(n + 1);
    }
    if is_int_first(b) {
        let n = name_len(table, &s[1..]);
        let e = n + 1;
        let Some(w) = numbers::int_of(&s[0..e]) else {
            return Token::Nothing;
        };
        return Token::Int(w, e);
    }
    if b == b' ' {
        return Token::Gap;
    }
    if b == b'\t' {
        return Token::Gap;
    }
    if b == b'\'' {
        let n = words::part_end(&s[1..], b'\'');
        return Token::Text(n + 2);
    }
    Token::Sign(sign_of(b, lines::byte(s, 1)))
}

fn operator_bytes(o: Operator) -> usize
    ensures { result ≡ operator_bytes o }
{
    match o {
        Operator::Equals | Operator::LessThan | Operator::MoreThan => 1,
        Operator::Differs | Operator::AtMost | Operator::AtLeast => 2,
    }
}

fn symbol_bytes(g: Symbol) -> usize
    ensures { result ≡ symbol_bytes g }
{
    match g {
        Symbol::Comparing(o) => operator_bytes(o),
        Symbol::And | Symbol::Or => 2,
        Symbol::Not | Symbol::Open | Symbol::Close | Symbol::Unknown => 1,
    }
}

// How many bytes a token has; what is no part is one byte.
pub(crate) fn token_bytes(t: Token) -> usize
    ensures { result ≡ token_bytes t }
{
    match t {
        Token::Nothing | Token::Gap => 1,
        Token::Name(n) | Token::Int(_, n) | Token::Text(n) => n,
        Token::Sign(g) => symbol_bytes(g),
    }
}
