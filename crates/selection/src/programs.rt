// An expression read into a program: its comparisons, and codes that are run over their bits.
ghost use Rattle.std.specs.Prelude.{◌≡◌, [], ◌∷◌, ◌++◌, ◌&&◌, eqb, ◌+◌, ◌<◌, ◌≤◌, drop};
ghost use Rattle.format.specs.Bytes.{Bytes};
ghost use Rattle.words.specs.Spans.{span};
ghost use Rattle.selection.specs.Expressions.{bytes_at_most};
ghost use Rattle.selection.specs.Reading.{may_take};
ghost use Rattle.selection.specs.Programs.{code_no, to_stage, if_at, past_name, past_operand, past_sign, tests_with};
ghost use Rattle.selection.specs.Expressions.{comparing, open_sign, close_sign, takes_strings, operand};
ghost use Rattle.selection.specs.Tokens.{operator_in, sign_in, front_in, token_bytes};
ghost use Rattle.selection.specs.Rows.{tests_at_most, operand_in, test_in, tests_in, codes_in, step_no, progress_in, Filled, Extends, past_symbol, codes_of_symbol, past_front, tests_front, codes_front, Made};

use super::parts;
use super::parts::{Operator, Symbol, Token};
use super::runs::Code;
use format::Classes;
use numbers::Whole;

// The most bytes of an expression, parentheses that are open at one place of it, and comparisons
// that so many bytes hold.
#[derive(Drop)]
pub(crate) struct Expression {}

impl Expression {
    pub const BYTES: usize = 256;

    pub const OPEN: usize = 16;

    pub const COMPARISONS: usize = 51;
}

// An int, or a string at a place of the expression.
#[derive(Clone, Copy)]
pub(crate) enum Operand {
    Int(Whole),
    Text { start: usize, end: usize },
}

// A comparison: where its name stands in the expression, and what a value is held against.
#[derive(Clone, Copy)]
pub(crate) struct Comparison {
    pub start: usize,
    pub end: usize,
    pub operator: Operator,
    pub operand: Operand,
}

// The comparisons and the codes of an expression.
#[derive(Clone, Copy)]
pub(crate) struct Program {
    pub rows: [Comparison; Expression::COMPARISONS],
    pub count: usize,
    pub codes: [Code; Expression::BYTES],
    pub size: usize,
}

// An operand is wanted, its name is read, its operator too, or all of it; or this is no expression.
#[derive(Clone, Copy, PartialEq)]
enum Step {
    Wanted,
    Named,
    Compared,
    Read,
    Fault,
}

// How far the reading is: the step, how many parentheses are open, and the name and the operator
// that were read last.
#[derive(Clone, Copy)]
struct Reading {
    stage: Step,
    groups: usize,
    start: usize,
    end: usize,
    operator: Operator,
}

// The same at another stage.
fn to_stage(r: Reading, stage: Step) -> Reading
    ensures { (s : Bytes) → progress_in s result ≡ to_stage (step_no stage) (progress_in s r) }
{
    Reading { stage, ..r }
}

// Past a name.
fn past_name(r: Reading, start: usize, end: usize) -> Reading
    ensures { (s : Bytes) → progress_in s result ≡ past_name (span start end s) (progress_in s r) }
{
    if r.stage != Step::Wanted {
        return to_stage(r, Step::Fault);
    }
    Reading {
        stage: Step::Named,
        start,
        end,
        ..r
    }
}

// Past an operator.
fn past_operator(r: Reading, operator: Operator) -> Reading
    ensures { (s : Bytes) → progress_in s result ≡ past_sign (comparing (operator_in operator)) (progress_in s r) }
{
    if r.stage != Step::Named {
        return to_stage(r, Step::Fault);
    }
    Reading {
        stage: Step::Compared,
        operator,
        ..r
    }
}

fn takes_strings(o: Operator) -> bool
    ensures { result ≡ takes_strings (operator_in o) }
{
    matches!(o, Operator::Equals | Operator::Differs)
}

// May an operator stand before an operand?
fn may_take(o: Operator, v: Operand) -> bool
    ensures { (s : Bytes) → result ≡ may_take (operator_in o) (operand_in s v) }
{
    match v {
        Operand::Int(_) => true,
        Operand::Text { .. } => takes_strings(o),
    }
}

// Past an int or a string.
fn past_operand(r: Reading, v: Operand) -> Reading
    ensures { (s : Bytes) → progress_in s result ≡ past_operand (operand_in s v) (progress_in s r) }
{
    if r.stage != Step::Compared {
        return to_stage(r, Step::Fault);
    }
    if may_take(r.operator, v) {
        return to_stage(r, Step::Read);
    }
    to_stage(r, Step::Fault)
}

// Past a `(`.
fn past_open(r: Reading) -> Reading
    ensures { (s : Bytes) → progress_in s result ≡ past_sign open_sign (progress_in s r) }
{
    if r.stage != Step::Wanted {
        return to_stage(r, Step::Fault);
    }
    if r.groups < Expression::OPEN {
        return Reading {
            groups: r.groups + 1,
            ..r
        };
    }
    to_stage(r, Step::Fault)
}

// Past a `)`.
fn past_close(r: Reading) -> Reading
    ensures { (s : Bytes) → progress_in s result ≡ past_sign close_sign (progress_in s r) }
{
    if r.stage != Step::Read {
        return to_stage(r, Step::Fault);
    }
    if r.groups == 0 {
        return to_stage(r, Step::Fault);
    }
    Reading {
        groups: r.groups - 1,
        ..r
    }
}

// The next stage, where the reading is at a given one.
fn from_stage(r: Reading, at: Step, next: Step) -> Reading
    ensures { (s : Bytes) → progress_in s result ≡ if_at (step_no at) (progress_in s r) (to_stage (step_no next) (progress_in s r)) }
{
    if r.stage == at {
        return to_stage(r, next);
    }
    to_stage(r, Step::Fault)
}

// Past a sign. A match and no closure: the sign is read from the expression.
fn past_sign(r: Reading, g: Symbol) -> Reading
    ensures { (s : Bytes) → progress_in s result ≡ past_symbol (sign_in g) (progress_in s r) }
{
    match g {
        Symbol::Comparing(o) => past_operator(r, o),
        Symbol::Not => from_stage(r, Step::Wanted, Step::Wanted),
        Symbol::And | Symbol::Or => from_stage(r, Step::Read, Step::Wanted),
        Symbol::Open => past_open(r),
        Symbol::Close => past_close(r),
        Symbol::Unknown => to_stage(r, Step::Fault),
    }
}

// Past a token at a place.
fn past_token(r: Reading, t: Token, at: usize) -> Reading
    requires { (1 ≤ token_bytes t) × (at + token_bytes t ≤ bytes_at_most) }
    ensures { (s : Bytes) → progress_in s result ≡ past_front (front_in (drop at s) t) (progress_in s r) }
{
    match t {
        Token::Nothing => to_stage(r, Step::Fault),
        Token::Gap => r,
        Token::Name(n) => past_name(r, at, at + n),
        Token::Int(w, _) => past_operand(r, Operand::Int(w)),
        Token::Text(n) => {
            past_operand(
                r,
                Operand::Text {
                    start: at + 1,
                    end: at + n - 1,
                },
            )
        }
        Token::Sign(g) => past_sign(r, g),
    }
}

// One code more.
fn with_code(p: Program, c: Code) -> Program
    requires { Filled p × (p.size < bytes_at_most) }
    ensures { Extends p result (code_no c ∷ []) × (result.rows ≡ p.rows) × (result.count ≡ p.count) }
{
    let mut q = p;
    let at = p.size;
    q.codes[at] = c;
    q.size = at + 1;
    q
}

// One comparison more. Like `with_code` but for the array: no generic list without a heap.
fn with_row(p: Program, row: Comparison) -> Program
    requires { Filled p × (p.count < tests_at_most) }
    ensures { Extends p result [] × (result.size ≡ p.size) × ((s : Bytes) → tests_in s result ≡ tests_in s p ++ (test_in s row ∷ [])) }
{
    let mut q = p;
    let at = p.count;
    q.rows[at] = row;
    q.count = at + 1;
    q
}

// A program with the code of an operand, and its comparison where one is awaited.
fn with_operand(p: Program, r: Reading, v: Operand) -> Program
    requires { Filled p × (p.size < bytes_at_most) × (step_no r.stage ≡ 2 → p.count < tests_at_most) }
    ensures { Extends p result (0 ∷ []) × ((s : Bytes) → tests_in s result ≡ tests_with (progress_in s r) (operand (operand_in s v)) (tests_in s p)) }
{
    let q = with_code(p, Code::Test);
    if r.stage != Step::Compared {
        return q;
    }
    with_row(
        q,
        Comparison {
            start: r.start,
            end: r.end,
            operator: r.operator,
            operand: v,
        },
    )
}

// A program with the code of a sign, if it has one. A match and no closure: the sign is read.
fn with_sign(p: Program, g: Symbol) -> Program
    requires { Filled p × (p.size < bytes_at_most) }
    ensures { Extends p result (codes_of_symbol (sign_in g)) × ((s : Bytes) → tests_in s result ≡ tests_in s p) }
{
    match g {
        Symbol::Not => with_code(p, Code::Not),
        Symbol::Or => with_code(p, Code::Or),
        Symbol::Open => with_code(p, Code::Open),
        Symbol::Close => with_code(p, Code::Close),
        Symbol::Comparing(_) | Symbol::And | Symbol::Unknown => p,
    }
}

// A program with what a token at a place adds to it.
fn with_token(p: Program, r: Reading, t: Token, at: usize) -> Program
    requires filled { Filled p × (p.size < bytes_at_most) × (step_no r.stage ≡ 2 → p.count < tests_at_most) }
    requires bound { (1 ≤ token_bytes t) × (at + token_bytes t ≤ bytes_at_most) }
    ensures { (s : Bytes) → Extends p result (codes_front (front_in (drop at s) t)) × (tests_in s result ≡ tests_front (progress_in s r) (front_in (drop at s) t) (tests_in s p)) }
{
    match t {
        Token::Nothing | Token::Gap | Token::Name(_) => p,
        Token::Int(w, _) => with_operand(p, r, Operand::Int(w)),
        Token::Text(n) => {
            with_operand(
                p,
                r,
                Operand::Text {
                    start: at + 1,
                    end: at + n - 1,
                },
            )
        }
        Token::Sign(g) => with_sign(p, g),
    }
}

// A program of nothing.
fn empty() -> Program
    ensures { Filled result × (result.count ≡ 0) × (result.size ≡ 0) }
{
    let row = Comparison {
        start: 0,
        end: 0,
        operator: Operator::Equals,
        operand: Operand::Text { start: 0, end: 0 },
    };
    Program {
        rows: [row; Expression::COMPARISONS],
        count: 0,
        codes: [Code::Test; Expression::BYTES],
        size: 0,
    }
}

// Was an operand read, and is no parenthesis open?
fn is_end(r: Reading) -> bool
    ensures { result ≡ (eqb (step_no r.stage) 3 && eqb r.groups 0) }
{
    r.stage == Step::Read && r.groups == 0
}

// The program of an expression; none of other bytes.
pub(crate) fn read(s: &[u8]) -> Option<Program>
    ensures { Made s.now result }
{
    let table = Classes::new();
    let mut p = empty();
    if s.len() > Expression::BYTES {
        return None;
    }
    let mut r = Reading {
        stage: Step::Wanted,
        groups: 0,
        start: 0,
        end: 0,
        operator: Operator::Equals,
    };
    let mut i = 0;
    while i < s.len() {
        let t = parts::token_at(&table, &s[i..]);
        let n = parts::token_bytes(t);
        if s.len() - i < n {
            return None;
        }
        p = with_token(p, r, t, i);
        r = past_token(r, t, i);
        if r.stage == Step::Fault {
            return None;
        }
        i += n;
    }
    if is_end(r) { Some(p) } else { None }
}
