// The codes of a program run over the bits of its comparisons, one level of parentheses at a time.
ghost use Rattle.std.specs.Prelude.{◌≡◌, map};
ghost use Rattle.selection.specs.Programs.{code_no, differ, answered_by, joined, whole_answer, on_code, run_answer};

// A comparison, or a sign; `&&` needs none.
#[derive(Clone, Copy)]
pub(crate) enum Code {
    Test,
    Not,
    Or,
    Open,
    Close,
}

// A level, the levels around it, and the bits that were not used yet.
#[derive(Drop)]
struct Machine {
    level: u64,
    outer: u64,
    bits: u64,
}

fn differ(a: bool, b: bool) -> bool
    ensures { result ≡ differ a b }
{
    if a { !b } else { b }
}

// A level with the answer of an operand.
fn answered_by(x: u64, b: bool) -> u64
    ensures { result ≡ answered_by x b }
{
    let all = x / 2 % 2 == 1;
    let odd = x / 4 == 1;
    if all & differ(odd, b) {
        return x % 2 + 2;
    }
    x % 2
}

// A level behind a `||`.
fn joined(x: u64) -> u64
    ensures { result ≡ joined x }
{
    if x % 4 == 0 { 2 } else { 3 }
}

// The answer of a level.
fn whole_answer(x: u64) -> bool
    ensures { result ≡ whole_answer x }
{
    x % 4 != 0
}

// Past one code.
fn on_code(m: Machine, c: Code) -> Machine
    ensures { result ≡ on_code (code_no c) m }
{
    match c {
        Code::Test => Machine {
            level: answered_by(m.level, m.bits % 2 == 1),
            outer: m.outer,
            bits: m.bits / 2,
        },
        Code::Not => Machine {
            level: (m.level % 8 + 4) % 8,
            ..m
        },
        Code::Or => Machine {
            level: joined(m.level),
            ..m
        },
        Code::Open => Machine {
            level: 2,
            outer: m.outer % 1152921504606846976 * 8 + m.level % 8,
            bits: m.bits,
        },
        Code::Close => Machine {
            level: answered_by(m.outer % 8, whole_answer(m.level)),
            outer: m.outer / 8,
            bits: m.bits,
        },
    }
}

// What the codes answer over some bits.
pub(crate) fn run(codes: &[Code], bits: u64) -> bool
    ensures { result ≡ run_answer (map code_no codes.now) bits }
{
    let mut m = Machine {
        level: 2,
        outer: 0,
        bits,
    };
    for &c in codes {
        m = on_code(m, c);
    }
    whole_answer(m.level)
}
