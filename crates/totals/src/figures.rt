// A value read digit by digit.
ghost use Rattle.std.specs.Prelude.{◌≡◌, ◌+◌, ◌^◌, ◌≤◌, ◌<◌};
ghost use Rattle.values.specs.Value.{value_from};
ghost use Rattle.totals.specs.Totals.{whole_digits, fraction_digits, millionths_of};
ghost use Rattle.totals.specs.Figures.{Within, begun, stepped, filled_from, told_by, counted};

use super::signs::signed_of;
use values::Decoded;

// What has been seen: blanks and newlines; the sign; digits before the dot, how many and what
// they stand for; the dot; digits behind it too; blanks and newlines behind all that; or a byte
// that no value that counts has there.
#[derive(Drop)]
pub enum Figure {
    Start,
    Sign,
    Whole {
        negative: bool,
        digits: usize,
        number: u64,
    },
    Dot {
        negative: bool,
        number: u64,
    },
    Fraction {
        negative: bool,
        digits: usize,
        number: u64,
    },
    Behind {
        negative: bool,
        digits: usize,
        number: u64,
    },
    Fault,
}

// The first digit.
fn begin(negative: bool, b: u8) -> Figure
    ensures { result ≡ begun negative b }
{
    let d = numbers::digit_of(b);
    if d < 10 {
        Figure::Whole {
            negative,
            digits: 1,
            number: d,
        }
    } else {
        Figure::Fault
    }
}

// A byte behind digits before the dot.
fn in_whole(negative: bool, digits: usize, number: u64, b: u8) -> Figure
    requires { Within (Figure.Whole negative digits number) }
    ensures { result ≡ stepped (Figure.Whole negative digits number) b }
{
    let d = numbers::digit_of(b);
    if d < 10 {
        if digits < 8 {
            return Figure::Whole {
                negative,
                digits: digits + 1,
                number: number * 10 + d,
            };
        }
        return Figure::Fault;
    }
    if b == b'.' {
        return Figure::Dot { negative, number };
    }
    if words::is_gap(b) {
        return Figure::Behind {
            negative,
            digits: 0,
            number,
        };
    }
    Figure::Fault
}

// A byte behind the dot.
fn behind_dot(negative: bool, number: u64, b: u8) -> Figure
    requires { Within (Figure.Dot negative number) }
    ensures { result ≡ stepped (Figure.Dot negative number) b }
{
    let d = numbers::digit_of(b);
    if d < 10 {
        Figure::Fraction {
            negative,
            digits: 1,
            number: number * 10 + d,
        }
    } else {
        Figure::Fault
    }
}

// A byte behind digits behind the dot.
fn in_fraction(negative: bool, digits: usize, number: u64, b: u8) -> Figure
    requires { Within (Figure.Fraction negative digits number) }
    ensures { result ≡ stepped (Figure.Fraction negative digits number) b }
{
    let d = numbers::digit_of(b);
    if d < 10 {
        if digits < 6 {
            return Figure::Fraction {
                negative,
                digits: digits + 1,
                number: number * 10 + d,
            };
        }
        return Figure::Fault;
    }
    if words::is_gap(b) {
        return Figure::Behind {
            negative,
            digits,
            number,
        };
    }
    Figure::Fault
}

// The first byte that is no blank and no newline, or one more of these.
fn at_start(b: u8) -> Figure
    ensures { result ≡ stepped Figure.Start b }
{
    if words::is_gap(b) {
        return Figure::Start;
    }
    if b == b'-' {
        return Figure::Sign;
    }
    begin(false, b)
}

// A byte behind the value.
fn behind_value(negative: bool, digits: usize, number: u64, b: u8) -> Figure
    ensures { result ≡ stepped (Figure.Behind negative digits number) b }
{
    if words::is_gap(b) {
        Figure::Behind {
            negative,
            digits,
            number,
        }
    } else {
        Figure::Fault
    }
}

// One byte more.
pub fn step(f: Figure, b: u8) -> Figure
    requires { Within f }
    ensures { result ≡ stepped f b }
{
    match f {
        Figure::Start => at_start(b),
        Figure::Sign => begin(true, b),
        Figure::Whole {
            negative,
            digits,
            number,
        } => in_whole(negative, digits, number, b),
        Figure::Dot { negative, number } => behind_dot(negative, number, b),
        Figure::Fraction {
            negative,
            digits,
            number,
        } => in_fraction(negative, digits, number, b),
        Figure::Behind {
            negative,
            digits,
            number,
        } => behind_value(negative, digits, number, b),
        Figure::Fault => Figure::Fault,
    }
}

// A number of so many digits behind the dot, in millionths.
pub(super) fn filled(digits: usize, number: u64) -> u64
    requires { (digits ≤ fraction_digits) × (number < 10 ^ (whole_digits + digits)) }
    ensures { (result ≡ filled_from digits number) × (result < 100000000000000) }
{
    let mut m = number;
    for k in digits..6 {
        m = m * 10;
    }
    m
}

// What the value adds, at its end.
pub fn told(f: Figure) -> Option<i64>
    requires { Within f }
    ensures { counted result ≡ told_by f }
{
    match f {
        Figure::Whole {
            negative,
            number,
            ..
        } => Some(signed_of(negative, filled(0, number))),
        Figure::Fraction {
            negative,
            digits,
            number,
        } => Some(signed_of(negative, filled(digits, number))),
        Figure::Behind {
            negative,
            digits,
            number,
        } => Some(signed_of(negative, filled(digits, number))),
        Figure::Start | Figure::Sign | Figure::Dot { .. } | Figure::Fault => None,
    }
}

// What a text adds to a total.
pub fn millionths_of(v: &[u8]) -> Option<i64>
    ensures { counted result ≡ millionths_of v.now }
{
    let mut f = Figure::Start;
    for &b in v {
        f = step(f, b);
    }
    told(f)
}

// What the value that begins where s does adds to a total: read where it stands, over joined
// lines and plus lines.
pub fn value_millionths(s: &[u8]) -> Option<i64>
    ensures { counted result ≡ millionths_of (value_from s.now) }
{
    let mut f = Figure::Start;
    let mut i = 0;
    loop {
        let Some(Decoded { byte, next }) = values::value_byte(s, i) else {
            return told(f);
        };
        f = step(f, byte);
        i = next;
    }
}
