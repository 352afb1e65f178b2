// The int that a value is.
ghost use Rattle.std.specs.Prelude.{◌≡◌};
ghost use Rattle.format.specs.Words.{trim};
ghost use Rattle.format.specs.Numbers.{int_bounds, int_of};
ghost use Rattle.numbers.specs.Meaning.{int_answer};

use numbers::Whole;

// The int that a value is, blanks and newlines around it aside.
pub fn int_in(v: &[u8]) -> Option<Whole>
    ensures { int_answer result ≡ int_of int_bounds (trim v.now) }
{
    let t = words::trimmed(v);
    let a = t.start;
    let e = t.end;
    numbers::int_of(&v[a..e])
}
