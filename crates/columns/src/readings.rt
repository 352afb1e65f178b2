// A value against many types: it is read as an int once, and of which `enum` types it is a symbol is known by one search.
ghost use Rattle.std.specs.Prelude.{◌≡◌};
ghost use Rattle.format.specs.Words.{trim};
ghost use Rattle.format.specs.Numbers.{int_bounds, int_of};
ghost use Rattle.numbers.specs.Meaning.{int_answer};
ghost use Rattle.columns.specs.Readings.{met_by};

use numbers::Whole;
use typing::Shape;

// Does a value meet a kind? x is what it is as an int, and symbol tells whether it is a symbol of the kind, if that is an `enum`.
pub fn shape_met(kind: Shape, v: &[u8], x: Option<Whole>, symbol: bool) -> bool
    requires { int_answer x ≡ int_of int_bounds (trim v.now) }
    ensures { result ≡ met_by kind symbol v.now }
{
    match kind {
        Shape::Int => typing::is_int(x),
        Shape::Range(low, high) => typing::is_between(low, high, x),
        Shape::Enum { .. } => symbol,
        Shape::Alias { .. } => false,
        _ => typing::meets(kind, b"", v),
    }
}
