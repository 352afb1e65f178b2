// Whole numbers with their signs, in 64 bits.
ghost use Rattle.std.specs.Prelude.{◌≡◌, ◌+◌, ◌<◌, nat_abs, ◌+ℤ◌};
ghost use Rattle.totals.specs.Totals.{signed};

// A number below zero, or not.
pub fn signed_of(negative: bool, m: u64) -> i64
    requires { m < 9223372036854775808 }
    ensures { result ≡ signed negative m }
{
    let n = m as i64;
    if negative { -n } else { n }
}

// Two numbers whose sum fits.
pub fn add(a: i64, b: i64) -> i64
    requires { nat_abs a + nat_abs b < 9223372036854775808 }
    ensures { result ≡ a +ℤ b }
{
    a + b
}

// A number without its sign.
pub fn magnitude(z: i64) -> u64
    requires { nat_abs z < 9223372036854775808 }
    ensures { result ≡ nat_abs z }
{
    if z < 0 { (-z) as u64 } else { z as u64 }
}
