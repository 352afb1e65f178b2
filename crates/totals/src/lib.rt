// Totals of a field: the values of one name in a set's records, added exactly.
#![tactic(auto)]

ghost use Rattle.std.specs.Prelude.{◌≡◌, true, ◌≤◌, ◌<◌, nat_abs, length};
ghost use Rattle.format.specs.Limits.{file_bytes};
ghost use Rattle.records.specs.Places.{is_readable};
ghost use Rattle.totals.specs.Totals.{rounded, hundredths_of, totalled_by, total_answer};
ghost use Rattle.totals.specs.Adding.{total_in};

use adding::{Sum, add_values};
use format::Refusal;
use parts::{Part, find_part};

mod adding;
mod figures;
mod parts;
mod plain;
mod signs;

pub use figures::millionths_of;
pub use signs::magnitude;

// So many millionths in hundredths, a half up.
fn rounded_of(n: u64) -> u64
    requires { n < 9223372036854775808 }
    ensures { result ≡ rounded n }
{
    (n + 5000) / 10000
}

// A sum of millionths in hundredths.
fn hundredths(sum: i64) -> i64
    requires { nat_abs sum < 9223372036854775808 }
    ensures { result ≡ hundredths_of sum }
{
    let below = sum < 0;
    let n = signs::magnitude(sum);
    let r = rounded_of(n);
    signs::signed_of(below, r)
}

// A sum in hundredths, the exact millionths and the number of values.
#[derive(Clone, Copy)]
pub struct Totalled {
    pub hundredths: i64,
    pub millionths: i64,
    pub number: usize,
}

// The total of a name in a set of a readable text.
fn total_in(s: &[u8], set: &[u8], name: &[u8]) -> Result<Totalled, Refusal>
    requires { (is_readable s.now ≡ true) × (length s.now ≤ file_bytes) }
    ensures { totalled_by result ≡ total_in s.now set.now name.now }
{
    let Some(Part { begin, end }) = find_part(s, set) else {
        return Err(Refusal::Set);
    };
    let Some(Sum { millionths, number }) = add_values(&s[begin..end], name) else {
        return Err(Refusal::Uncounted);
    };
    Ok(Totalled {
        hundredths: hundredths(millionths),
        millionths,
        number,
    })
}

// The total of a name in a set of the file at the front of a buffer: every occurrence in every
// record of the set.
pub fn total(buf: &[u8], used: usize, set: &[u8], name: &[u8]) -> Result<Totalled, Refusal>
    ensures { totalled_by result ≡ total_answer buf.now used set.now name.now }
{
    integrity::check(buf, used)?;
    total_in(&buf[0..used], set, name)
}
