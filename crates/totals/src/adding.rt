// The values of a name, added one after another.
ghost use Rattle.std.specs.Prelude.{◌≡◌, true, ◌≤◌, length};
ghost use Rattle.format.specs.Limits.{file_bytes};
ghost use Rattle.format.specs.Numbering.{every};
ghost use Rattle.format.specs.Sets.{values_of};
ghost use Rattle.records.specs.Places.{is_readable};
ghost use Rattle.records.specs.Walk.{record_in};
ghost use Rattle.totals.specs.Totals.{millionths_of};
ghost use Rattle.totals.specs.Adding.{added, summed, SumFits};

use super::plain::read_value;
use super::signs;
use records::ValuePlace;

// The sum of values, and how many they are.
#[derive(Clone, Copy)]
pub struct Sum {
    pub millionths: i64,
    pub number: usize,
}

// The values in s of the fields of a name, added; none if some value does not count.
pub fn add_values(s: &[u8], name: &[u8]) -> Option<Sum>
    requires { (is_readable s.now ≡ true) × (length s.now ≤ file_bytes) }
    ensures { (added result ≡ summed (every millionths_of (values_of name.now (record_in s.now)))) × SumFits result }
{
    let mut i = 0;
    let mut sum: i64 = 0;
    let mut n = 0;
    loop {
        let Some(ValuePlace { value, end, .. }) = records::next_named(&s[i..], name) else {
            return Some(Sum {
                millionths: sum,
                number: n,
            });
        };
        let z = read_value(&s[i + value..])?;
        sum = signs::add(sum, z);
        n += 1;
        i += end;
    }
}
