// Two values compared where they stand, without being decoded to anywhere: by their lengths,
// then by their bytes from the last to the first.
ghost use Rattle.std.specs.Prelude.{◌≡◌};
ghost use Rattle.format.specs.Bytes.{same};
ghost use Rattle.values.specs.Value.{value_from};
ghost use Rattle.values.specs.Likeness.{likeness_of, Measured};

use super::{Decoded, byte_before, plain_end, value_byte};

// Two values are equal, or their lengths are unlike, or there is a last place where they differ,
// from 0. Which of them comes first is told with it: the shorter one, or the one with the lesser
// byte there.
#[derive(Drop)]
pub enum Likeness {
    Equal,
    Unlike { shorter: bool },
    Differ { place: usize, less: bool },
}

// The length of a value, and where it ends.
#[derive(Drop)]
struct Span {
    n: usize,
    end: usize,
}

// The value that begins where v does.
fn measure(v: &[u8]) -> Span
    ensures { Measured v.now result.n result.end }
{
    let mut i = 0;
    let mut n = 0;
    loop {
        let end = plain_end(v, i);
        n += end - i;
        let Some(Decoded { next, .. }) = value_byte(v, end) else {
            return Span { n, end };
        };
        i = next;
        n += 1;
    }
}

// Two values of one length n, which end at i and j, from the last byte to the first.
fn last_difference(a: &[u8], b: &[u8], n: usize, i: usize, j: usize) -> Likeness
    requires { (Measured a.now n i) × (Measured b.now n j) }
    ensures { result ≡ likeness_of (value_from a.now) (value_from b.now) }
{
    let mut place = n;
    let mut p = i;
    let mut q = j;
    loop {
        let x = byte_before(a, p);
        let y = byte_before(b, q);
        let Some(Decoded { byte: c, next: k }) = x else {
            return Likeness::Equal;
        };
        let Some(Decoded { byte: d, next: l }) = y else {
            return Likeness::Equal;
        };
        place -= 1;
        if c != d {
            return Likeness::Differ { place, less: c < d };
        }
        p = k;
        q = l;
    }
}

// The values that begin where a and b do. By hand: they are decoded where they stand.
pub fn compare(a: &[u8], b: &[u8]) -> Likeness
    ensures { result ≡ likeness_of (value_from a.now) (value_from b.now) }
{
    let x = measure(a);
    let y = measure(b);
    let n = x.n;
    if n < y.n {
        return Likeness::Unlike { shorter: true };
    }
    if y.n < n {
        return Likeness::Unlike { shorter: false };
    }
    last_difference(a, b, n, x.end, y.end)
}

// Are the values that begin where a and b do the same?
pub fn are_equal(a: &[u8], b: &[u8]) -> bool
    ensures { result ≡ same (value_from a.now) (value_from b.now) }
{
    matches!(compare(a, b), Likeness::Equal)
}
