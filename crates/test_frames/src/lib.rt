// Test input: frames on standard input, each a size of four bytes, high byte first, and that many bytes. Long texts stand in a frame as runs:
// how often (two bytes), the size of a text (two bytes), the text.
#![tactic(auto)]

ghost use Rattle.std.specs.Prelude.{◌<◌, ◌≤◌};
ghost use Rattle.io.specs.Counts.{IsPrefixLen};

pub fn least(a: usize, b: usize) -> usize
    ensures { (result ≤ a) × (result ≤ b) }
{
    a.min(b)
}

// A number of bytes of a buffer, all where it is larger.
pub fn within(n: usize, buf: &[u8]) -> usize
    ensures { IsPrefixLen result buf.now }
{
    least(n, buf.len())
}

fn wide(b: u8) -> usize
    ensures { result < 256 }
{
    b as usize
}

// The two bytes at i as a number, high byte first, 0 where they are not there.
pub fn two(s: &[u8], i: usize) -> usize
    ensures { result < 65536 }
{
    if s.len() <= i {
        return 0;
    }
    if s.len() - i < 2 {
        return 0;
    }
    wide(s[i]) * 256 + wide(s[i + 1])
}

// The four bytes at i as a number, high byte first.
pub fn four(s: &[u8], i: usize) -> usize
    ensures { result < 4294967296 }
{
    if s.len() <= i {
        return 0;
    }
    two(s, i) * 65536 + two(s, i + 2)
}

// The next frame, put into out: its size, 0 at the end of the input or where it is larger than out.
pub fn read(out: &mut [u8]) -> usize
    ensures { IsPrefixLen result out.new }
{
    let mut head = [0u8; 4];
    let n = io::read_full(0, &mut head);
    if n < 4 {
        return 0;
    }
    let size = four(&head, 0);
    if out.len() < size {
        return 0;
    }
    io::read_full(0, &mut out[..size])
}

// A text put into out from a place on, as far as there is room: the place behind it.
fn put(out: &mut [u8], from: usize, text: &[u8]) -> usize {
    if out.len() <= from {
        return from;
    }
    let n = least(text.len(), out.len() - from);
    out[from..from + n].copy_from_slice(&text[..n]);
    from + n
}

// A text put so many times, one behind the other.
fn repeat(out: &mut [u8], from: usize, text: &[u8], times: usize) -> usize {
    let mut at = from;
    for _ in 0..times {
        at = put(out, at, text);
    }
    at
}

// The runs of a frame from a place on, put into out: the size of the whole.
pub fn expand(frame: &[u8], from: usize, out: &mut [u8]) -> usize
    ensures { IsPrefixLen result out.new }
{
    let mut i = from;
    let mut at = 0;
    while i < frame.len() {
        if frame.len() - i < 4 {
            return least(at, out.len());
        }
        let a = i + 4;
        let size = two(frame, i + 2);
        if frame.len() - a < size {
            return least(at, out.len());
        }
        let e = a + size;
        at = repeat(out, at, &frame[a..e], two(frame, i));
        i = e;
    }
    least(at, out.len())
}

// A part of a frame, of a size and from a place on, the empty one where it does not lie inside.
pub fn part<'a>(frame: &'a [u8], from: usize, size: usize) -> &'a [u8] {
    if frame.len() < from {
        return &frame[0..0];
    }
    if frame.len() - from < size {
        return &frame[0..0];
    }
    let e = from + size;
    &frame[from..e]
}

fn reduced(x: usize) -> usize
    requires { x < 131042 }
    ensures { result < 65521 }
{
    if x < 65521 { x } else { x - 65521 }
}

// The Adler-32 checksum.
pub fn digest(s: &[u8]) -> usize {
    let mut a = 1;
    let mut b = 0;
    for &x in s {
        a = reduced(a + wide(x));
        b = reduced(b + a);
    }
    b * 65536 + a
}
