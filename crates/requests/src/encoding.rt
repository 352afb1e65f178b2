// A request under construction: one tagged field after another.
ghost use Rattle.std.specs.Prelude.{◌≡◌, ◌+◌, ◌≤◌, length};
ghost use Rattle.format.specs.Requests.{tag as tag_of, tagged_bytes};
ghost use Rattle.format.specs.Calls.{over, has_room, field_answer};

// What a field is made of, in bytes: its tag and its length, and the most that two bytes say of its contents.
#[derive(Drop)]
struct Field {}

impl Field {
    const HEAD: usize = 3;

    const CONTENTS: usize = 65535;
}

// Is there room for a field with so many bytes of contents, at a place of so many bytes?
fn has_room(len: usize, at: usize, n: usize) -> bool
    ensures { result ≡ has_room len at n }
{
    if n > Field::CONTENTS {
        return false;
    }
    if len < at {
        return false;
    }
    Field::HEAD + n <= len - at
}

// A tagged field at the front of out, which holds it. Bytes behind it stay.
fn put_tagged(out: &mut [u8], tag: u8, contents: &[u8])
    requires { (length contents.now ≤ 65535) × (3 + length contents.now ≤ length out.old) }
    ensures { out.new ≡ over (tagged_bytes (tag_of tag contents.now)) out.old }
{
    let n = contents.len();
    out[0] = tag;
    out[1] = (n / 256) as u8;
    out[2] = (n % 256) as u8;
    writing::put_bytes(&mut out[3..], contents);
}

// A tagged field at a place of a request, and the byte behind it. Without room nothing is written, and the answer is a place that has none.
pub fn put_field(request: &mut [u8], at: usize, tag: u8, contents: &[u8]) -> usize
    ensures { record { next = result; out = request.new } ≡ field_answer request.old at (tag_of tag contents.now) }
{
    let n = contents.len();
    if !has_room(request.len(), at, n) {
        return request.len() + 1;
    }
    put_tagged(&mut request[at..], tag, contents);
    at + Field::HEAD + n
}
