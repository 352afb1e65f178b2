// One change of a text that stands at the front of a lent buffer: a part of it makes room for another, and what lies behind moves.
#![tactic(auto)]

ghost use Rattle.std.specs.Prelude.{◌≡◌, [], ◌+◌, ◌-◌, ◌≤◌, length, take};
ghost use Rattle.format.specs.Limits.{file_bytes};
ghost use Rattle.format.specs.Written.{written};
ghost use Rattle.format.specs.Calls.{placed};
ghost use Rattle.splices.specs.Space.{spliced};

mod cuts;
mod inserts;
mod space;

pub use cuts::cut_fields;
pub use inserts::{NewRecord, put_record};
use space::open_space;

// `text` in place of `old` bytes at `at`, in a text of `used` bytes: the length of the new one, which the buffer then holds.
pub fn splice(buf: &mut [u8], used: usize, at: usize, old: usize, text: &[u8]) -> usize
    requires { (at + old ≤ used) × (used ≤ length buf.old) × ((used - old) + length text.now ≤ length buf.old) }
    ensures { (result ≡ length (spliced (take used buf.old) at old text.now))
        × (buf.new ≡ placed (spliced (take used buf.old) at old text.now) used buf.old) }
{
    let new = text.len();
    open_space(buf, used, at, old, new);
    writing::put_bytes(&mut buf[at..], text);
    used - old + new
}

// A field's text in place of `old` bytes at `at`, in a text of `used` bytes: the length of the new text, which the buffer then holds.
pub fn put_text(
    buf: &mut [u8],
    used: usize,
    at: usize,
    old: usize,
    name: &[u8],
    value: &[u8],
) -> usize
    requires bound { (at + old ≤ used) × (used ≤ length buf.old) × ((used - old) + length (written name.now value.now) ≤ length buf.old) }
    requires name_len_bound { (length name.now ≤ file_bytes) × (length value.now ≤ file_bytes) }
    ensures { (result ≡ length (spliced (take used buf.old) at old (written name.now value.now)))
        × (buf.new ≡ placed (spliced (take used buf.old) at old (written name.now value.now)) used buf.old) }
{
    let new = writing::written_len(name, value);
    open_space(buf, used, at, old, new);
    writing::put_field(&mut buf[at..], name, value);
    used - old + new
}

// `old` bytes at `at` go.
pub fn cut_text(buf: &mut [u8], used: usize, at: usize, old: usize) -> usize
    requires { (at + old ≤ used) × (used ≤ length buf.old) }
    ensures { (result ≡ length (spliced (take used buf.old) at old []))
        × (buf.new ≡ placed (spliced (take used buf.old) at old []) used buf.old) }
{
    open_space(buf, used, at, old, 0);
    used - old
}
