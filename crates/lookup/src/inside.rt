// Count, fetch, view and the sets' names in a text that is known to be readable: for whoever has
// checked a file and looks inside.
ghost use Rattle.std.specs.Prelude.{◌≡◌, true};
ghost use Rattle.format.specs.Bytes.{text};
ghost use Rattle.format.specs.Sets.{values_of};
ghost use Rattle.format.specs.Calls.{answered};
ghost use Rattle.records.specs.Places.{is_readable, places_of};
ghost use Rattle.records.specs.Walk.{record_in};
ghost use Rattle.lookup.specs.Answers.{seen_answer, SeenInside, count_in, fetch_in, view_in, name_in};
ghost use Rattle.lookup.specs.Names.{descriptor_at, titled};

use format::Refusal;
use records::{Place, ValuePlace};
use words::Span;

// The count of a set in a readable text.
pub fn count_in(s: &[u8], set: &[u8]) -> Result<usize, Refusal>
    requires { is_readable s.now ≡ true }
    ensures { answered result ≡ count_in s.now set.now }
{
    let Some(p) = records::find_set(s, set) else {
        return Err(Refusal::Set);
    };
    Ok(p.count)
}

// A record of a set in a readable text, from its first field's first byte to the byte behind its last field.
pub fn view_in(s: &[u8], set: &[u8], row: usize) -> Result<Span, Refusal>
    requires { is_readable s.now ≡ true }
    ensures { (seen_answer s.now result ≡ view_in s.now set.now row) × SeenInside s.now result }
{
    let Some(head) = records::find_head(s, set) else {
        return Err(Refusal::Set);
    };
    let a = head.begin;
    let Some(p) = records::find_record(&s[a..], row) else {
        return Err(Refusal::Record);
    };
    let start = a + p.start;
    let end = a + p.end;
    Ok(Span { start, end })
}

// The value of an occurrence of a name in a record of a set of a readable text, put into out.
pub fn fetch_in(
    s: &[u8],
    set: &[u8],
    row: usize,
    name: &[u8],
    occurrence: usize,
    out: &mut [u8],
) -> Result<usize, Refusal>
    requires { is_readable s.now ≡ true }
    ensures { fetch_in s.now set.now row name.now occurrence out.old ≡ record { result = answered result; out = out.new } }
{
    let Some(head) = records::find_head(s, set) else {
        return Err(Refusal::Set);
    };
    let a = head.begin;
    let Some(p) = records::find_record(&s[a..], row) else {
        return Err(Refusal::Record);
    };
    let b = a + p.start;
    let e = a + p.end;
    let Some(ValuePlace { value, end, .. }) = records::find_field(&s[b..e], name, occurrence) else {
        return Err(Refusal::Field);
    };
    let v = b + value;
    let w = b + end;
    let n = values::value_len(&s[v..w]);
    if out.len() < n {
        return Err(Refusal::Room);
    }
    values::copy_value(&s[v..w], out);
    Ok(n)
}

// Where descriptor k stands.
fn find_descriptor(s: &[u8], k: usize) -> Option<Place>
    requires { is_readable s.now ≡ true }
    ensures { result ≡ descriptor_at (places_of s.now) k }
{
    let mut i = 0;
    let mut left = k;
    loop {
        let Some(p) = records::next_set(&s[i..]) else {
            return None;
        };
        if left == 0 {
            return Some(Place {
                start: i + p.start,
                end: i + p.end,
                after: i + p.begin,
                descriptor: true,
            });
        }
        left -= 1;
        i += p.after;
    }
}

// The name of the set that a descriptor, which fills d, opens, put into out.
fn descriptor_name(d: &[u8], out: &mut [u8]) -> Result<usize, Refusal>
    requires { is_readable d.now ≡ true }
    ensures { titled (values_of (text "%rec") (record_in d.now)) out.old ≡ record { result = answered result; out = out.new } }
{
    let Some(ValuePlace { value, end, .. }) = records::find_field(d, b"%rec", 0) else {
        return Err(Refusal::Set);
    };
    let i = values::word_start(&d[value..end]);
    let n = values::word_len(&d[value..end], i);
    if out.len() < n {
        return Err(Refusal::Room);
    }
    values::copy_word(&d[value..end], i, out);
    Ok(n)
}

// The name of set k of a readable text, in file order, put into out.
pub fn name_in(s: &[u8], k: usize, out: &mut [u8]) -> Result<usize, Refusal>
    requires { is_readable s.now ≡ true }
    ensures { name_in s.now k out.old ≡ record { result = answered result; out = out.new } }
{
    if k == 0 {
        return Ok(0);
    }
    let Some(p) = find_descriptor(s, k - 1) else {
        return Err(Refusal::Set);
    };
    let a = p.start;
    let e = p.end;
    descriptor_name(&s[a..e], out)
}
