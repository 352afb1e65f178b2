// A record put into a text.
ghost use Rattle.std.specs.Prelude.{◌≡◌, true, ◌∷◌, ◌+◌, ◌≤◌, length, take};
ghost use Rattle.format.specs.Bytes.{is_some};
ghost use Rattle.format.specs.Calls.{over, placed};
ghost use Rattle.requests.specs.Pairs.{pairs_from};
ghost use Rattle.splices.specs.Space.{spliced, inserted, record_text};

use super::space::open_space;

// A record to be put in at the end of a set: the place, where its pairs begin in the request, and the length of its whole text.
#[derive(Clone, Copy)]
pub struct NewRecord {
    pub at: usize,
    pub from: usize,
    pub len: usize,
}

// A record's text at the front of out, which holds it: its first fields, which are written already, then the pairs of a request.
fn put_fields(out: &mut [u8], first: &[u8], req: &[u8], from: usize)
    requires from_value { is_some (pairs_from req.now from) ≡ true }
    requires from_in_bounds { length (record_text first.now req.now from) ≤ length out.old }
    ensures { out.new ≡ over (record_text first.now req.now from) out.old }
{
    let n = first.len();
    writing::put_bytes(&mut *out, first);
    requests::put_pairs(req, from, &mut out[n..]);
}

// A newline and a record's text.
fn put_behind(buf: &mut [u8], used: usize, r: NewRecord, first: &[u8], req: &[u8]) -> usize
    requires at_le_used { (r.at ≤ used) × (used ≤ length buf.old) × (used + (r.len + 1) ≤ length buf.old) }
    requires from_value { is_some (pairs_from req.now r.from) ≡ true }
    requires len_value { r.len ≡ length (record_text first.now req.now r.from) }
    ensures { (result ≡ length (spliced (take used buf.old) r.at 0 (10 ∷ record_text first.now req.now r.from)))
        × (buf.new ≡ placed (spliced (take used buf.old) r.at 0 (10 ∷ record_text first.now req.now r.from)) used buf.old) }
{
    let at = r.at;
    let new = r.len + 1;
    open_space(buf, used, at, 0, new);
    let start = at + 1;
    put_fields(&mut buf[start..], first, req, r.from);
    buf[at] = b'\n';
    used + new
}

// A record's text in front, with a newline behind it where a text follows.
fn put_front(buf: &mut [u8], used: usize, r: NewRecord, first: &[u8], req: &[u8]) -> usize
    requires used_in_bounds { (used ≤ length buf.old) × (length (inserted (take used buf.old) 0 (record_text first.now req.now r.from)) ≤ length buf.old) }
    requires from_value { is_some (pairs_from req.now r.from) ≡ true }
    requires len_value { r.len ≡ length (record_text first.now req.now r.from) }
    ensures { (result ≡ length (inserted (take used buf.old) 0 (record_text first.now req.now r.from)))
        × (buf.new ≡ placed (inserted (take used buf.old) 0 (record_text first.now req.now r.from)) used buf.old) }
{
    let len = r.len;
    if used == 0 {
        put_fields(buf, first, req, r.from);
        return len;
    }
    let new = len + 1;
    open_space(buf, used, 0, 0, new);
    put_fields(buf, first, req, r.from);
    buf[len] = b'\n';
    used + new
}

// A record at the end of a set: behind a newline, and at 0 in front of the text. Its first fields are written already.
pub fn put_record(buf: &mut [u8], used: usize, r: NewRecord, first: &[u8], req: &[u8]) -> usize
    requires at_le_used { (r.at ≤ used) × (used ≤ length buf.old) × (length (inserted (take used buf.old) r.at (record_text first.now req.now r.from)) ≤ length buf.old) }
    requires from_value { is_some (pairs_from req.now r.from) ≡ true }
    requires len_value { r.len ≡ length (record_text first.now req.now r.from) }
    ensures { (result ≡ length (inserted (take used buf.old) r.at (record_text first.now req.now r.from)))
        × (buf.new ≡ placed (inserted (take used buf.old) r.at (record_text first.now req.now r.from)) used buf.old) }
{
    if r.at == 0 {
        return put_front(buf, used, r, first, req);
    }
    put_behind(buf, used, r, first, req)
}
