// The pairs of an insert: read, summed, and written as a record's text.
ghost use Rattle.std.specs.Prelude.{◌≡◌, true, ◌+◌, ◌≤◌, length};
ghost use Rattle.std.proofs.lemmas.List.Edits.{sets};
ghost use Rattle.format.specs.Bytes.{is_some};
ghost use Rattle.format.specs.Limits.{file_bytes};
ghost use Rattle.format.specs.Written.{written, is_legal_pair, written_all};
ghost use Rattle.format.specs.Calls.{over};
ghost use Rattle.requests.specs.Fields.{bytes_of, InSpan};
ghost use Rattle.requests.specs.Pairs.{pairs_from, pairs_at, pair_of, PairAt, Weighs};

use super::fields::{Tag, text_at};
use words::Span;

// A pair of an insert: its name, its value, and where the next one is looked for.
#[derive(Clone, Copy)]
pub struct Pair {
    pub name: Span,
    pub value: Span,
    pub next: usize,
}

// The pair at a place, none where nothing is left or what is left is no pair.
pub fn pair_at(req: &[u8], i: usize) -> Option<Pair>
    ensures { PairAt req.now i result }
{
    let name = text_at(req, i, Tag::Name)?;
    let value = text_at(req, name.end, Tag::Value)?;
    Some(Pair {
        name,
        value,
        next: value.end,
    })
}

// Are the fields from a place on pairs?
pub(crate) fn are_pairs(req: &[u8], from: usize) -> bool
    ensures { result ≡ is_some (pairs_from req.now from) }
{
    let mut i = from;
    loop {
        let Some(pair) = pair_at(req, i) else {
            return req.len() <= i;
        };
        i = pair.next;
    }
}

// Are a pair's name and value legal?
pub fn is_legal_pair(req: &[u8], name: Span, value: Span) -> bool
    requires { InSpan req.now name × InSpan req.now value }
    ensures { result ≡ is_legal_pair (pair_of req.now name value) }
{
    let a = name.start;
    let b = name.end;
    let c = value.start;
    let d = value.end;
    if !writing::is_legal_name(&req[a..b]) {
        return false;
    }
    writing::is_legal_value(&req[c..d])
}

// The length of a pair's text.
fn pair_len(req: &[u8], name: Span, value: Span) -> usize
    requires req_len_bound { length req.now ≤ file_bytes }
    requires in_span { InSpan req.now name × InSpan req.now value }
    ensures { result ≡ length (written (bytes_of req.now name) (bytes_of req.now value)) }
{
    let a = name.start;
    let b = name.end;
    let c = value.start;
    let d = value.end;
    writing::written_len(&req[a..b], &req[c..d])
}

// A pair's text from a place of out on; where it ends.
fn put_pair(out: &mut [u8], at: usize, req: &[u8], name: Span, value: Span) -> usize
    requires in_span { InSpan req.now name × InSpan req.now value }
    requires value_in_bounds { at + length (written (bytes_of req.now name) (bytes_of req.now value)) ≤ length out.old }
    ensures { (result ≡ at + length (written (bytes_of req.now name) (bytes_of req.now value))) × (out.new ≡ sets out.old at (written (bytes_of req.now name) (bytes_of req.now value))) }
{
    let a = name.start;
    let b = name.end;
    let c = value.start;
    let d = value.end;
    let n = writing::put_field(&mut out[at..], &req[a..b], &req[c..d]);
    at + n
}

// The length of the text of pairs, and their number.
#[derive(Clone, Copy)]
pub struct Weight {
    pub len: usize,
    pub count: usize,
}

// None: a pair is not legal.
pub fn weigh(req: &[u8], from: usize) -> Option<Weight>
    requires req_len_bound { (length req.now ≤ file_bytes) × (from ≤ length req.now) }
    requires from_value { is_some (pairs_from req.now from) ≡ true }
    ensures { Weighs (pairs_at req.now from) result }
{
    let mut i = from;
    let mut len: usize = 0;
    let mut count: usize = 0;
    loop {
        let Some(Pair { name, value, next }) = pair_at(req, i) else {
            return Some(Weight { len, count });
        };
        if !is_legal_pair(req, name, value) {
            return None;
        }
        len += pair_len(req, name, value);
        count += 1;
        i = next;
    }
}

// The text of pairs at the front of out, which holds it.
pub fn put_pairs(req: &[u8], from: usize, out: &mut [u8]) -> usize
    requires from_value { is_some (pairs_from req.now from) ≡ true }
    requires from_in_bounds { length (written_all (pairs_at req.now from)) ≤ length out.old }
    ensures { (result ≡ length (written_all (pairs_at req.now from))) × (out.new ≡ over (written_all (pairs_at req.now from)) out.old) }
{
    let mut i = from;
    let mut at = 0;
    loop {
        let Some(Pair { name, value, next }) = pair_at(req, i) else {
            return at;
        };
        at = put_pair(out, at, req, name, value);
        i = next;
    }
}
