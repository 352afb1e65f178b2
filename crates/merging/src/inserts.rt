// Records of a spare put into a text that is not judged yet.
ghost use Rattle.std.specs.Prelude.{◌≡◌, map, ◌+◌, ◌≤◌, true, ◌&&◌, length, take};
ghost use Rattle.format.specs.Bytes.{all, any, is_some};
ghost use Rattle.format.specs.Lists.{flat, is_filled};
ghost use Rattle.format.specs.Pieces.{read_of};
ghost use Rattle.format.specs.Sets.{sets_of};
ghost use Rattle.format.specs.Numbers.{int_bounds};
ghost use Rattle.format.specs.Numbering.{added as added_by};
ghost use Rattle.format.specs.Rules.{key};
ghost use Rattle.format.specs.Plain.{index_of};
ghost use Rattle.format.proofs.Elements.{Filled};
ghost use Rattle.format.proofs.Records.{records};
ghost use Rattle.format.proofs.Walking.{ruled};
ghost use Rattle.words.specs.Spans.{span};
ghost use Rattle.numbering.specs.Adding.{added_room, AddedAs};
ghost use Rattle.format.specs.Limits.{file_bytes, value_bytes};
ghost use Rattle.format.specs.Written.{written_all};
ghost use Rattle.format.specs.Requests.{pair_fields};
ghost use Rattle.format.specs.Calls.{built};
ghost use Rattle.records.specs.Places.{is_readable};
ghost use Rattle.records.specs.Walk.{record_in};
ghost use Rattle.requests.specs.Pairs.{pairs_from, pairs_at};
ghost use Rattle.edits.specs.Splices.{made_len};
ghost use Rattle.merging.specs.Merging.{pair_of, is_twin};
ghost use Rattle.merging.specs.Appending.{is_room_for, spare_record};
ghost use Rattle.merging.specs.Texts.{fits_value, Appendable, SetAt, OwnInside, PutBy, PlacedIn, InsertedAs};

use format::{File, Question, Refusal};
use numbering::Added;
use records::RecordSet;
use requests::Weight;
use splices::NewRecord;

// What becomes of a record: it is skipped, refused, or put in, and the text then has so many
// bytes.
#[derive(Drop)]
pub(crate) enum Inserted {
    Skipped,
    Refused(Refusal),
    Grown(usize),
}

// The tags of a pair in a request: bytes of its form, as `put_field` takes them from any caller.
#[derive(Drop)]
struct Tag {}

impl Tag {
    const NAME: u8 = 4;

    const VALUE: u8 = 6;
}

// The fields of a record as the pairs of a request, at the front of out: the place behind them, one
// beyond out where there is no room.
fn put_pairs(own: &[u8], scratch: &mut [u8], out: &mut [u8]) -> usize
    requires own_value { (is_readable own.now ≡ true) × (all fits_value (record_in own.now) ≡ true) }
    requires value_bytes_in_bounds { value_bytes ≤ length scratch.old }
    ensures { record { next = result; out = out.new } ≡ built (flat (map pair_fields (map pair_of (record_in own.now)))) (record { next = 0; out = out.old }) }
{
    let mut rest = own;
    let mut at = 0;
    loop {
        let Some(f) = records::next_field(rest) else {
            return at;
        };
        at = requests::put_field(&mut *out, at, Tag::NAME, &rest[f.start..f.named]);
        let n = values::copy_value(&rest[f.value..f.end], &mut *scratch);
        at = requests::put_field(&mut *out, at, Tag::VALUE, &scratch[..n]);
        rest = &rest[f.end..];
    }
}

// Is there room for a text of `used` bytes with a record put in, whose first fields have own bytes
// and the others len?
fn has_room(used: usize, own: usize, len: usize, room: usize) -> bool
    requires { used ≤ file_bytes }
    ensures { result ≡ is_room_for room (made_len used (own + len)) }
{
    if own > File::BYTES {
        return false;
    }
    if len > File::BYTES {
        return false;
    }
    if used == 0 {
        let f = File::new(own + len);
        return f.fits(room);
    }
    let f = File::new(used + (own + len) + 1);
    f.fits(room)
}

// A record put in at a place, with the fields that it gets, if they are known and there is room.
// Its pairs are those of the request, and their text has len bytes.
fn put(
    text: &mut [u8],
    used: usize,
    room: usize,
    at: usize,
    len: usize,
    a: Added,
    request: &[u8],
    added: &[u8],
) -> Inserted
    requires at_le_used { (at ≤ used) × (used ≤ file_bytes) × (file_bytes ≤ length text.old) }
    requires request_value { (is_some (pairs_from request.now 0) ≡ true) × (len ≡ length (written_all (pairs_at request.now 0))) × OwnInside added.now a }
    ensures { PutBy text.old used room at len request.now added.now text.new a result }
{
    match a {
        Added::Numberless => Inserted::Refused(Refusal::Numberless),
        Added::Long { len: own } => {
            if has_room(used, own, len, room) {
                return Inserted::Refused(Refusal::Result(Question::Limit));
            }
            Inserted::Refused(Refusal::Large)
        }
        Added::Text { len: own } => {
            if !has_room(used, own, len, room) {
                return Inserted::Refused(Refusal::Large);
            }
            let new = NewRecord {
                at,
                from: 0,
                len: own + len,
            };
            let n = splices::put_record(text, used, new, &added[..own], request);
            Inserted::Grown(n)
        }
    }
}

// The fields that a record gets in the set at p of a text: its pairs are those of the request.
fn number(s: &[u8], p: RecordSet, request: &[u8], added: &mut [u8]) -> Added
    requires appendable { Appendable s.now × SetAt s.now p }
    requires request_len_bound { (length request.now ≤ file_bytes) × (is_some (pairs_from request.now 0) ≡ true) × (added_room ≤ length added.old) }
    ensures { AddedAs (added_by int_bounds (ruled (record_in (span p.start p.end s.now)) (records (read_of (span p.begin p.after s.now)))) (pairs_at request.now 0)) added.new result }
{
    let start = p.start;
    let end = p.end;
    let begin = p.begin;
    let after = p.after;
    numbering::add_numbers(&s[start..end], &s[begin..after], request, 0, added)
}

// A record put in at the end of the set at p, if nothing of the request, its place and the room
// speaks against it.
fn place(
    text: &mut [u8],
    used: usize,
    room: usize,
    p: RecordSet,
    request: &[u8],
    added: &mut [u8],
) -> Inserted
    requires appendable { Appendable (take used text.old) × (used ≤ file_bytes) × (file_bytes ≤ length text.old) × SetAt (take used text.old) p }
    requires request_len_bound { (length request.now ≤ file_bytes) × (is_some (pairs_from request.now 0) ≡ true) × Filled (pairs_at request.now 0) × (added_room ≤ length added.old) }
    ensures { PlacedIn text.old used room p (pairs_at request.now 0) text.new result }
{
    let Some(Weight { len, .. }) = requests::weigh(request, 0) else {
        return Inserted::Refused(Refusal::Illegal);
    };
    let a = number(&text[..used], p, request, &mut *added);
    put(text, used, room, p.after, len, a, request, added)
}

// Has the set at p of a text a key and a twin of a record?
fn is_skipped(s: &[u8], p: RecordSet, own: &[u8]) -> bool
    requires { Appendable s.now × SetAt s.now p × (is_readable own.now ≡ true) }
    ensures { result ≡ (is_filled (key (record_in (span p.start p.end s.now))) && any (is_twin (map pair_of (record_in own.now))) (records (read_of (span p.begin p.after s.now)))) }
{
    let start = p.start;
    let end = p.end;
    let begin = p.begin;
    let after = p.after;
    let Some(_) = records::next_named(&s[start..end], b"%key") else {
        return false;
    };
    super::twins::is_among(own, &s[begin..after])
}

// A record of a spare put into the set of its name, which is there, unless it is skipped or
// refused.
pub(crate) fn insert_record(
    text: &mut [u8],
    used: usize,
    room: usize,
    set: &[u8],
    own: &[u8],
    scratch: &mut [u8],
    request: &mut [u8],
    added: &mut [u8],
) -> Inserted
    requires appendable { Appendable (take used text.old) × (used ≤ file_bytes) × (file_bytes ≤ length text.old) × (is_some (index_of set.now (sets_of (read_of (take used text.old)))) ≡ true) }
    requires own_value { (is_readable own.now ≡ true) × (all fits_value (record_in own.now) ≡ true) × Filled (record_in own.now) × (length set.now ≤ value_bytes) }
    requires value_bytes_in_bounds { (value_bytes ≤ length scratch.old) × (length request.old ≡ file_bytes) × (added_room ≤ length added.old) }
    ensures { InsertedAs text.old used room (spare_record set.now (record_in own.now)) text.new result }
{
    let Some(head) = records::find_head(&text[..used], set) else {
        return Inserted::Refused(Refusal::Set);
    };
    let p = records::set_behind(&text[..used], head);
    if is_skipped(&text[..used], p, own) {
        return Inserted::Skipped;
    }
    let n = put_pairs(own, scratch, &mut *request);
    if n > File::BYTES {
        return Inserted::Refused(Refusal::Form);
    }
    if 7 + set.len() + n > File::BYTES {
        return Inserted::Refused(Refusal::Form);
    }
    place(text, used, room, p, &request[..n], added)
}
