// Where an insert acts in a text: questions 25 and 31. The fields that it gets for listed names which it omits are written into a lent buffer.
ghost use Rattle.std.specs.Prelude.{◌≡◌, true, ◌≤◌, length};
ghost use Rattle.format.specs.Bytes.{all, is_some};
ghost use Rattle.format.specs.Limits.{file_bytes};
ghost use Rattle.format.specs.Numbers.{int_bounds};
ghost use Rattle.format.specs.Numbering.{added as added_by};
ghost use Rattle.format.specs.Pieces.{read_of};
ghost use Rattle.format.specs.Questions.{fits_record};
ghost use Rattle.format.specs.Sets.{sets_of};
ghost use Rattle.format.proofs.Passing.{SetsPass};
ghost use Rattle.format.proofs.Records.{records};
ghost use Rattle.format.proofs.Walking.{ruled};
ghost use Rattle.records.specs.Places.{is_readable};
ghost use Rattle.records.specs.Walk.{record_in};
ghost use Rattle.requests.specs.Pairs.{pairs_from, pairs_at};
ghost use Rattle.requests.specs.Kinds.{edit_of, InEdit};
ghost use Rattle.requests.specs.declared.kinds.Edit.{Edit};
ghost use Rattle.numbering.specs.Adding.{added_room, AddedAs};
ghost use Rattle.edits.specs.Inserts.{Numberable, capped_len, located_by};
ghost use Rattle.edits.specs.Places.{IsHead, LocatesAt};

use super::room::made_len;
use super::{Located, Splice};
use format::{File, Refusal};
use numbering::Added;
use records::Head;
use requests::Weight;
use splices::NewRecord;

// The text of the fields that an insert gets has room in so many bytes: 64 names of 64 bytes, each with a colon, a space, 19 digits and a newline.
#[derive(Drop)]
pub struct Text {}

impl Text {
    pub const ROOM: usize = 5504;
}

// The fields that an insert gets: d is the set's descriptor, part its records. Names are compared where they stand, so a descriptor in which bare joints may stand is made dense first, in a copy.
fn complete(
    d: &[u8],
    part: &[u8],
    req: &[u8],
    from: usize,
    copy: &mut [u8],
    added: &mut [u8],
) -> Added
    requires numberable { Numberable d.now × (file_bytes ≤ length copy.old) }
    requires part_value { (is_readable part.now ≡ true) × (length part.now ≤ file_bytes) × (all fits_record (records (read_of part.now)) ≡ true) }
    requires req_len_bound { (length req.now ≤ file_bytes) × (from ≤ length req.now) × (is_some (pairs_from req.now from) ≡ true) }
    requires added_room_in_bounds { added_room ≤ length added.old }
    ensures { AddedAs (added_by int_bounds (ruled (record_in d.now) (records (read_of part.now))) (pairs_at req.now from)) added.new result }
{
    if joints::may_join(d) {
        let n = joints::put_dense(&mut *copy, d);
        return numbering::add_numbers(&copy[..n], part, req, from, added);
    }
    numbering::add_numbers(d, part, req, from, added)
}

// The length of a record's text, by those of its two parts: where one of them is longer than a file may be, a number that is so too.
fn capped_len(own: usize, len: usize) -> usize
    ensures { result ≡ capped_len own len }
{
    if own > File::BYTES {
        return own;
    }
    if len > File::BYTES {
        return len;
    }
    own + len
}

// What an insert does of which the added fields are known: the pairs from `from` on have a text of len bytes.
fn located(used: usize, at: usize, from: usize, len: usize, a: Added) -> Located
    requires { used ≤ file_bytes }
    ensures { result ≡ located_by used at from len a }
{
    match a {
        Added::Numberless => Located::Refused(Refusal::Numberless),
        Added::Text { len: own } => {
            let whole = capped_len(own, len);
            if whole > File::BYTES {
                return Located::Over(whole);
            }
            Located::At(Splice::Record {
                new: NewRecord {
                    at,
                    from,
                    len: whole,
                },
                own,
            })
        }
        Added::Long { len: own } => {
            let whole = capped_len(own, len);
            if whole > File::BYTES {
                return Located::Over(whole);
            }
            Located::Over(made_len(used, whole))
        }
    }
}

// A record put in at the end of the set of a head.
pub(crate) fn locate_insert(
    s: &[u8],
    req: &[u8],
    head: Head,
    from: usize,
    copy: &mut [u8],
    added: &mut [u8],
) -> Located
    requires s_value { (is_readable s.now ≡ true) × (length s.now ≤ file_bytes) × SetsPass (sets_of (read_of s.now)) × IsHead s.now head }
    requires req_len_bound { (length req.now ≤ file_bytes) × InEdit req.now (Edit.Insert from) }
    requires file_bytes_in_bounds { (file_bytes ≤ length copy.old) × (added_room ≤ length added.old) }
    ensures { LocatesAt s.now req.now added.new head (edit_of req.now (Edit.Insert from)) result }
{
    let Some(Weight { len, .. }) = requests::weigh(req, from) else {
        return Located::Refused(Refusal::Illegal);
    };
    let p = records::set_behind(s, head);
    let d = &s[p.start..p.end];
    let part = &s[p.begin..p.after];
    let a = complete(d, part, req, from, copy, added);
    located(s.len(), p.after, from, len, a)
}
