// Where a request acts in a text: questions 21 to 25 and 31.
ghost use Rattle.std.specs.Prelude.{◌≡◌, true, ◌≤◌, length};
ghost use Rattle.format.specs.Limits.{file_bytes};
ghost use Rattle.format.specs.Pieces.{read_of};
ghost use Rattle.format.specs.Sets.{sets_of};
ghost use Rattle.format.proofs.Passing.{SetsPass};
ghost use Rattle.records.specs.Places.{is_readable};
ghost use Rattle.requests.specs.Kinds.{Inside};
ghost use Rattle.numbering.specs.Adding.{added_room};
ghost use Rattle.edits.specs.Places.{asked_by, Locates};

use super::Located;
use super::acts::locate_act;
use super::inserts::locate_insert;
use format::Refusal;
use requests::{Edit, Request};

// What a request does to a readable text, or the first of questions 21 to 25 and 31 that says no. The text of fields that an insert gets is put into `added`; the copy is spent.
pub fn locate(s: &[u8], req: &[u8], q: Request, copy: &mut [u8], added: &mut [u8]) -> Located
    requires s_value { (is_readable s.now ≡ true) × (length s.now ≤ file_bytes) × SetsPass (sets_of (read_of s.now)) × (length req.now ≤ file_bytes) }
    requires inside { Inside req.now (Some q) }
    requires file_bytes_in_bounds { (file_bytes ≤ length copy.old) × (added_room ≤ length added.old) }
    ensures { Locates s.now req.now added.new (asked_by req.now q) result }
{
    let set = q.set;
    let a = set.start;
    let b = set.end;
    let Some(head) = records::find_head(s, &req[a..b]) else {
        return Located::Refused(Refusal::Set);
    };
    match q.edit {
        Edit::Insert { start } => locate_insert(s, req, head, start, copy, added),
        Edit::On { row, act } => locate_act(s, req, head, row, act),
    }
}
