// Requests: tagged fields read from a slice, the six kinds of an edit, and the text of an inserted record.
#![tactic(auto)]

ghost use Rattle.std.specs.Prelude.{◌≡◌, true, ◌≤◌, length};
ghost use Rattle.format.specs.Bytes.{is_some};
ghost use Rattle.format.specs.Limits.{file_bytes};
ghost use Rattle.format.specs.Calls.{write_answer, filled_by};
ghost use Rattle.format.specs.Refusals.{refused_no};
ghost use Rattle.requests.specs.Pairs.{pairs_from, pairs_at};
ghost use Rattle.requests.specs.Writes.{write_no};

use format::{File, Question, Record, Refusal};

mod encoding;
mod fields;
mod kinds;
mod pairs;

pub use encoding::put_field;
pub use kinds::{Act, Change, Edit, Request, request_of};
pub use pairs::{Pair, Weight, is_legal_pair, pair_at, put_pairs, weigh};

// The first question about pairs that says no.
fn write_no(req: &[u8], from: usize, room: usize) -> Result<(), Refusal>
    requires req_len_bound { (length req.now ≤ file_bytes) × (from ≤ length req.now) }
    requires from_value { is_some (pairs_from req.now from) ≡ true }
    ensures { refused_no result ≡ write_no (pairs_at req.now from) room }
{
    let Some(Weight { len, count }) = weigh(req, from) else {
        return Err(Refusal::Illegal);
    };
    if len > File::BYTES {
        return Err(Refusal::Large);
    }
    if count > Record::FIELDS {
        return Err(Refusal::Result(Question::Limit));
    }
    if len > room {
        return Err(Refusal::Room);
    }
    Ok(())
}

// The text of an insert's record at the front of out, or a refusal, which leaves out as it is.
pub fn write_record(req: &[u8], out: &mut [u8]) -> Result<usize, Refusal>
    ensures { filled_by result out.new ≡ write_answer req.now out.old }
{
    let Some(request) = request_of(req) else {
        return Err(Refusal::Form);
    };
    let Edit::Insert { start } = request.edit else {
        return Err(Refusal::Form);
    };
    write_no(req, start, out.len())?;
    Ok(put_pairs(req, start, out))
}
