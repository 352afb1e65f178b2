// The names of `%auto` lists: are they of types that can be numbered (question 7), and which fields does an insert get for those that it omits?
#![tactic(auto)]

ghost use Rattle.std.specs.Prelude.{◌≡◌, true, ◌≤◌, length};
ghost use Rattle.format.specs.Bytes.{all, is_some};
ghost use Rattle.format.specs.Limits.{file_bytes, value_bytes};
ghost use Rattle.format.specs.Numbers.{int_bounds};
ghost use Rattle.format.specs.Numbering.{added};
ghost use Rattle.format.specs.Rules.{auto, autos_counted};
ghost use Rattle.format.specs.Pieces.{read_of};
ghost use Rattle.format.proofs.Records.{records};
ghost use Rattle.format.proofs.Walking.{ruled};
ghost use Rattle.records.specs.Places.{is_readable};
ghost use Rattle.records.specs.Walk.{record_in};
ghost use Rattle.requests.specs.Pairs.{pairs_from, pairs_at};
ghost use Rattle.dictionary.specs.Known.{Described};
ghost use Rattle.dictionary.specs.Numbered.{IsListed};
ghost use Rattle.numbering.specs.Types.{fits_in};
ghost use Rattle.numbering.specs.Adding.{added_room, AddedAs};

use dictionary::wordsets;
use dictionary::wordsets::Listed;
use format::Record;

mod adding;
mod bounds;
mod types;

// Are the types of all names of `%auto` lists int or range?
pub fn autos_counted(d: &[u8], scratch: &mut [u8]) -> bool
    requires { Described d.now × (value_bytes ≤ length scratch.old) }
    ensures { result ≡ autos_counted int_bounds (record_in d.now) }
{
    let Some(_) = records::next_named(d, b"%auto") else {
        return true;
    };
    let l = wordsets::list(d, b"%auto");
    types::types_counted(d, l, scratch)
}

// What the added fields are: their text, so many bytes at the front of out; some omitted name has no number; or an added name is longer than a field's may be, and the text, which is not written, has so many bytes.
#[derive(Drop)]
pub enum Added {
    Text { len: usize },
    Numberless,
    Long { len: usize },
}

// The fields of omitted names, by the table of the lists' words.
fn add_listed(d: &[u8], l: Listed, part: &[u8], req: &[u8], from: usize, out: &mut [u8]) -> Added
    requires described { Described d.now × IsListed d.now (auto (record_in d.now)) l × (added_room ≤ length out.old) }
    requires part_value { (is_readable part.now ≡ true) × (length part.now ≤ file_bytes) × (all (fits_in value_bytes) (record_in part.now) ≡ true) }
    requires req_len_bound { (length req.now ≤ file_bytes) × (from ≤ length req.now) × (is_some (pairs_from req.now from) ≡ true) }
    ensures { AddedAs (added int_bounds (ruled (record_in d.now) (records (read_of part.now))) (pairs_at req.now from)) out.new result }
{
    let mut scratch = [0u8; Record::VALUE];
    let b = bounds::bounds_of(d, l, part, &mut scratch);
    let seen = adding::mark_pairs(d, l, req, from);
    let r = adding::add_lists(d, l, b, seen, &mut scratch, &mut *out);
    adding::told(r)
}

// The fields that an insert gets for the names of `%auto` lists that it omits. part: the records of its set; from: where its pairs begin in the request.
pub fn add_numbers(d: &[u8], part: &[u8], req: &[u8], from: usize, out: &mut [u8]) -> Added
    requires described { Described d.now × (added_room ≤ length out.old) }
    requires part_value { (is_readable part.now ≡ true) × (length part.now ≤ file_bytes) × (all (fits_in value_bytes) (record_in part.now) ≡ true) }
    requires req_len_bound { (length req.now ≤ file_bytes) × (from ≤ length req.now) × (is_some (pairs_from req.now from) ≡ true) }
    ensures { AddedAs (added int_bounds (ruled (record_in d.now) (records (read_of part.now))) (pairs_at req.now from)) out.new result }
{
    let Some(_) = records::next_named(d, b"%auto") else {
        return Added::Text { len: 0 };
    };
    let l = wordsets::list(d, b"%auto");
    add_listed(d, l, part, req, from, out)
}
