// What a draft of a record still lacks (document 02, order 8): how many of its set's mandatory names, and the key, neither the draft nor an `%auto` list names.
#![tactic(auto)]

ghost use Rattle.std.specs.Prelude.{true, not, List, [], ◌≡◌, ◌≤◌, length};
ghost use Rattle.format.specs.Bytes.{Bytes, among, is_some};
ghost use Rattle.format.specs.Limits.{file_bytes, value_bytes};
ghost use Rattle.format.specs.Lists.{filter};
ghost use Rattle.format.specs.Numbering.{firsts, pair_names};
ghost use Rattle.format.specs.Pieces.{read_of};
ghost use Rattle.format.specs.Rules.{listed, mandatory, key, auto};
ghost use Rattle.format.specs.Sets.{sets_of};
ghost use Rattle.format.specs.Calls.{answered};
ghost use Rattle.format.proofs.Passing.{SetsPass};
ghost use Rattle.records.specs.Places.{is_readable};
ghost use Rattle.records.specs.Walk.{record_in};
ghost use Rattle.requests.specs.Pairs.{pairs_from, pairs_at};
ghost use Rattle.dictionary.specs.Known.{Described};
ghost use Rattle.dictionary.specs.Numbered.{Lists, IsListed, Present};
ghost use Rattle.drafts.specs.Drafts.{is_given, to_fill, draft_of, draft_answer, to_fill_answer};
ghost use Rattle.drafts.specs.Giving.{onto};

use dictionary::wordsets;
use dictionary::wordsets::Listed;
use format::{File, Record, Refusal};
use requests::Edit;

mod given;

// A count as a number of things.
fn widened(n: u32) -> usize
    ensures { result ≡ n }
{
    n as usize
}

// How many distinct words of a list are not given: the ones of the first places that are missing.
fn count_missing(d: &[u8], l: Listed, name: &[u8], given: u64) -> usize
    requires { Described d.now × Lists name.now (record_in d.now) × IsListed d.now (listed name.now (record_in d.now)) l }
    ensures { (ns : List Bytes) → Present (listed name.now (record_in d.now)) ns given → result ≡ length (filter (λ n. not (among n ns)) (firsts (listed name.now (record_in d.now)))) }
{
    let w = l.words;
    let all = wordsets::firsts(d, name);
    let missing = wordsets::missing(given, w.count);
    widened(u64::count_ones(all & missing))
}

// The places of a list's words that the draft or an `%auto` list names.
fn given_names(d: &[u8], l: Listed, req: &[u8], from: usize, scratch: &mut [u8]) -> u64
    requires listed { (ws : List Bytes) × IsListed d.now ws l }
    requires described { Described d.now × (value_bytes ≤ length scratch.old) }
    requires req_len_bound { (length req.now ≤ file_bytes) × (from ≤ length req.now) × (is_some (pairs_from req.now from) ≡ true) }
    ensures { (ws : List Bytes) → IsListed d.now ws l → Present ws (onto (onto [] (auto (record_in d.now))) (pair_names (pairs_at req.now from))) result }
{
    let a = given::give_list(d, l, 0, b"%auto", scratch);
    given::give_pairs(d, l, a, req, from)
}

// How many mandatory names are missing.
fn mandatory_missing(d: &[u8], req: &[u8], from: usize, scratch: &mut [u8]) -> usize
    requires described { Described d.now × (value_bytes ≤ length scratch.old) }
    requires req_len_bound { (length req.now ≤ file_bytes) × (from ≤ length req.now) × (is_some (pairs_from req.now from) ≡ true) }
    ensures { result ≡ length (filter (λ n. not (is_given (record_in d.now) (pairs_at req.now from) n)) (firsts (mandatory (record_in d.now)))) }
{
    let l = wordsets::list(d, b"%mandatory");
    let given = given_names(d, l, req, from, scratch);
    count_missing(d, l, b"%mandatory", given)
}

// Is the key missing, and not mandatory besides: 1, else 0.
fn key_missing(d: &[u8], req: &[u8], from: usize, scratch: &mut [u8]) -> usize
    requires described { Described d.now × (value_bytes ≤ length scratch.old) }
    requires req_len_bound { (length req.now ≤ file_bytes) × (from ≤ length req.now) × (is_some (pairs_from req.now from) ≡ true) }
    ensures { result ≡ length (filter (λ n. not (is_given (record_in d.now) (pairs_at req.now from) n)) (filter (λ n. not (among n (mandatory (record_in d.now)))) (firsts (key (record_in d.now))))) }
{
    let l = wordsets::list(d, b"%key");
    let given = given_names(d, l, req, from, &mut *scratch);
    let more = given::give_list(d, l, given, b"%mandatory", scratch);
    count_missing(d, l, b"%key", more)
}

// How many names of a draft are still to fill, by its set's descriptor.
fn count_to_fill(d: &[u8], req: &[u8], from: usize) -> usize
    requires described { Described d.now }
    requires req_len_bound { (length req.now ≤ file_bytes) × (from ≤ length req.now) × (is_some (pairs_from req.now from) ≡ true) }
    ensures { result ≡ length (to_fill (record_in d.now) (pairs_at req.now from)) }
{
    let mut scratch = [0u8; Record::VALUE];
    let m = mandatory_missing(d, req, from, &mut scratch);
    let k = key_missing(d, req, from, &mut scratch);
    m + k
}

// The same. Names are compared where they stand, so a descriptor in which bare joints may stand is
// made dense first, in a copy.
fn count_by(d: &[u8], req: &[u8], from: usize, copy: &mut [u8]) -> usize
    requires described { Described d.now × (file_bytes ≤ length copy.old) }
    requires req_len_bound { (length req.now ≤ file_bytes) × (from ≤ length req.now) × (is_some (pairs_from req.now from) ≡ true) }
    ensures { result ≡ length (to_fill (record_in d.now) (pairs_at req.now from)) }
{
    if joints::may_join(d) {
        let n = joints::put_dense(&mut *copy, d);
        return count_to_fill(&copy[..n], req, from);
    }
    count_to_fill(d, req, from)
}

// How many names of a draft are still to fill in a text that passes. The copy is spent.
fn to_fill_in(s: &[u8], req: &[u8], copy: &mut [u8]) -> Result<usize, Refusal>
    requires s_value { (is_readable s.now ≡ true) × (length s.now ≤ file_bytes) × SetsPass (sets_of (read_of s.now)) }
    requires file_bytes_in_bounds { file_bytes ≤ length copy.old }
    ensures { answered result ≡ draft_answer 0 (sets_of (read_of s.now)) (draft_of req.now) }
{
    let Some(q) = requests::request_of(req) else {
        return Err(Refusal::Form);
    };
    let Edit::Insert { start: from } = q.edit else {
        return Err(Refusal::Form);
    };
    let set = q.set;
    let a = set.start;
    let b = set.end;
    let Some(head) = records::find_head(s, &req[a..b]) else {
        return Err(Refusal::Set);
    };
    let start = head.start;
    let end = head.end;
    Ok(count_by(&s[start..end], req, from, copy))
}

// How many mandatory names, and the key, a draft lacks: an insert into the file in the first
// `used` bytes of a buffer, which is not carried out.
pub fn to_fill(buf: &[u8], used: usize, req: &[u8]) -> Result<usize, Refusal>
    ensures { answered result ≡ to_fill_answer buf.now used req.now }
{
    let mut copy = [0u8; File::BYTES];
    integrity::check_with(buf, used, &mut copy)?;
    to_fill_in(&buf[..used], req, &mut copy)
}
