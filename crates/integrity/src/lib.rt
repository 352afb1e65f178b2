// The questions of a file, in order: 1 to 14 and 30.
#![tactic(auto)]

ghost use Rattle.std.specs.Prelude.{◌≡◌, true, ◌&&◌, ◌≤◌, ltb, length, take, get_or};
ghost use Rattle.format.specs.Pieces.{read_of};
ghost use Rattle.format.proofs.Records.{records};
ghost use Rattle.format.specs.Bytes.{pick, is_allowed, all};
ghost use Rattle.format.specs.Lines.{is_ended};
ghost use Rattle.format.specs.Limits.{file_bytes, value_bytes, descriptors};
ghost use Rattle.format.specs.Refusals.{no_of};
ghost use Rattle.format.specs.Numbers.{int_bounds};
ghost use Rattle.format.specs.Rules.{is_typed_well};
ghost use Rattle.format.specs.Calls.{check_answer};
ghost use Rattle.format.proofs.Judging.{text_no};
ghost use Rattle.format.proofs.Walking.{walk_fits, walk_once, walk_well, walk_types, walk_no, records_no};
ghost use Rattle.records.specs.Heads.{HeadRows, HeadParts};
ghost use Rattle.records.specs.Walk.{record_in};
ghost use Rattle.integrity.specs.Stages.{IsFormed, Granted};

use format::{Descriptor, File, Question, Record};
use rules::questions;
use rules::tables::Tables;

// Is a byte allowed? All tests are made, so that many bytes can be asked at once.
fn is_allowed(b: u8) -> bool
    ensures { result ≡ is_allowed b }
{
    (b >= b' ') & (b != 127) | (b == b'\t') | (b == b'\n')
}

// Are all bytes allowed?
fn all_allowed(s: &[u8]) -> bool
    ensures { result ≡ all is_allowed s.now }
{
    let mut ok = true;
    for &b in s {
        ok = ok & is_allowed(b);
    }
    ok
}

// Is a text empty or ended by a newline?
fn is_ended(s: &[u8]) -> bool
    ensures { result ≡ is_ended s.now }
{
    let len = s.len();
    if len == 0 {
        return true;
    }
    s[len - 1] == b'\n'
}

// Question 2: are all bytes allowed, and is the text empty or ended by a newline?
fn is_text(s: &[u8]) -> bool
    ensures { result ≡ (all is_allowed s.now && is_ended s.now) }
{
    if all_allowed(s) {
        return is_ended(s);
    }
    false
}

// Question 7 of a descriptor: are its types well formed, and those of `%auto` names int or range?
fn typed_well(d: &[u8], scratch: &mut [u8]) -> bool
    requires formed { IsFormed d.now × (length d.now ≤ file_bytes) }
    requires value_bytes_in_bounds { value_bytes ≤ length scratch.old }
    ensures { result ≡ is_typed_well int_bounds (record_in d.now) }
{
    if !typedefs::types_well(d, &mut *scratch) {
        return false;
    }
    numbering::autos_counted(d, scratch)
}

// Question 7: are the types of all descriptors well formed? count of them stand in s, from each start to the end beside it.
fn types_defined(
    s: &[u8],
    starts: &[usize],
    ends: &[usize],
    count: usize,
    scratch: &mut [u8],
) -> bool
    requires head_parts { HeadParts s.now starts.now ends.now count × (length s.now ≤ file_bytes) }
    requires s_value { (walk_fits (records (read_of s.now)) ≡ true) × (walk_well int_bounds (records (read_of s.now)) ≡ true) }
    requires value_bytes_in_bounds { value_bytes ≤ length scratch.old }
    ensures { result ≡ walk_types int_bounds (records (read_of s.now)) }
{
    for k in 0..count {
        if !typed_well(&s[starts[k]..ends[k]], &mut *scratch) {
            return false;
        }
    }
    true
}

// Where the members of a set end: where the descriptor of row k begins, or the file ends.
fn members_end(starts: &[usize], k: usize, count: usize, len: usize) -> usize
    requires { count ≤ length starts.now }
    ensures { result ≡ pick (ltb k count) (get_or starts.now k 0) len }
{
    if k < count {
        return starts[k];
    }
    len
}

// Questions 8 to 14 and 30 of all sets: the first that some set fails. count descriptors stand in s, from each start to the end beside it, and the members of
// each behind its block.
fn judge_sets(
    s: &[u8],
    starts: &[usize],
    ends: &[usize],
    afters: &[usize],
    count: usize,
    scratch: &mut [u8],
) -> Result<(), Question>
    requires s_len_bound { length s.now ≤ file_bytes }
    requires granted { Granted (records (read_of s.now)) }
    requires head_rows { HeadRows s.now starts.now ends.now afters.now count }
    requires value_bytes_in_bounds { value_bytes ≤ length scratch.old }
    ensures { no_of result ≡ walk_no int_bounds (records (read_of s.now)) }
{
    let mut entries = [0u32; Tables::END];
    let mut worst = Ok(());
    for k in 0..count {
        let d = &s[starts[k]..ends[k]];
        let next = members_end(starts, k + 1, count, s.len());
        let n = rules::judge_set(d, &s[afters[k]..next], &mut *scratch, &mut entries);
        worst = questions::lesser(worst, n);
    }
    worst
}

// Questions 6 to 14 and 30 of a readable text of which 4 and 5 say yes, with count descriptors.
fn judge_described(
    s: &[u8],
    starts: &[usize],
    ends: &[usize],
    afters: &[usize],
    count: usize,
) -> Result<(), Question>
    requires s_len_bound { length s.now ≤ file_bytes }
    requires s_value { (walk_fits (records (read_of s.now)) ≡ true) × (walk_once (records (read_of s.now)) ≡ true) }
    requires head_rows { HeadRows s.now starts.now ends.now afters.now count × (count ≤ descriptors) }
    ensures { no_of result ≡ records_no int_bounds (records (read_of s.now)) }
{
    let mut scratch = [0u8; Record::VALUE];
    if !descriptors::described_well(s, starts, ends, count, &mut scratch) {
        return Err(Question::Descriptor);
    }
    if !types_defined(s, starts, ends, count, &mut scratch) {
        return Err(Question::Type);
    }
    judge_sets(s, starts, ends, afters, count, &mut scratch)
}

// Questions 3 to 14 and 30 of a text of which 2 says yes.
fn judge_lines(s: &[u8]) -> Result<(), Question>
    requires s_value { (all is_allowed s.now && is_ended s.now) ≡ true }
    requires s_len_bound { length s.now ≤ file_bytes }
    ensures { no_of result ≡ text_no s.now }
{
    let mut starts = [0usize; Descriptor::COUNT];
    let mut ends = [0usize; Descriptor::COUNT];
    let mut afters = [0usize; Descriptor::COUNT];
    let count = limits::bounds_of(s, &mut starts, &mut ends, &mut afters)?;
    judge_described(s, &starts, &ends, &afters, count)
}

// Questions 2 to 14 and 30 of a text.
fn judge(s: &[u8]) -> Result<(), Question>
    requires { length s.now ≤ file_bytes }
    ensures { no_of result ≡ text_no s.now }
{
    if is_text(s) {
        return judge_lines(s);
    }
    Err(Question::Byte)
}

// The same of the text of `used` bytes at the front of a slice, which is spent: the text is made dense first.
fn judge_dense(text: &mut [u8], used: usize) -> Result<(), Question>
    requires { (used ≤ length text.old) × (used ≤ file_bytes) }
    ensures { no_of result ≡ text_no (take used text.old) }
{
    if !is_text(&text[..used]) {
        return Err(Question::Byte);
    }
    if !records::is_readable(&text[..used]) {
        return Err(Question::Line);
    }
    let n = joints::make_dense(text, used);
    judge_lines(&text[..n])
}

// The same of a text that the caller has no further use for.
pub fn judge_spent(text: &mut [u8], used: usize) -> Result<(), Question>
    requires { (used ≤ length text.old) × (used ≤ file_bytes) }
    ensures { no_of result ≡ text_no (take used text.old) }
{
    if joints::may_join(&text[..used]) {
        return judge_dense(text, used);
    }
    judge(&text[..used])
}

// The same of a text that is to stay as it is, with room for a copy of it.
fn judge_kept(s: &[u8], copy: &mut [u8]) -> Result<(), Question>
    requires { (length s.now ≤ file_bytes) × (file_bytes ≤ length copy.old) }
    ensures { no_of result ≡ text_no s.now }
{
    if joints::may_join(s) {
        writing::put_bytes(&mut *copy, s);
        return judge_dense(copy, s.len());
    }
    judge(s)
}

// The first question that says no of the first `used` bytes of a buffer, with room for a copy of them.
pub fn check_with(buf: &[u8], used: usize, copy: &mut [u8]) -> Result<(), Question>
    requires { file_bytes ≤ length copy.old }
    ensures { no_of result ≡ check_answer buf.now used }
{
    let f = File::new(used);
    if !f.fits(buf.len()) {
        return Err(Question::Length);
    }
    judge_kept(&buf[0..used], copy)
}

// The first question that says no of the first `used` bytes of a buffer.
pub fn check(buf: &[u8], used: usize) -> Result<(), Question>
    ensures { no_of result ≡ check_answer buf.now used }
{
    let mut copy = [0u8; File::BYTES];
    check_with(buf, used, &mut copy)
}
