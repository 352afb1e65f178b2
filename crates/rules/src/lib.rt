// Questions 8 to 14 and 30 of one set. Its descriptor is read into tables; then its records are walked.
#![tactic(auto)]

ghost use Rattle.std.specs.Prelude.{◌≡◌, true, not, ◌≤◌, eqb, length};
ghost use Rattle.format.specs.Refusals.{no_of};
ghost use Rattle.format.specs.Bytes.{all};
ghost use Rattle.format.specs.Limits.{file_bytes, value_bytes};
ghost use Rattle.format.specs.Pieces.{read_of};
ghost use Rattle.format.specs.Numbers.{int_bounds};
ghost use Rattle.format.specs.Rules.{distinct};
ghost use Rattle.format.specs.Sets.{values_of};
ghost use Rattle.format.specs.Questions.{first_no, keys_of};
ghost use Rattle.format.proofs.Judging.{whole_rows, set_no};
ghost use Rattle.format.proofs.Records.{records};
ghost use Rattle.format.proofs.Walking.{ruled};
ghost use Rattle.records.specs.Places.{is_readable};
ghost use Rattle.records.specs.Walk.{record_in};
ghost use Rattle.dictionary.specs.Known.{Described};
ghost use Rattle.rules.specs.Tables.{entries_end};
ghost use Rattle.rules.specs.Members.{fits_in};
ghost use Rattle.rules.specs.Described.{IsRules, AllFit};
ghost use Rattle.rules.specs.Chunks.{IsBook, HaveKeys, Chunked, SetAsked};

use columns::{Kinds, Typed};
use format::Question;
use members::{Asked, Rulebook};
use records::ValuePlace;
use tables::Tables;

pub mod members;
pub mod questions;
pub mod tables;
pub mod tallies;

// What is read of a descriptor once: the kinds of its types, whether only allowed names may occur, and whether there is a key.
#[derive(Clone, Copy)]
struct Book {
    kinds: Kinds,
    limited: bool,
    keyed: bool,
}

// Has a descriptor a field of a name?
fn has_field(d: &[u8], name: &[u8]) -> bool
    requires { is_readable d.now ≡ true }
    ensures { result ≡ not (eqb (length (values_of name.now (record_in d.now))) 0) }
{
    records::next_named(d, name).is_some()
}

// The first question that a set's records fail, and their count, by some of the `%type` fields, and the first one that is left.
#[derive(Drop)]
struct Chunk {
    answer: Result<(), Question>,
    count: usize,
    next: usize,
}

// Questions 8 to 12 by the `%type` fields from one on, by as many of them as the tables have room for.
fn judge_rows(
    d: &[u8],
    b: Book,
    from: usize,
    part: &[u8],
    scratch: &mut [u8],
    entries: &mut [u32],
) -> Chunk
    requires book { IsBook d.now b × (from ≤ b.kinds.count) }
    requires part_value { (is_readable part.now ≡ true) × (length part.now ≤ file_bytes) × (all (fits_in (length scratch.old)) (record_in part.now) ≡ true) }
    requires entries_end_in_bounds { entries_end ≤ length entries.old }
    ensures { Chunked d.now from b.kinds.count (records (read_of part.now)) result }
{
    let mut sets = [0u64; Tables::NAMES];
    let tables = tables::read(d, from, &mut *entries, &mut sets);
    let to = tables.names.next;
    let kinds = b.kinds;
    let texts = kinds.texts;
    let symbols = enums::read(
        d,
        &texts,
        from,
        to,
        &mut entries[Tables::SYMBOLS..Tables::END],
    );
    let typed = Typed { kinds, symbols };
    let r = Rulebook {
        tables,
        typed,
        limited: b.limited,
        keyed: b.keyed,
    };
    let a = members::judge_part(d, &*entries, &sets, r, part, &mut *scratch);
    Chunk {
        answer: a.answer,
        count: a.count,
        next: symbols.next,
    }
}

// Questions 8 to 12 by all `%type` fields.
fn judge_records(d: &[u8], b: Book, part: &[u8], scratch: &mut [u8], entries: &mut [u32]) -> Asked
    requires book { IsBook d.now b }
    requires part_value { (is_readable part.now ≡ true) × (length part.now ≤ file_bytes) × (all (fits_in (length scratch.old)) (record_in part.now) ≡ true) }
    requires entries_end_in_bounds { entries_end ≤ length entries.old }
    ensures { SetAsked (record_in d.now) (records (read_of part.now)) result }
{
    let kinds = b.kinds;
    let count = kinds.count;
    let mut from = 0;
    let mut worst = Ok(());
    loop {
        let c = judge_rows(d, b, from, part, &mut *scratch, &mut *entries);
        worst = questions::lesser(worst, c.answer);
        if count <= c.next {
            return Asked {
                answer: worst,
                count: c.count,
            };
        }
        from = c.next;
    }
}

// Questions 8 to 12 of a set's records, and how many there are.
fn judge_members(d: &[u8], part: &[u8], scratch: &mut [u8], entries: &mut [u32]) -> Asked
    requires described { Described d.now }
    requires part_value { (is_readable part.now ≡ true) × (length part.now ≤ file_bytes) × (all (fits_in (length scratch.old)) (record_in part.now) ≡ true) }
    requires value_bytes_in_bounds { (value_bytes ≤ length scratch.old) × (entries_end ≤ length entries.old) }
    ensures { SetAsked (record_in d.now) (records (read_of part.now)) result }
{
    let kinds = columns::read(d, &mut *scratch);
    let limited = has_field(d, b"%allowed");
    let keyed = has_field(d, b"%key");
    let b = Book {
        kinds,
        limited,
        keyed,
    };
    judge_records(d, b, part, &mut *scratch, &mut *entries)
}

// Question 13 of a set whose records have its key.
fn keys_apart(d: &[u8], part: &[u8], scratch: &mut [u8], entries: &mut [u32]) -> bool
    requires rules { IsRules d.now × (length d.now ≤ file_bytes) }
    requires part_value { (is_readable part.now ≡ true) × (length part.now ≤ file_bytes) × HaveKeys (record_in d.now) (records (read_of part.now)) }
    requires value_bytes_in_bounds { (value_bytes ≤ length scratch.old) × (entries_end ≤ length entries.old) }
    ensures { result ≡ distinct (keys_of (ruled (record_in d.now) (records (read_of part.now)))) }
{
    let Some(ValuePlace { value, end, .. }) = records::next_named(d, b"%key") else {
        return true;
    };
    let n = values::copy_value(&d[value..end], &mut *scratch);
    let Some(w) = words::next_word(&scratch[..n]) else {
        return true;
    };
    keys::keys_distinct(&scratch[w.start..w.end], part, &mut *entries)
}

// Questions 13, 14 and 30 of a set whose records have its key; so many they are.
fn judge_whole(
    d: &[u8],
    count: usize,
    part: &[u8],
    scratch: &mut [u8],
    entries: &mut [u32],
) -> Result<(), Question>
    requires rules { IsRules d.now × (length d.now ≤ file_bytes) × (count ≡ length (records (read_of part.now))) }
    requires part_value { (is_readable part.now ≡ true) × (length part.now ≤ file_bytes) × HaveKeys (record_in d.now) (records (read_of part.now)) }
    requires value_bytes_in_bounds { (value_bytes ≤ length scratch.old) × (entries_end ≤ length entries.old) }
    ensures { no_of result ≡ first_no (whole_rows int_bounds) (ruled (record_in d.now) (records (read_of part.now))) }
{
    if !keys_apart(d, part, &mut *scratch, &mut *entries) {
        return Err(Question::Key);
    }
    if !descriptors::size_met(d, count, &mut *scratch) {
        return Err(Question::Size);
    }
    if !singulars::values_apart(d, part, &mut *entries) {
        return Err(Question::Singular);
    }
    Ok(())
}

// The first of questions 8 to 14 and 30 that a set fails: d is its descriptor, part the bytes of its records.
pub fn judge_set(
    d: &[u8],
    part: &[u8],
    scratch: &mut [u8],
    entries: &mut [u32],
) -> Result<(), Question>
    requires rules { IsRules d.now × (length d.now ≤ file_bytes) }
    requires part_value { (is_readable part.now ≡ true) × (length part.now ≤ file_bytes) × AllFit (records (read_of part.now)) }
    requires value_bytes_in_bounds { (value_bytes ≤ length scratch.old) × (entries_end ≤ length entries.old) }
    ensures { no_of result ≡ set_no int_bounds (ruled (record_in d.now) (records (read_of part.now))) }
{
    let a = judge_members(d, part, &mut *scratch, &mut *entries);
    a.answer?;
    judge_whole(d, a.count, part, &mut *scratch, &mut *entries)
}
