// The dictionary of a descriptor: what a name is to its set. The words of its lists and the names of its `%type` fields stand in one table, so that a name is
// looked up once: the answer is a set of tags, one for each list, and one for each `%type` field, its number.
#![tactic(auto)]

ghost use Rattle.std.specs.Prelude.{◌≡◌, true, [], map, ◌+◌, ◌<◌, ◌≤◌, length, drop};
ghost use Rattle.format.specs.Bytes.{text, all};
ghost use Rattle.format.specs.Limits.{file_bytes};
ghost use Rattle.format.specs.Lines.{is_name};
ghost use Rattle.format.specs.Words.{words};
ghost use Rattle.format.specs.Rules.{typed_names};
ghost use Rattle.values.specs.Value.{value_from};
ghost use Rattle.records.specs.Places.{is_readable};
ghost use Rattle.records.specs.Walk.{record_in};
ghost use Rattle.records.specs.Named.{values_from};
ghost use Rattle.terms.specs.Sets.{tags, term_of};
ghost use Rattle.dictionary.specs.Tags.{list_tag};
ghost use Rattle.terms.specs.Adding.{Adding};
ghost use Rattle.dictionary.specs.Terms.{list_terms, are_names, RowsAdded};
ghost use Rattle.dictionary.specs.Known.{Described, dictionary_room, IsDictionary, Known};

use records::{FieldPlace, ValuePlace};
use terms::Table;
use values::NextWord;
use words::Rule;

pub mod wordsets;

// The tags of lists, above the numbers of `%type` fields; and no tag. They are numbers because a
// tag is a place in a set of bits, as the number of a `%type` field is.
#[derive(Drop)]
pub struct Tag {}

impl Tag {
    pub const MANDATORY: u32 = 32;

    pub const PROHIBITED: u32 = 33;

    pub const ALLOWED: u32 = 34;

    pub const UNIQUE: u32 = 35;

    pub const KEY: u32 = 36;

    pub const NONE: u32 = 64;

    // How many sets of numbers of `%type` fields there are: what is left of a set is that of its lists.
    pub const TYPES: u64 = 4294967296;
}

// The tag of the words that a field of this name lists, `NONE` where it lists none.
fn list_tag(name: &[u8]) -> u32
    ensures { result ≡ list_tag name.now }
{
    match words::rule_of(name) {
        Rule::Mandatory => Tag::MANDATORY,
        Rule::Prohibit => Tag::PROHIBITED,
        Rule::Allowed => Tag::ALLOWED,
        Rule::Unique => Tag::UNIQUE,
        Rule::Key => Tag::KEY,
        Rule::Rec
        | Rule::Doc
        | Rule::Size
        | Rule::Typedef
        | Rule::Type
        | Rule::Singular
        | Rule::Auto
        | Rule::Other => Tag::NONE,
    }
}

// The words of the value at i, which are names, put behind the first n entries; how many entries there are then.
fn add_words(d: &[u8], i: usize, tag: u32, entries: &mut [u32], n: usize) -> usize
    requires i_in_bounds { (i ≤ length d.now) × (length d.now ≤ file_bytes) × (tag < tags) }
    requires d_in_bounds { n + length (words (value_from (drop i d.now))) ≤ length entries.old }
    requires d_value { all is_name (words (value_from (drop i d.now))) ≡ true }
    ensures { Adding d.now entries.old n (map (term_of tag) (words (value_from (drop i d.now)))) [] entries.new result }
{
    // An index by hand: the loop goes by what the readers find, and this counts what is written.
    let mut k = n;
    let mut from = i;
    loop {
        let Some(NextWord { start, rest }) = values::next_word(d, from) else {
            return k;
        };
        entries[k] = terms::entry(d, start, tag);
        k += 1;
        from = rest;
    }
}

// The same of the names, between commas, of the value's first word.
fn add_names(d: &[u8], i: usize, tag: u32, entries: &mut [u32], n: usize) -> usize
    requires i_in_bounds { (i ≤ length d.now) × (length d.now ≤ file_bytes) × (tag < tags) }
    requires d_in_bounds { n + length (typed_names (value_from (drop i d.now))) ≤ length entries.old }
    requires d_value { all is_name (typed_names (value_from (drop i d.now))) ≡ true }
    ensures { Adding d.now entries.old n (map (term_of tag) (typed_names (value_from (drop i d.now)))) [] entries.new result }
{
    // An index by hand: the loop goes by what the readers find, and this counts what is written.
    let mut k = n;
    let mut at = values::pass(d, i, words::is_gap);
    loop {
        entries[k] = terms::entry(d, at, tag);
        k += 1;
        let Some(next) = values::part_next(d, at) else {
            return k;
        };
        at = next;
    }
}

// The words of all lists of a descriptor, put into entries; how many.
fn add_lists(d: &[u8], entries: &mut [u32]) -> usize
    requires d_value { (is_readable d.now ≡ true) × (length d.now ≤ file_bytes) }
    requires d_in_bounds { (length (list_terms (record_in d.now)) ≤ length entries.old) × (all are_names (record_in d.now) ≡ true) }
    ensures { Adding d.now entries.old 0 (list_terms (record_in d.now)) [] entries.new result }
{
    let mut n = 0;
    let mut i = 0;
    loop {
        let Some(
            FieldPlace {
                start,
                named,
                value,
                end,
            },
        ) = records::next_field(&d[i..])
        else {
            return n;
        };
        let tag = list_tag(&d[i + start..i + named]);
        if tag < Tag::NONE {
            n = add_words(d, i + value, tag, &mut *entries, n);
        }
        i += end;
    }
}

// The byte behind the first `%type` fields, as many as there are to be passed.
fn pass_types(d: &[u8], count: usize) -> usize
    requires d_value { is_readable d.now ≡ true }
    requires count_in_bounds { count ≤ length (values_from d.now (text "%type") 0) }
    ensures { (result ≤ length d.now) × (is_readable (drop result d.now) ≡ true) × (values_from d.now (text "%type") result ≡ drop count (values_from d.now (text "%type") 0)) }
{
    let mut i = 0;
    for _row in 0..count {
        let Some(ValuePlace { end, .. }) = records::next_named(&d[i..], b"%type") else {
            return i;
        };
        i += end;
    }
    i
}

// How many entries there are, and the first `%type` field whose names are not among them.
#[derive(Drop)]
pub struct Added {
    pub count: usize,
    pub next: usize,
}

// The names of the `%type` fields from one on, put behind the first n entries: of as many fields as there is certainly room for.
fn add_types(d: &[u8], from: usize, entries: &mut [u32], n: usize) -> Added
    requires described { Described d.now }
    requires from_in_bounds { (from ≤ length (values_from d.now (text "%type") 0)) × (n ≤ length entries.old) }
    ensures { RowsAdded d.now from entries.old n entries.new result }
{
    let mut k = n;
    let mut row = from;
    let mut i = pass_types(d, from);
    loop {
        let Some(ValuePlace { value, end, .. }) = records::next_named(&d[i..], b"%type") else {
            return Added {
                count: k,
                next: row,
            };
        };
        if entries.len() - k < Table::VALUE {
            return Added {
                count: k,
                next: row,
            };
        }
        k = add_names(d, i + value, row as u32, &mut *entries, k);
        row += 1;
        i += end;
    }
}

// The table of a dictionary, the first `%type` field that it has, and the first behind those.
#[derive(Clone, Copy)]
pub struct Dictionary {
    pub table: Table,
    pub from: usize,
    pub next: usize,
}

// The dictionary of a descriptor, from one of its `%type` fields on, in a lent array.
pub fn read(d: &[u8], from: usize, entries: &mut [u32]) -> Dictionary
    requires described { Described d.now }
    requires from_in_bounds { (from ≤ length (values_from d.now (text "%type") 0)) × (dictionary_room ≤ length entries.old) }
    ensures { IsDictionary d.now entries.new result × (result.from ≡ from) }
{
    let n = add_lists(d, &mut *entries);
    let a = add_types(d, from, &mut *entries, n);
    let table = terms::build(d, &mut entries[..a.count]);
    Dictionary {
        table,
        from,
        next: a.next,
    }
}

// What a name is to the set: the tags of the lists and of the `%type` fields that name it.
pub fn look_up(d: &[u8], entries: &[u32], r: Dictionary, name: &[u8]) -> u64
    requires described { Described d.now }
    requires dictionary { IsDictionary d.now entries.now r }
    ensures { Known (record_in d.now) r.from r.next name.now result }
{
    terms::find(d, entries, r.table, name)
}
