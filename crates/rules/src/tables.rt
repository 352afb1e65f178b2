// The tables of a descriptor's names, in lent arrays, and what they say of a name.
ghost use Rattle.std.specs.Prelude.{◌≡◌, List, ◌≤◌, length};
ghost use Rattle.format.specs.Bytes.{Bytes, text, among};
ghost use Rattle.words.specs.Spans.{span};
ghost use Rattle.records.specs.Walk.{record_in};
ghost use Rattle.records.specs.Named.{values_from};
ghost use Rattle.dictionary.specs.Known.{Described};
ghost use Rattle.dictionary.specs.Numbered.{IsWords, Places};
ghost use Rattle.rules.specs.Tables.{names_at, entries_end, IsTables, Stands, SeenAt};

use dictionary::wordsets::Words;
use dictionary::{Dictionary, Tag, wordsets};
use format::Descriptor;

// The tables of a descriptor: its mandatory words, its unique words, and the dictionary from one of its `%type` fields on.
#[derive(Clone, Copy)]
pub struct Tables {
    pub mandatory: Words,
    pub unique: Words,
    pub names: Dictionary,
}

// Where they stand in the lent entries: the mandatory words first, then the unique words, the names, and the symbols of the types. The sets of the words stand in
// the lent sets where the words do in the entries.
impl Tables {
    pub const UNIQUE: usize = Descriptor::WORDS;

    pub const NAMES: usize = 128;

    pub const SYMBOLS: usize = 8320;

    pub const END: usize = 16384;
}

// The tables of a descriptor, from one of its `%type` fields on.
pub fn read(d: &[u8], from: usize, entries: &mut [u32], sets: &mut [u64]) -> Tables
    requires described { Described d.now × (from ≤ length (values_from d.now (text "%type") 0)) }
    requires entries_end_in_bounds { (entries_end ≤ length entries.old) × (names_at ≤ length sets.old) }
    ensures { IsTables d.now entries.new sets.new result × (result.names.from ≡ from) }
{
    let mandatory = wordsets::read(
        d,
        b"%mandatory",
        &mut entries[0..Tables::UNIQUE],
        &mut sets[0..Tables::UNIQUE],
    );
    let unique = wordsets::read(
        d,
        b"%unique",
        &mut entries[Tables::UNIQUE..Tables::NAMES],
        &mut sets[Tables::UNIQUE..Tables::NAMES],
    );
    let names = dictionary::read(d, from, &mut entries[Tables::NAMES..Tables::SYMBOLS]);
    Tables {
        mandatory,
        unique,
        names,
    }
}

// The places of a name among the words of a list: they are searched only if the name is one of them.
fn places(d: &[u8], entries: &[u32], sets: &[u64], r: Words, listed: bool, name: &[u8]) -> u64
    requires { (ws : List Bytes) × IsWords d.now ws entries.now sets.now r }
    ensures { (ws : List Bytes) → IsWords d.now ws entries.now sets.now r → listed ≡ among name.now ws → Places ws name.now result }
{
    if listed {
        return wordsets::places_in(d, entries, sets, r, name);
    }
    0
}

// What is known of a name: its tags, and its places among the mandatory and the unique words.
#[derive(Clone, Copy)]
pub struct Seen {
    pub known: u64,
    pub mandatory: u64,
    pub unique: u64,
}

// A name is looked up in the tables of a descriptor.
pub fn look_up(d: &[u8], entries: &[u32], sets: &[u64], t: Tables, name: &[u8]) -> Seen
    requires { IsTables d.now entries.now sets.now t }
    ensures { Stands (record_in d.now) t.names.from t.names.next name.now result }
{
    let names = t.names;
    let known = dictionary::look_up(d, &entries[Tables::NAMES..Tables::SYMBOLS], names, name);
    let mandatory = places(
        d,
        &entries[0..Tables::UNIQUE],
        &sets[0..Tables::UNIQUE],
        t.mandatory,
        terms::has(known, Tag::MANDATORY as u64),
        name,
    );
    let unique = places(
        d,
        &entries[Tables::UNIQUE..Tables::NAMES],
        &sets[Tables::UNIQUE..Tables::NAMES],
        t.unique,
        terms::has(known, Tag::UNIQUE as u64),
        name,
    );
    Seen {
        known,
        mandatory,
        unique,
    }
}

// What is known of the name that stands from one place to another.
#[derive(Clone, Copy)]
pub struct SeenName {
    pub at: usize,
    pub end: usize,
    pub seen: Seen,
}

// A name that stands from one place to another, and one that was seen before it.
#[derive(Drop)]
pub struct NextName {
    pub at: usize,
    pub end: usize,
    pub before: SeenName,
}

// A name is looked up, if it is not the one that was seen before it: records often have their fields in one order.
pub fn recall(d: &[u8], entries: &[u32], sets: &[u64], t: Tables, s: &[u8], n: NextName) -> Seen
    requires tables { IsTables d.now entries.now sets.now t }
    requires at_le_end { (n.at ≤ n.end) × (n.end ≤ length s.now) }
    requires seen_at { SeenAt (record_in d.now) t.names.from t.names.next s.now n.before }
    ensures { Stands (record_in d.now) t.names.from t.names.next (span n.at n.end s.now) result }
{
    let old = n.before;
    let a = old.at;
    let e = old.end;
    let at = n.at;
    let end = n.end;
    if lines::same_bytes(&s[a..e], &s[at..end]) {
        return old.seen;
    }
    look_up(d, entries, sets, t, &s[at..end])
}
