// The words of one of a descriptor's lists, each with its place in the list as tag: the places at which a name stands there are a set in one number.
ghost use Rattle.std.specs.Prelude.{◌≡◌, true, false, ◌&&◌, ◌||◌, not, List, [], map, ℕ, ◌+◌, ◌-◌, ◌^◌, ◌<◌, ◌≤◌, eqb, ltb, length, drop};
ghost use Rattle.format.specs.Bytes.{Bytes, all, same};
ghost use Rattle.format.specs.Limits.{file_bytes, list_words};
ghost use Rattle.format.specs.Lines.{is_name};
ghost use Rattle.format.specs.Words.{words};
ghost use Rattle.format.specs.Rules.{listed};
ghost use Rattle.values.specs.Value.{value_from};
ghost use Rattle.words.specs.RuleNames.{place_in};
ghost use Rattle.records.specs.Places.{is_readable};
ghost use Rattle.records.specs.Walk.{record_in};
ghost use Rattle.terms.specs.Sets.{in_set};
ghost use Rattle.terms.specs.Entries.{word_at};
ghost use Rattle.terms.specs.Adding.{Adding};
ghost use Rattle.dictionary.specs.Known.{Described};
ghost use Rattle.dictionary.specs.Numbered.{numbered, Lists, IsWords, IsListed, Places, is_first, Firsts};

use format::Descriptor;
use records::ValuePlace;
use terms::Table;
use values::NextWord;

// The words of the value at i, which are names, put behind the first n entries; how many entries there are then.
fn add_value(d: &[u8], i: usize, entries: &mut [u32], n: usize) -> usize
    requires i_in_bounds { (i ≤ length d.now) × (length d.now ≤ file_bytes) }
    requires d_bound { (n + length (words (value_from (drop i d.now))) ≤ list_words) × (list_words ≤ length entries.old) }
    requires d_value { all is_name (words (value_from (drop i d.now))) ≡ true }
    ensures { Adding d.now entries.old n (numbered n (words (value_from (drop i d.now)))) [] entries.new result }
{
    // An index by hand: the loop goes by what the readers find, and this counts what is written.
    let mut k = n;
    let mut from = i;
    loop {
        let Some(NextWord { start, rest }) = values::next_word(d, from) else {
            return k;
        };
        entries[k] = terms::entry(d, start, k as u32);
        k += 1;
        from = rest;
    }
}

// The same of all fields of a name.
fn add_list(d: &[u8], name: &[u8], entries: &mut [u32]) -> usize
    requires d_value { (is_readable d.now ≡ true) × (length d.now ≤ file_bytes) }
    requires d_len_bound { (length (listed name.now (record_in d.now)) ≤ list_words) × (list_words ≤ length entries.old) }
    requires d_value_2 { all is_name (listed name.now (record_in d.now)) ≡ true }
    ensures { Adding d.now entries.old 0 (numbered 0 (listed name.now (record_in d.now))) [] entries.new result }
{
    let mut n = 0;
    let mut i = 0;
    loop {
        let Some(ValuePlace { value, end, .. }) = records::next_named(&d[i..], name) else {
            return n;
        };
        n = add_value(d, i + value, &mut *entries, n);
        i += end;
    }
}

// A table of words, and how many the list has.
#[derive(Clone, Copy)]
pub struct Words {
    pub table: Table,
    pub count: usize,
}

// The table of the words that the fields of a name list, and their sets, in lent arrays.
pub fn read(d: &[u8], name: &[u8], entries: &mut [u32], sets: &mut [u64]) -> Words
    requires described { Described d.now × Lists name.now (record_in d.now) }
    requires list_words_in_bounds { (list_words ≤ length entries.old) × (list_words ≤ length sets.old) }
    ensures { IsWords d.now (listed name.now (record_in d.now)) entries.new sets.new result }
{
    let n = add_list(d, name, &mut *entries);
    let table = terms::build(d, &mut entries[..n]);
    terms::join(d, &*entries, table, &mut *sets);
    Words { table, count: n }
}

// The places at which a name stands in a list.
pub fn places_in(d: &[u8], entries: &[u32], sets: &[u64], w: Words, name: &[u8]) -> u64
    requires { (ws : List Bytes) × IsWords d.now ws entries.now sets.now w }
    ensures { (ws : List Bytes) → IsWords d.now ws entries.now sets.now w → Places ws name.now result }
{
    terms::find_joined(d, entries, w.table, sets, name)
}

// The first of some places that is in a set, and their number where none is.
fn first_place(set: u64, count: usize) -> usize
    requires { count ≤ list_words }
    ensures { (result ≤ count) × (result < count → in_set result set ≡ true) × ((k : ℕ) → k < result → in_set k set ≡ false) }
{
    for k in 0..count {
        if terms::has(set, k as u64) {
            return k;
        }
    }
    count
}

// The first of the places at which a name stands in a list, and the list's length where there is none.
pub fn place_in(d: &[u8], entries: &[u32], sets: &[u64], w: Words, name: &[u8]) -> usize
    requires { (ws : List Bytes) × IsWords d.now ws entries.now sets.now w }
    ensures { (ws : List Bytes) → IsWords d.now ws entries.now sets.now w → result ≡ place_in name.now ws }
{
    let set = places_in(d, entries, sets, w, name);
    if set == 0 {
        return w.count;
    }
    first_place(set, w.count)
}

// A list in arrays of its own.
#[derive(Clone, Copy)]
pub struct Listed {
    pub entries: [u32; Descriptor::WORDS],
    pub sets: [u64; Descriptor::WORDS],
    pub words: Words,
}

// The list of the words of all fields of a name.
pub fn list(d: &[u8], name: &[u8]) -> Listed
    requires { Described d.now × Lists name.now (record_in d.now) }
    ensures { IsListed d.now (listed name.now (record_in d.now)) result }
{
    let mut entries = [0u32; Descriptor::WORDS];
    let mut sets = [0u64; Descriptor::WORDS];
    let words = read(d, name, &mut entries, &mut sets);
    Listed {
        entries,
        sets,
        words,
    }
}

// The places at which a name stands in it.
pub fn places(d: &[u8], l: Listed, name: &[u8]) -> u64
    requires { (ws : List Bytes) × IsListed d.now ws l }
    ensures { (ws : List Bytes) → IsListed d.now ws l → Places ws name.now result }
{
    places_in(d, &l.entries, &l.sets, l.words, name)
}

// The set of the first so many places.
fn all_places(count: usize) -> u64
    requires { count ≤ list_words }
    ensures { result ≡ 2 ^ count - 1 }
{
    if count == Descriptor::WORDS {
        return u64::MAX;
    }
    (1u64 << (count as u64)) - 1
}

// Those of the first so many places that are not in a set: of a list's words, those that are missing.
pub fn missing(set: u64, count: usize) -> u64
    requires { count ≤ list_words }
    ensures { (k : ℕ) → in_set k result ≡ (ltb k count && not (in_set k set)) }
{
    let all = all_places(count);
    all & (all ^ set)
}

// Have two entries the same word?
fn same_word(d: &[u8], x: u32, y: u32) -> bool
    ensures { result ≡ same (word_at d.now x) (word_at d.now y) }
{
    sorting::compare_words(d, sorting::place(x), sorting::place(y)).is_eq()
}

// Has no entry before entry k the same word?
fn is_first(d: &[u8], entries: &[u32], k: usize) -> bool
    requires { k < length entries.now }
    ensures { result ≡ is_first k (map (word_at d.now) entries.now) }
{
    for &before in &entries[..k] {
        if same_word(d, entries[k], before) {
            return false;
        }
    }
    true
}

// A set, with place k if that is to be.
pub fn with_place(set: u64, k: usize, more: bool) -> u64
    requires { k < list_words }
    ensures { (j : ℕ) → in_set j result ≡ (in_set j set || (more && eqb j k)) }
{
    if more {
        set | (1u64 << (k as u64))
    } else {
        set
    }
}

// The places of the entries whose words no entry before them has.
fn first_entries(d: &[u8], entries: &[u32]) -> u64
    requires { length entries.now ≤ list_words }
    ensures { Firsts (map (word_at d.now) entries.now) result }
{
    let mut set = 0;
    for k in 0..entries.len() {
        let first = is_first(d, entries, k);
        set = with_place(set, k, first);
    }
    set
}

// The first places of the words that the fields of a name list: one for each distinct word.
pub fn firsts(d: &[u8], name: &[u8]) -> u64
    requires { Described d.now × Lists name.now (record_in d.now) }
    ensures { Firsts (listed name.now (record_in d.now)) result }
{
    let mut entries = [0u32; Descriptor::WORDS];
    let n = add_list(d, name, &mut entries);
    first_entries(d, &entries[..n])
}
