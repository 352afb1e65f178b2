// Words of a file, each with a tag that says what it is listed for, in a table: which tags has a given word? The entries are sorted, so that halving answers.
// What is proved does not depend on the sort: a table that was not found to rise is searched from end to end.
#![tactic(auto)]

ghost use Rattle.std.specs.Prelude.{◌≡◌, true, ◌+◌, ◌<◌, ◌≤◌, ◌^◌, length, get_or, take};
ghost use Rattle.format.specs.Bytes.{same};
ghost use Rattle.format.specs.Limits.{file_bytes};
ghost use Rattle.sorting.specs.Texts.{text_at, mixed};
ghost use Rattle.sorting.specs.Order.{compared_of};
ghost use Rattle.terms.specs.Sets.{tags, in_set, Answers};
ghost use Rattle.terms.specs.Entries.{print_of, entry_of, tag_of, word_at, term_at, terms_of, IsEntry, Entries, Kept};
ghost use Rattle.terms.specs.Order.{ranked, NotBehind, Rising, Low, IsTable, Holds};
ghost use Rattle.terms.specs.Joined.{TagsFrom, Joined, IsJoined};

use format::Record;
use sorting::Mixing;
use std::cmp::Ordering;
use values::Decoded;

fn wide(x: u32) -> u64
    ensures { result ≡ x }
{
    x as u64
}

// Is tag k in a set?
pub fn has(set: u64, k: u64) -> bool
    requires { k < tags }
    ensures { result ≡ in_set k set }
{
    (set >> k) % 2 == 1
}

// The set of one tag.
fn single(k: u64) -> u64
    requires { k < tags }
    ensures { result ≡ 2 ^ k }
{
    1 << k
}

// The bytes of a word mixed into one number.
fn mix_word(w: &[u8]) -> usize
    ensures { (result ≡ mixed 2166136261 w.now) × (result < 4294967296) }
{
    let mut h = Mixing::START;
    for b in w {
        h = sorting::mix_byte(h, *b);
    }
    h
}

// The fingerprint of a word.
fn word_print(w: &[u8]) -> u32
    ensures { result ≡ print_of w.now }
{
    sorting::narrow(mix_word(w)) / Table::PRINT
}

// The entry of the word at a place, with a tag.
pub fn entry(s: &[u8], at: usize, tag: u32) -> u32
    requires { (at < file_bytes) × (tag < tags) }
    ensures { (result ≡ entry_of at tag (text_at true s.now at)) × IsEntry s.now result × (term_at s.now result ≡ record { word = text_at true s.now at; tag = tag }) }
{
    let p = sorting::narrow(sorting::mix(s, at, true)) / Table::PRINT;
    sorting::narrow(at) + Table::TAG * tag + Table::PRINT * p
}

// The word at a place compared with another. By hand: it is decoded where it stands.
fn compare_word(s: &[u8], at: usize, w: &[u8]) -> Ordering
    ensures { result ≡ compared_of (text_at true s.now at) w.now }
{
    let mut i = at;
    // An index by hand: the loop goes by the bytes that are decoded, with the text beside them.
    let mut n = 0;
    loop {
        let Some(Decoded { byte, next }) = sorting::text_byte(s, i, true) else {
            if n < w.len() {
                return Ordering::Less;
            }
            return Ordering::Equal;
        };
        if w.len() <= n {
            return Ordering::Greater;
        }
        let b = w[n];
        if byte != b {
            return byte.cmp(&b);
        }
        i = next;
        n += 1;
    }
}

// The word of an entry compared with another, whose fingerprint is given; by their bytes only where the fingerprints are equal. By hand: the word stands in the file.
fn compare(s: &[u8], x: u32, w: &[u8], print: u32) -> Ordering
    requires { IsEntry s.now x × (print ≡ print_of w.now) }
    ensures { result ≡ ranked (word_at s.now x) w.now }
{
    let p = x / Table::PRINT;
    if p != print {
        return p.cmp(&print);
    }
    compare_word(s, sorting::place(x), w)
}

// The words of two entries compared. By hand: they stand in the file.
fn compare_entries(s: &[u8], x: u32, y: u32) -> Ordering
    requires { IsEntry s.now x × IsEntry s.now y }
    ensures { result ≡ ranked (word_at s.now x) (word_at s.now y) }
{
    let p = x / Table::PRINT;
    let q = y / Table::PRINT;
    if p != q {
        return p.cmp(&q);
    }
    sorting::compare_words(s, sorting::place(x), sorting::place(y))
}

// The tag of an entry.
fn tag(x: u32) -> u64
    ensures { (result ≡ tag_of x) × (result < tags) }
{
    wide(x / Table::TAG % Table::TAGS)
}

// Have two entries the same word?
fn same_word(s: &[u8], x: u32, y: u32) -> bool
    requires { IsEntry s.now x × IsEntry s.now y }
    ensures { result ≡ same (word_at s.now x) (word_at s.now y) }
{
    compare_entries(s, x, y).is_eq()
}

// Have two entries the same word and the same tag?
fn is_twin(s: &[u8], x: u32, y: u32) -> bool
    requires { IsEntry s.now x × IsEntry s.now y }
    ensures { result ≡ true → term_at s.now x ≡ term_at s.now y }
{
    if tag(x) != tag(y) {
        return false;
    }
    same_word(s, x, y)
}

// Of neighbours with the same word and tag one is left. How many are left.
fn merge(s: &[u8], entries: &mut [u32]) -> usize
    requires { Entries s.now (length entries.old) entries.old }
    ensures { (result ≤ length entries.new) × Entries s.now result entries.new × Kept s.now entries.old (take result entries.new) }
{
    if entries.len() == 0 {
        return 0;
    }
    let mut last = 0;
    // An index by hand: the entries that stay are moved within the same slice.
    let mut i = 1;
    while i < entries.len() {
        let y = entries[i];
        if is_twin(s, entries[last], y) {
            i += 1;
        } else {
            last += 1;
            entries[last] = y;
            i += 1;
        }
    }
    last + 1
}

// Is no word behind the next?
fn rising(s: &[u8], entries: &[u32]) -> bool
    requires { Entries s.now (length entries.now) entries.now }
    ensures { result ≡ true → Rising s.now (length entries.now) entries.now }
{
    for i in 1..entries.len() {
        if compare_entries(s, entries[i - 1], entries[i]).is_gt() {
            return false;
        }
    }
    true
}

// How many entries a table has, and whether they are known to rise.
#[derive(Clone, Copy)]
pub struct Table {
    pub count: usize,
    pub sorted: bool,
}

impl Table {
    // The parts of an entry: a place of the file, less than what stands for one tag; one of so many tags; and a fingerprint, of which this stands for one.
    const TAG: u32 = 65536;

    const TAGS: u32 = 64;

    const PRINT: u32 = 4194304;

    // How many terms one value can have at the most: names between 4,096 commas.
    pub const VALUE: usize = Record::VALUE + 1;
}

// The table of some entries, in their place.
pub fn build(s: &[u8], entries: &mut [u32]) -> Table
    requires { Entries s.now (length entries.old) entries.old }
    ensures { Holds s.now entries.old entries.new result }
{
    sorting::sort(s, &mut *entries, true);
    let count = merge(s, &mut *entries);
    let sorted = rising(s, &entries[..count]);
    Table { count, sorted }
}

// The tags of the entries from one on whose word is w, if all before it come before w; where no word is behind the next, a word behind w ends the search.
fn find_from(s: &[u8], entries: &[u32], from: usize, sorted: bool, w: &[u8], print: u32) -> u64
    requires entries { Entries s.now (length entries.now) entries.now }
    requires print_value { print ≡ print_of w.now }
    requires from_in_bounds { (from ≤ length entries.now) × Low s.now entries.now w.now from }
    requires rising { sorted ≡ true → Rising s.now (length entries.now) entries.now }
    ensures { Answers w.now (terms_of s.now entries.now) result }
{
    let mut set = 0;
    for i in from..entries.len() {
        let x = entries[i];
        match compare(s, x, w, print) {
            Ordering::Equal => {
                set |= single(tag(x));
            }
            Ordering::Less => {}
            Ordering::Greater => {
                if sorted {
                    return set;
                }
            }
        }
    }
    set
}

// The tags of all entries whose word is w, in any order of the entries.
fn find_all(s: &[u8], entries: &[u32], w: &[u8], print: u32) -> u64
    requires entries { Entries s.now (length entries.now) entries.now }
    requires print_value { print ≡ print_of w.now }
    ensures { Answers w.now (terms_of s.now entries.now) result }
{
    find_from(s, entries, 0, false, w, print)
}

// Where no word is behind the next: the first entry whose word is not before w.
fn first_of(s: &[u8], entries: &[u32], w: &[u8], print: u32) -> usize
    requires entries { Entries s.now (length entries.now) entries.now }
    requires print_value { (print ≡ print_of w.now) × Rising s.now (length entries.now) entries.now }
    ensures { (result ≤ length entries.now) × Low s.now entries.now w.now result × (result < length entries.now → NotBehind w.now (word_at s.now (get_or entries.now result 0))) }
{
    // An index by hand: `partition_point` asks for a test of any number, and this one asks for entries.
    let mut lo = 0;
    let mut hi = entries.len();
    while lo < hi {
        let mid = lo + (hi - lo) / 2;
        if compare(s, entries[mid], w, print).is_lt() {
            lo = mid + 1;
        } else {
            hi = mid;
        }
    }
    lo
}

// The same where no word is behind the next: at most 64 turns from the first on, since twins are merged.
fn find_sorted(s: &[u8], entries: &[u32], w: &[u8], print: u32) -> u64
    requires entries { Entries s.now (length entries.now) entries.now }
    requires print_value { (print ≡ print_of w.now) × Rising s.now (length entries.now) entries.now }
    ensures { Answers w.now (terms_of s.now entries.now) result }
{
    let i = first_of(s, entries, w, print);
    find_from(s, entries, i, true, w, print)
}

// The set of the tags that the word w has in a table.
pub fn find(s: &[u8], entries: &[u32], t: Table, w: &[u8]) -> u64
    requires { IsTable s.now entries.now t }
    ensures { Answers w.now (terms_of s.now (take t.count entries.now)) result }
{
    let n = t.count;
    if n == 0 {
        return 0;
    }
    let print = word_print(w);
    if t.sorted {
        return find_sorted(s, &entries[..n], w, print);
    }
    find_all(s, &entries[..n], w, print)
}

// The tags that the word of entry i has from there on, by those that the word of the next has: in a table that rises equal words are neighbours.
fn with_next(s: &[u8], entries: &[u32], i: usize, next: u64) -> u64
    requires entries { Entries s.now (length entries.now) entries.now × Rising s.now (length entries.now) entries.now }
    requires i_in_bounds { (i < length entries.now) × TagsFrom s.now entries.now (i + 1) next }
    ensures { TagsFrom s.now entries.now i result }
{
    let x = entries[i];
    let own = single(tag(x));
    if i + 1 == entries.len() {
        return own;
    }
    let y = entries[i + 1];
    if same_word(s, x, y) {
        return own | next;
    }
    own
}

// Such a set for every entry, from the last to the first.
fn join_rising(s: &[u8], entries: &[u32], sets: &mut [u64])
    requires entries { Entries s.now (length entries.now) entries.now × Rising s.now (length entries.now) entries.now }
    requires entries_in_bounds { length entries.now ≤ length sets.old }
    ensures { Joined s.now entries.now sets.new }
{
    let mut set = 0;
    for i in (0..entries.len()).rev() {
        set = with_next(s, entries, i, set);
        sets[i] = set;
    }
}

// The sets of a table's words, in a lent array: the first entry of a word then has all its tags. A table that does not rise has none.
pub fn join(s: &[u8], entries: &[u32], t: Table, sets: &mut [u64])
    requires { IsTable s.now entries.now t × (t.count ≤ length sets.old) }
    ensures { IsJoined s.now entries.now sets.new t }
{
    if t.sorted {
        let n = t.count;
        join_rising(s, &entries[..n], &mut *sets);
    }
}

// Where no word is behind the next: the set of the first entry whose word is w.
fn find_first(s: &[u8], entries: &[u32], sets: &[u64], w: &[u8], print: u32) -> u64
    requires entries { Entries s.now (length entries.now) entries.now }
    requires print_value { (print ≡ print_of w.now) × Rising s.now (length entries.now) entries.now }
    requires entries_in_bounds { (length entries.now ≤ length sets.now) × Joined s.now entries.now sets.now }
    ensures { Answers w.now (terms_of s.now entries.now) result }
{
    let i = first_of(s, entries, w, print);
    if i == entries.len() {
        return 0;
    }
    if compare(s, entries[i], w, print).is_eq() {
        sets[i]
    } else {
        0
    }
}

// The set of the tags that the word w has in a table with the sets of its words: its first entry answers for all.
pub fn find_joined(s: &[u8], entries: &[u32], t: Table, sets: &[u64], w: &[u8]) -> u64
    requires { IsJoined s.now entries.now sets.now t }
    ensures { Answers w.now (terms_of s.now (take t.count entries.now)) result }
{
    let n = t.count;
    if n == 0 {
        return 0;
    }
    let print = word_print(w);
    if t.sorted {
        return find_first(s, &entries[..n], sets, w, print);
    }
    find_all(s, &entries[..n], w, print)
}
