// Question 13: are the keys of a set distinct? The values of the fields that its key names are gathered as entries, the entries are sorted and neighbours compared, so no file takes
// quadratic time. An entry has the place of its value and a number above it: of a key, a fingerprint of the value. Entries with any numbers are told apart here (`distinct_marks`).
#![tactic(auto)]

ghost use Rattle.std.specs.Prelude.{◌≡◌, true, ◌%◌, ◌<◌, ◌≤◌, length, take, drop};
ghost use Rattle.format.specs.Bytes.{same, among};
ghost use Rattle.format.specs.Limits.{file_bytes};
ghost use Rattle.format.specs.Rules.{distinct};
ghost use Rattle.format.specs.Sets.{values_of};
ghost use Rattle.values.specs.Value.{value_from};
ghost use Rattle.records.specs.Places.{is_readable};
ghost use Rattle.records.specs.Walk.{record_in};
ghost use Rattle.keys.specs.Marks.{mark_at, marks_of, Inside};
ghost use Rattle.keys.specs.Keys.{entry_of};
ghost use Rattle.keys.specs.Order.{ranked, Tells};
ghost use Rattle.keys.specs.Gathered.{Gathered};

use records::ValuePlace;
use sorting::Entry;
use std::cmp::Ordering;

// The entry of the key that begins at a place.
fn entry(s: &[u8], at: usize) -> u32
    requires { (at < file_bytes) × (at ≤ length s.now) }
    ensures { result ≡ entry_of at (value_from (drop at s.now)) }
{
    let p = sorting::narrow(sorting::mix(s, at, false)) / Entry::PLACES;
    sorting::narrow(at) + Entry::PLACES * p
}

// What two entries stand for, compared: as values only where the numbers are equal. By hand:
// values stand in the file.
fn compare_entries(s: &[u8], x: u32, y: u32) -> Ordering
    requires { (x % 65536 ≤ length s.now) × (y % 65536 ≤ length s.now) }
    ensures { result ≡ ranked (mark_at s.now x) (mark_at s.now y) }
{
    let p = x / Entry::PLACES;
    let q = y / Entry::PLACES;
    if p < q {
        return Ordering::Less;
    }
    if q < p {
        return Ordering::Greater;
    }
    let a = sorting::place(x);
    let b = sorting::place(y);
    sorting::order_of(values::compare(&s[a..], &s[b..]))
}

// Is each before the next? The first neighbours that are not decide.
fn neighbours(s: &[u8], entries: &[u32]) -> Ordering
    requires { Inside s.now (length entries.now) entries.now }
    ensures { Tells result (distinct (marks_of s.now entries.now)) }
{
    for i in 1..entries.len() {
        match compare_entries(s, entries[i - 1], entries[i]) {
            Ordering::Less => {}
            Ordering::Equal => return Ordering::Equal,
            Ordering::Greater => return Ordering::Greater,
        }
    }
    Ordering::Less
}

// Do two entries stand for the same?
fn alike(s: &[u8], x: u32, y: u32) -> bool
    requires { (x % 65536 ≤ length s.now) × (y % 65536 ≤ length s.now) }
    ensures { result ≡ same (mark_at s.now x) (mark_at s.now y) }
{
    if x / Entry::PLACES != y / Entry::PLACES {
        return false;
    }
    let a = sorting::place(x);
    let b = sorting::place(y);
    values::are_equal(&s[a..], &s[b..])
}

// Is what x stands for among what entries do?
fn mark_among(s: &[u8], x: u32, entries: &[u32]) -> bool
    requires x_in_bounds { x % 65536 ≤ length s.now }
    requires inside { Inside s.now (length entries.now) entries.now }
    ensures { result ≡ among (mark_at s.now x) (marks_of s.now entries.now) }
{
    for &y in entries {
        if alike(s, x, y) {
            return true;
        }
    }
    false
}

// All pairs, in any order of the entries.
fn distinct_pairs(s: &[u8], entries: &[u32]) -> bool
    requires { Inside s.now (length entries.now) entries.now }
    ensures { result ≡ distinct (marks_of s.now entries.now) }
{
    for i in 0..entries.len() {
        if mark_among(s, entries[i], &entries[i + 1..]) {
            return false;
        }
    }
    true
}

// Sorted entries answer by their neighbours; were the sort wrong and these said nothing, all pairs would answer.
fn distinct_entries(s: &[u8], entries: &mut [u32]) -> bool
    requires { Inside s.now (length entries.old) entries.old }
    ensures { result ≡ distinct (marks_of s.now entries.old) }
{
    sorting::sort(s, &mut *entries, false);
    match neighbours(s, &*entries) {
        Ordering::Equal => false,
        Ordering::Less => true,
        Ordering::Greater => distinct_pairs(s, &*entries),
    }
}

// Do the first n entries stand for distinct things? The entries' order afterwards is free.
pub fn distinct_marks(s: &[u8], entries: &mut [u32], n: usize) -> bool
    requires n_in_bounds { n ≤ length entries.old }
    requires inside { Inside s.now n entries.old }
    ensures { result ≡ distinct (marks_of s.now (take n entries.old)) }
{
    distinct_entries(s, &mut entries[..n])
}

// The entries of the values in s of the fields of a name; how many there are.
fn gather(name: &[u8], s: &[u8], entries: &mut [u32]) -> usize
    requires s_value { (is_readable s.now ≡ true) × (length s.now ≤ file_bytes) }
    requires s_in_bounds { length (values_of name.now (record_in s.now)) ≤ length entries.old }
    ensures { Gathered name.now s.now entries.new result }
{
    let mut i = 0;
    // An index by hand: the loop goes by what the readers find, and this counts what is written.
    let mut n = 0;
    loop {
        let Some(ValuePlace { value, end, .. }) = records::next_named(&s[i..], name) else {
            return n;
        };
        entries[n] = entry(s, i + value);
        n += 1;
        i += end;
    }
}

// Are the values in s of the fields of a name distinct?
pub fn keys_distinct(name: &[u8], s: &[u8], entries: &mut [u32]) -> bool
    requires s_value { (is_readable s.now ≡ true) × (length s.now ≤ file_bytes) }
    requires s_in_bounds { length (values_of name.now (record_in s.now)) ≤ length entries.old }
    ensures { result ≡ distinct (values_of name.now (record_in s.now)) }
{
    let n = gather(name, s, &mut *entries);
    distinct_marks(s, &mut *entries, n)
}
