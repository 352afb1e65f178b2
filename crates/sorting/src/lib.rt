// Entries of texts, sorted in place. A text stands at a place of a file: a value from there to its end, or the word that it begins with. An entry is a
// number whose lower 16 bits are the place of its text. Nothing is promised of the order that the sort makes: whoever needs it looks whether the entries rise.
#![tactic(auto)]

ghost use Rattle.std.specs.Prelude.{◌≡◌, true, not, [], ◌∷◌, ◌<◌, ◌≤◌, ◌%◌, length};
ghost use Rattle.sorting.specs.Texts.{keeps, text_at, TextByte, mixed};
ghost use Rattle.sorting.specs.Order.{compared_of, first_of, order_of};
ghost use Rattle.sorting.specs.Moves.{swapped, Moved};

use std::cmp::Ordering;
use values::{Decoded, Likeness};

fn wide(x: u32) -> usize
    ensures { result ≡ x }
{
    x as usize
}

fn broad(x: u16) -> usize
    ensures { result ≡ x }
{
    x as usize
}

// A number of 32 bits as one: entries are made of such. No `try_from`: the bound is known.
pub fn narrow(x: usize) -> u32
    requires { x < 4294967296 }
    ensures { result ≡ x }
{
    x as u32
}

// The parts of an entry, from the lowest bits up: the place in 16; where words are sorted, a tag in 6; then bits that the text is mixed into. The upper ten name the bucket that it is sorted in.
#[derive(Drop)]
pub struct Entry {}

impl Entry {
    pub const PLACES: u32 = 65536;

    pub const TAGGED: u32 = 4194304;

    const BUCKETS: usize = 1024;

    // More entries than there ever are: the counts of buckets are numbers of 16 bits, so that two lists of them take little of the stack.
    const MANY: u16 = 32768;

    // So few are sorted by insertion.
    const FEW: usize = 48;
}

// How bytes are mixed into a number of 32 bits: each is added to the number so far and the sum multiplied.
#[derive(Drop)]
pub struct Mixing {}

impl Mixing {
    pub const START: usize = 2166136261;

    const FACTOR: usize = 2654435761;

    const NUMBERS: usize = 4294967296;
}

// One byte more.
pub fn mix_byte(h: usize, b: u8) -> usize
    requires { h < 4294967296 }
    ensures { (result ≡ mixed h (b ∷ [])) × (result < 4294967296) }
{
    (h + b as usize) * Mixing::FACTOR % Mixing::NUMBERS
}

// Does a text end before this byte?
fn ends_at(b: u8, words: bool) -> bool
    ensures { result ≡ not (keeps words b) }
{
    words && !values::is_word_byte(b)
}

// The byte of a text that is looked for at i.
pub fn text_byte(s: &[u8], i: usize, words: bool) -> Option<Decoded>
    ensures { TextByte words s.now i result }
{
    let d = values::value_byte(s, i);
    let Some(Decoded { byte, next }) = d else {
        return None;
    };
    if ends_at(byte, words) {
        return None;
    }
    Some(Decoded { byte, next })
}

// The bytes of a text mixed into one number: its upper bits tell most texts apart.
pub fn mix(s: &[u8], i: usize, words: bool) -> usize
    ensures { (result ≡ mixed 2166136261 (text_at words s.now i)) × (result < 4294967296) }
{
    let mut h = Mixing::START;
    let mut at = i;
    loop {
        let d = text_byte(s, at, words);
        let Some(Decoded { byte, next }) = d else {
            return h;
        };
        h = mix_byte(h, byte);
        at = next;
    }
}

// Two words compared, without decoding them to anywhere.
pub fn compare_words(s: &[u8], i: usize, j: usize) -> Ordering
    ensures { result ≡ compared_of (text_at true s.now i) (text_at true s.now j) }
{
    let mut a = i;
    let mut b = j;
    loop {
        let x = text_byte(s, a, true);
        let y = text_byte(s, b, true);
        let Some(Decoded { byte: c, next: k }) = x else {
            let Some(_) = y else {
                return Ordering::Equal;
            };
            return Ordering::Less;
        };
        let Some(Decoded { byte: d, next: l }) = y else {
            return Ordering::Greater;
        };
        if c != d {
            return c.cmp(&d);
        }
        a = k;
        b = l;
    }
}

fn first(before: bool) -> Ordering
    ensures { result ≡ first_of before }
{
    if before {
        Ordering::Less
    } else {
        Ordering::Greater
    }
}

// Which of two values comes first.
pub fn order_of(l: Likeness) -> Ordering
    ensures { result ≡ order_of l }
{
    match l {
        Likeness::Equal => Ordering::Equal,
        Likeness::Unlike { shorter } => first(shorter),
        Likeness::Differ { less, .. } => first(less),
    }
}

// Where the text of an entry stands.
pub fn place(x: u32) -> usize
    ensures { result ≡ x % 65536 }
{
    wide(x % Entry::PLACES)
}

// What the order looks at first are the bits from here up: above the place, for words above 6
// more bits. It is like `first` by chance: the one answers a number, the other an order.
fn lowest(words: bool) -> u32 {
    if words {
        return Entry::TAGGED;
    }
    Entry::PLACES
}

// For the sort alone: two texts, compared where they stand in the file, as no derived order
// does. Nothing is said of the answer.
fn compare_texts(s: &[u8], i: usize, j: usize, words: bool) -> Ordering {
    if words {
        return compare_words(s, i, j);
    }
    if s.len() < i {
        return Ordering::Equal;
    }
    if s.len() < j {
        return Ordering::Equal;
    }
    order_of(values::compare(&s[i..], &s[j..]))
}

// For the sort alone: by these bits, then by text, then by all that stands above the place. Nothing is said of the answer.
fn is_before(s: &[u8], x: u32, y: u32, words: bool) -> bool {
    if lowest(words) <= x ^ y {
        return x < y;
    }
    match compare_texts(s, place(x), place(y), words) {
        Ordering::Equal => x / Entry::PLACES < y / Entry::PLACES,
        Ordering::Less => true,
        Ordering::Greater => false,
    }
}

fn swap(entries: &mut [u32], i: usize, j: usize)
    requires { (i < length entries.old) × (j < length entries.old) }
    ensures { entries.new ≡ swapped entries.old i j }
{
    let x = entries[i];
    let y = entries[j];
    entries[i] = y;
    entries[j] = x;
}

// The one of two children in a heap that comes last, or the only one.
fn last_child(s: &[u8], entries: &[u32], words: bool, left: usize, end: usize) -> usize
    requires { (left < end) × (end ≤ length entries.now) }
    ensures { (left ≤ result) × (result < end) }
{
    let right = left + 1;
    if right < end {
        if is_before(s, entries[left], entries[right], words) {
            return right;
        }
    }
    left
}

// The entry at a root sinks to its place in the heap from lo to end.
fn sift(s: &[u8], entries: &mut [u32], words: bool, lo: usize, from: usize, end: usize)
    requires { (lo ≤ from) × (end ≤ length entries.old) }
    ensures { Moved entries.old entries.new }
{
    let mut root = from;
    while root < end {
        let left = root + (root - lo) + 1;
        if end <= left {
            return;
        }
        let child = last_child(s, &*entries, words, left, end);
        if is_before(s, entries[root], entries[child], words) {
            swap(&mut *entries, root, child);
            root = child;
        } else {
            return;
        }
    }
}

fn make_heap(s: &[u8], entries: &mut [u32], words: bool, lo: usize, end: usize)
    requires { (lo ≤ end) × (end ≤ length entries.old) }
    ensures { Moved entries.old entries.new }
{
    for top in (lo..lo + (end - lo) / 2).rev() {
        sift(s, &mut *entries, words, lo, top, end);
    }
}

// Heap sort of the entries from lo to hi: never quadratic, and in place.
fn sort_part(s: &[u8], entries: &mut [u32], words: bool, lo: usize, hi: usize)
    requires { (lo ≤ hi) × (hi ≤ length entries.old) }
    ensures { Moved entries.old entries.new }
{
    make_heap(s, &mut *entries, words, lo, hi);
    for end in (lo + 1..hi).rev() {
        swap(&mut *entries, lo, end);
        sift(s, &mut *entries, words, lo, lo, end);
    }
}

// The entry at i sinks among those from lo on: it changes places with its left neighbour while it is before that.
fn insert(s: &[u8], entries: &mut [u32], words: bool, lo: usize, i: usize)
    requires { i < length entries.old }
    ensures { Moved entries.old entries.new }
{
    let mut at = i;
    while lo < at {
        let left = at - 1;
        if is_before(s, entries[at], entries[left], words) {
            swap(&mut *entries, at, left);
            at = left;
        } else {
            return;
        }
    }
}

// Insertion sort of the entries from lo to hi.
fn sort_few(s: &[u8], entries: &mut [u32], words: bool, lo: usize, hi: usize)
    requires { hi ≤ length entries.old }
    ensures { Moved entries.old entries.new }
{
    for i in lo..hi {
        insert(s, &mut *entries, words, lo, i);
    }
}

// The entries from lo to hi are sorted: by insertion, which is quicker, where there are few.
fn sort_bucket(s: &[u8], entries: &mut [u32], words: bool, lo: usize, hi: usize)
    requires { (lo ≤ hi) × (hi ≤ length entries.old) }
    ensures { Moved entries.old entries.new }
{
    if hi - lo <= Entry::FEW {
        sort_few(s, &mut *entries, words, lo, hi);
    } else {
        sort_part(s, &mut *entries, words, lo, hi);
    }
}

// The bucket that an entry goes to, by its upper ten bits.
fn bucket(x: u32) -> usize
    ensures { result < 1024 }
{
    wide(x / Entry::TAGGED)
}

// The entries of each bucket are counted.
fn count_buckets(entries: &[u32], counts: &mut [u16])
    requires { 1024 ≤ length counts.old }
{
    for &x in entries {
        let b = bucket(x);
        counts[b] = counts[b] % Entry::MANY + 1;
    }
}

// The counts become the places where the buckets begin.
fn sum_counts(counts: &mut [u16]) {
    let mut total: u16 = 0;
    for c in counts.iter_mut() {
        let count = *c;
        *c = total;
        total = (total + count % Entry::MANY) % Entry::MANY;
    }
}

// The entry at i changes places with the one where its bucket goes on; false where there is no such place.
fn settle(entries: &mut [u32], next: &mut [u16], i: usize) -> bool
    requires { 1024 ≤ length next.old }
    ensures { Moved entries.old entries.new }
{
    if entries.len() <= i {
        return false;
    }
    let b = bucket(entries[i]);
    let j = broad(next[b]);
    if entries.len() <= j {
        return false;
    }
    next[b] = next[b] % Entry::MANY + 1;
    swap(&mut *entries, i, j);
    true
}

// Entries are settled until bucket b goes on at e.
fn fill_bucket(entries: &mut [u32], next: &mut [u16], b: usize, e: usize)
    requires { (1024 ≤ length next.old) × (b < 1024) }
    ensures { Moved entries.old entries.new }
{
    for _ in 0..entries.len() {
        let i = broad(next[b]);
        if e <= i {
            return;
        }
        if !settle(&mut *entries, &mut *next, i) {
            return;
        }
    }
}

// Every entry is moved into its bucket.
fn fill_buckets(entries: &mut [u32], starts: &[u16], next: &mut [u16])
    requires { (1025 ≤ length starts.now) × (1024 ≤ length next.old) }
    ensures { Moved entries.old entries.new }
{
    for b in 0..Entry::BUCKETS {
        let e = broad(starts[b + 1]);
        fill_bucket(&mut *entries, &mut *next, b, e);
    }
}

// Each bucket is sorted.
fn sort_buckets(s: &[u8], entries: &mut [u32], words: bool, starts: &[u16])
    requires { 1025 ≤ length starts.now }
    ensures { Moved entries.old entries.new }
{
    for b in 0..Entry::BUCKETS {
        let lo = broad(starts[b]);
        let hi = broad(starts[b + 1]);
        if hi <= entries.len() {
            if lo < hi {
                sort_bucket(s, &mut *entries, words, lo, hi);
            }
        }
    }
}

// Entries go into buckets by their upper ten bits, and each bucket is sorted: about linear time where those are spread, and no file makes it quadratic.
fn sort_many(s: &[u8], entries: &mut [u32], words: bool)
    ensures { Moved entries.old entries.new }
{
    let mut starts = [0u16; 1025];
    count_buckets(&*entries, &mut starts);
    sum_counts(&mut starts);
    let mut next = starts;
    fill_buckets(&mut *entries, &starts, &mut next);
    sort_buckets(s, &mut *entries, words, &starts);
}

// Entries are sorted. Few are one bucket.
pub fn sort(s: &[u8], entries: &mut [u32], words: bool)
    ensures { Moved entries.old entries.new }
{
    let n = entries.len();
    if n <= Entry::FEW {
        sort_few(s, &mut *entries, words, 0, n);
    } else {
        sort_many(s, &mut *entries, words);
    }
}
