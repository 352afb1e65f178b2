// The floor and the limit of each name of `%auto` lists, at the name's place: its number is not below the one, and below the other.
ghost use Rattle.std.specs.Prelude.{◌≡◌, true, ◌<◌, ◌≤◌, min, max, length, drop};
ghost use Rattle.format.specs.Bytes.{text, pick, all, among};
ghost use Rattle.format.specs.Limits.{file_bytes, value_bytes, list_words};
ghost use Rattle.format.specs.Numbers.{int_bounds, int_of};
ghost use Rattle.format.specs.Words.{trim, split};
ghost use Rattle.format.specs.Rules.{typed_names, auto};
ghost use Rattle.format.specs.Numbering.{above, from, largest};
ghost use Rattle.values.specs.Value.{value_from};
ghost use Rattle.records.specs.Places.{is_readable};
ghost use Rattle.records.specs.Walk.{record_in};
ghost use Rattle.records.specs.Named.{values_from};
ghost use Rattle.numbers.specs.Meaning.{int_in};
ghost use Rattle.dictionary.specs.Known.{Described};
ghost use Rattle.dictionary.specs.Numbered.{IsListed};
ghost use Rattle.numbering.specs.Types.{span_in, fits_in};
ghost use Rattle.numbering.specs.Bounds.{numbers, floor_in, limit_in, above_in, type_floor, type_limit, field_floor, lowest, joined_at, Joins, AreLimits, AreBounds};

use super::types::kind_at;
use dictionary::wordsets;
use dictionary::wordsets::Listed;
use format::Descriptor;
use numbers::Whole;
use records::{FieldPlace, ValuePlace};
use typing::Shape;

// How many numbers there are: the limit of a name that has no range.
const NUMBERS: u64 = 9223372036854775808;

// The ends of a range.
#[derive(Clone, Copy)]
struct Range {
    low: Whole,
    high: Whole,
}

// A floor that is not below the lower end of a range.
fn raise(floor: u64, low: Whole) -> u64
    ensures { result ≡ max floor (from (int_in low)) }
{
    match low {
        Whole::Plus(n) => floor.max(n),
        Whole::Minus(_) => floor,
    }
}

// A limit that is not beyond the upper end of a range.
fn lower(limit: u64, high: Whole) -> u64
    ensures { result ≡ min limit (above (int_in high)) }
{
    match high {
        Whole::Plus(end) => {
            if end < limit {
                return end + 1;
            }
            limit
        }
        Whole::Minus(end) => {
            if limit == 0 {
                return 0;
            }
            if end == 0 {
                return 1;
            }
            0
        }
    }
}

// A floor above an int; -0 is 0.
fn exceed(floor: u64, x: Whole) -> u64
    requires { above (int_in x) ≤ numbers }
    ensures { result ≡ max floor (above (int_in x)) }
{
    match x {
        Whole::Plus(n) => {
            if floor <= n {
                return n + 1;
            }
            floor
        }
        Whole::Minus(n) => {
            if floor > 0 {
                return floor;
            }
            if n == 0 {
                return 1;
            }
            0
        }
    }
}

// A floor above the int that a value is, blanks and newlines around it aside, where it is one.
fn exceed_value(floor: u64, v: &[u8]) -> u64
    ensures { result ≡ max floor (above_in (int_of int_bounds (trim v.now))) }
{
    match values::int_in(v) {
        Some(x) => exceed(floor, x),
        None => floor,
    }
}

// The bounds at place k by the ends of a range, if the place is one of so many.
fn narrow_place(k: usize, count: usize, range: Range, floors: &mut [u64], limits: &mut [u64])
    requires { (count ≤ length floors.old) × (count ≤ length limits.old) }
    ensures { (floors.new ≡ joined_at max count k (from (int_in range.low)) floors.old) × (limits.new ≡ joined_at min count k (above (int_in range.high)) limits.old) }
{
    if k < count {
        floors[k] = raise(floors[k], range.low);
        limits[k] = lower(limits[k], range.high);
    }
}

// The same of the names that are the parts, between commas, of a word.
fn narrow_parts(d: &[u8], l: Listed, s: &[u8], range: Range, floors: &mut [u64], limits: &mut [u64])
    requires listed { IsListed d.now (auto (record_in d.now)) l }
    requires list_words_in_bounds { (list_words ≤ length floors.old) × (list_words ≤ length limits.old) × AreLimits (auto (record_in d.now)) limits.old }
    ensures { Joins max (auto (record_in d.now)) (λ n. pick (among n (split 44 s.now)) (from (int_in range.low)) 0) floors.old floors.new × Joins min (auto (record_in d.now)) (λ n. pick (among n (split 44 s.now)) (above (int_in range.high)) numbers) limits.old limits.new }
{
    let mut rest = s;
    loop {
        let e = words::part_end(rest, b',');
        let k = wordsets::place_in(d, &l.entries, &l.sets, l.words, &rest[..e]);
        narrow_place(k, l.words.count, range, &mut *floors, &mut *limits);
        if e == rest.len() {
            return;
        }
        rest = &rest[e + 1..];
    }
}

// The same of the names that a `%type` field's text is about.
fn narrow_names(d: &[u8], l: Listed, s: &[u8], range: Range, floors: &mut [u64], limits: &mut [u64])
    requires listed { IsListed d.now (auto (record_in d.now)) l }
    requires list_words_in_bounds { (list_words ≤ length floors.old) × (list_words ≤ length limits.old) × AreLimits (auto (record_in d.now)) limits.old }
    ensures { Joins max (auto (record_in d.now)) (λ n. pick (among n (typed_names s.now)) (from (int_in range.low)) 0) floors.old floors.new × Joins min (auto (record_in d.now)) (λ n. pick (among n (typed_names s.now)) (above (int_in range.high)) numbers) limits.old limits.new }
{
    let t = &s[words::gap_end(s)..];
    let e = words::word_end(t);
    narrow_parts(d, l, &t[..e], range, floors, limits);
}

// The bounds by a `%type` field of a text and a kind.
fn narrow(d: &[u8], l: Listed, s: &[u8], kind: Shape, floors: &mut [u64], limits: &mut [u64])
    requires listed { IsListed d.now (auto (record_in d.now)) l }
    requires list_words_in_bounds { (list_words ≤ length floors.old) × (list_words ≤ length limits.old) × AreLimits (auto (record_in d.now)) limits.old }
    ensures { Joins max (auto (record_in d.now)) (λ n. pick (among n (typed_names s.now)) (floor_in (span_in kind)) 0) floors.old floors.new × Joins min (auto (record_in d.now)) (λ n. pick (among n (typed_names s.now)) (limit_in (span_in kind)) numbers) limits.old limits.new }
{
    let Shape::Range(low, high) = kind else {
        return;
    };
    narrow_names(d, l, s, Range { low, high }, floors, limits);
}

// The bounds by all types of a descriptor.
fn narrow_all(d: &[u8], l: Listed, scratch: &mut [u8], floors: &mut [u64], limits: &mut [u64])
    requires described { Described d.now × IsListed d.now (auto (record_in d.now)) l × (value_bytes ≤ length scratch.old) }
    requires list_words_in_bounds { (list_words ≤ length floors.old) × (list_words ≤ length limits.old) × AreLimits (auto (record_in d.now)) limits.old }
    ensures { Joins max (auto (record_in d.now)) (λ n. largest (type_floor d.now n) (values_from d.now (text "%type") 0)) floors.old floors.new × Joins min (auto (record_in d.now)) (λ n. lowest (type_limit d.now n) (values_from d.now (text "%type") 0)) limits.old limits.new }
{
    let names = typedefs::read_names(d);
    let defs = typedefs::read_typedefs(d, names, &mut *scratch);
    let mut i = 0;
    loop {
        let Some(ValuePlace { value, end, .. }) = records::next_named(&d[i..], b"%type") else {
            return;
        };
        let kind = kind_at(d, names, defs, i + value, &mut *scratch);
        let n = values::copy_value(&d[i + value..], &mut *scratch);
        narrow(d, l, &scratch[..n], kind, &mut *floors, &mut *limits);
        i += end;
    }
}

// The floor at place k, if the place is one of so many: above the int that the value at a place is.
fn raise_place(
    s: &[u8],
    value: usize,
    k: usize,
    count: usize,
    scratch: &mut [u8],
    floors: &mut [u64],
)
    requires { (value ≤ length s.now) × (length (value_from (drop value s.now)) ≤ length scratch.old) × (count ≤ length floors.old) }
    ensures { floors.new ≡ joined_at max count k (above_in (int_of int_bounds (trim (value_from (drop value s.now))))) floors.old }
{
    if k < count {
        let n = values::copy_value(&s[value..], &mut *scratch);
        floors[k] = exceed_value(floors[k], &scratch[..n]);
    }
}

// The floors by all fields of a part.
fn raise_all(d: &[u8], l: Listed, s: &[u8], scratch: &mut [u8], floors: &mut [u64])
    requires listed { IsListed d.now (auto (record_in d.now)) l }
    requires s_value { (is_readable s.now ≡ true) × (length s.now ≤ file_bytes) × (all (fits_in (length scratch.old)) (record_in s.now) ≡ true) }
    requires list_words_in_bounds { list_words ≤ length floors.old }
    ensures { Joins max (auto (record_in d.now)) (λ n. largest (field_floor n) (record_in s.now)) floors.old floors.new }
{
    let mut i = 0;
    loop {
        let Some(
            FieldPlace {
                start,
                named,
                value,
                end,
            },
        ) = records::next_field(&s[i..])
        else {
            return;
        };
        let name = &s[i + start..i + named];
        let k = wordsets::place_in(d, &l.entries, &l.sets, l.words, name);
        raise_place(s, i + value, k, l.words.count, &mut *scratch, &mut *floors);
        i += end;
    }
}

// The floors and the limits of the names, each at its place in the lists.
#[derive(Clone, Copy)]
pub(crate) struct Bounds {
    pub floors: [u64; Descriptor::WORDS],
    pub limits: [u64; Descriptor::WORDS],
}

// Those by the fields of a part and the types of a descriptor.
pub(crate) fn bounds_of(d: &[u8], l: Listed, s: &[u8], scratch: &mut [u8]) -> Bounds
    requires described { Described d.now × IsListed d.now (auto (record_in d.now)) l × (value_bytes ≤ length scratch.old) }
    requires s_value { (is_readable s.now ≡ true) × (length s.now ≤ file_bytes) × (all (fits_in (length scratch.old)) (record_in s.now) ≡ true) }
    ensures { AreBounds d.now (record_in s.now) result }
{
    let mut floors = [0u64; Descriptor::WORDS];
    let mut limits = [NUMBERS; Descriptor::WORDS];
    raise_all(d, l, s, &mut *scratch, &mut floors);
    narrow_all(d, l, scratch, &mut floors, &mut limits);
    Bounds { floors, limits }
}
