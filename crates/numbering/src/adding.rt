// The fields that are added, one for each omitted name, and their text.
ghost use Rattle.std.specs.Prelude.{◌≡◌, true, ◌&&◌, List, ◌++◌, ◌+◌, ◌<◌, ◌≤◌, leb, length, take, drop};
ghost use Rattle.format.specs.Bytes.{Bytes, all, among, is_some};
ghost use Rattle.format.specs.Limits.{file_bytes, name_bytes, value_bytes, list_words};
ghost use Rattle.format.specs.Words.{words as words_of};
ghost use Rattle.format.specs.Written.{written};
ghost use Rattle.format.specs.Numbering.{pair_names, decimal};
ghost use Rattle.format.specs.Rules.{auto};
ghost use Rattle.records.specs.Walk.{record_in};
ghost use Rattle.requests.specs.Pairs.{pairs_from, pairs_at};
ghost use Rattle.dictionary.specs.Known.{Described};
ghost use Rattle.dictionary.specs.Numbered.{IsWords, IsListed};
ghost use Rattle.numbering.specs.Bounds.{numbers, Limited};
ghost use Rattle.numbering.specs.Adding.{added_room, added_most, State, pair_by, stepped, step_all, unadded, Seen, Marked, Sums, SummedAs, AddedAs};

use super::Added;
use super::bounds::Bounds;
use dictionary::wordsets;
use dictionary::wordsets::{Listed, Words};
use format::Record;
use records::ValuePlace;
use requests::Pair;
use words::Span;

// The decimal digits of a number, at the end of a text; where they begin.
fn put_decimal(number: u64, text: &mut [u8]) -> usize
    requires { 20 ≤ length text.old }
    ensures { (result ≤ length text.new) × (drop result text.new ≡ decimal number) }
{
    let mut n = number;
    let mut at = text.len();
    // An index by hand: it goes down as the number is divided, and is the answer.
    loop {
        at -= 1;
        text[at] = b'0' + (n % 10) as u8;
        if n < 10 {
            return at;
        }
        n /= 10;
    }
}

// A field at a place of out, where it is to be written; where it ends.
fn put_text(name: &[u8], value: &[u8], short: bool, len: usize, out: &mut [u8]) -> usize
    requires name_len_bound { (length name.now ≤ file_bytes) × (length value.now ≤ file_bytes) × (len ≤ added_most) }
    requires value_in_bounds { short ≡ true → len + length (written name.now value.now) ≤ length out.old }
    ensures { (result ≡ len + length (written name.now value.now)) × (short ≡ true → take result out.new ≡ take len out.old ++ written name.now value.now) }
{
    if short {
        len + writing::put_field(&mut out[len..], name, value)
    } else {
        len + writing::written_len(name, value)
    }
}

// The field of a name with a number, at a place of out, where it is to be written; where it ends.
fn put_number(name: &[u8], number: u64, short: bool, len: usize, out: &mut [u8]) -> usize
    requires name_len_bound { (length name.now ≤ value_bytes) × (number < numbers) × (len ≤ added_most) }
    requires number_in_bounds { short ≡ true → len + length (written name.now (decimal number)) ≤ length out.old }
    ensures { (result ≡ len + length (written name.now (decimal number))) × (short ≡ true → take result out.new ≡ take len out.old ++ written name.now (decimal number)) }
{
    let mut digits = [0u8; 20];
    let at = put_decimal(number, &mut digits);
    put_text(name, &digits[at..], short, len, out)
}

// What is known of the added fields: the length of their text, whether their names are short enough to write it, and which places of the lists have a field.
#[derive(Drop)]
pub(crate) struct Sum {
    len: usize,
    short: bool,
    seen: u64,
}

// The places of the lists that have a field, with those of one name more.
fn mark(d: &[u8], entries: &[u32], sets: &[u64], w: Words, seen: u64, name: &[u8]) -> u64
    requires { IsWords d.now (auto (record_in d.now)) entries.now sets.now w }
    ensures { Marked (auto (record_in d.now)) name.now seen result }
{
    seen | wordsets::places_in(d, entries, sets, w, name)
}

// The places of the lists that the pairs of a request have.
pub(crate) fn mark_pairs(d: &[u8], l: Listed, req: &[u8], from: usize) -> u64
    requires listed { IsListed d.now (auto (record_in d.now)) l }
    requires req_len_bound { (length req.now ≤ file_bytes) × (from ≤ length req.now) × (is_some (pairs_from req.now from) ≡ true) }
    ensures { Seen (auto (record_in d.now)) (pair_names (pairs_at req.now from)) result }
{
    let mut seen: u64 = 0;
    let mut i = from;
    loop {
        let Some(Pair { name, next, .. }) = requests::pair_at(req, i) else {
            return seen;
        };
        seen = mark(
            d,
            &l.entries,
            &l.sets,
            l.words,
            seen,
            &req[name.start..name.end],
        );
        i = next;
    }
}

// Are names short, with one more?
fn stays_short(short: bool, name: &[u8]) -> bool
    ensures { result ≡ (short && leb (length name.now) name_bytes) }
{
    short && name.len() <= Record::NAME
}

// One word of the lists more: it has a field, or gets one with its floor as number, if that is below its limit.
fn add_word(
    d: &[u8],
    l: Listed,
    name: &[u8],
    bounds: Bounds,
    sum: Sum,
    out: &mut [u8],
) -> Option<Sum>
    requires listed { IsListed d.now (auto (record_in d.now)) l }
    requires limited { Limited (auto (record_in d.now)) bounds }
    requires d_value { (among name.now (auto (record_in d.now)) ≡ true) × (length name.now ≤ value_bytes) × (added_room ≤ length out.old) }
    requires sums { (s : State) × Sums (auto (record_in d.now)) s out.old sum × (s.passed < list_words) }
    ensures { (s : State) → Sums (auto (record_in d.now)) s out.old sum → SummedAs (auto (record_in d.now)) (stepped (pair_by (auto (record_in d.now)) bounds.floors bounds.limits) s name.now) out.new result }
{
    let k = wordsets::place_in(d, &l.entries, &l.sets, l.words, name);
    if terms::has(sum.seen, k as u64) {
        return Some(sum);
    }
    let number = bounds.floors[k];
    if bounds.limits[k] <= number {
        return None;
    }
    let short = stays_short(sum.short, name);
    let len = put_number(name, number, short, sum.len, out);
    let seen = mark(d, &l.entries, &l.sets, l.words, sum.seen, name);
    Some(Sum { len, short, seen })
}

// The words of a text more.
fn add_words(d: &[u8], l: Listed, s: &[u8], bounds: Bounds, sum: Sum, out: &mut [u8]) -> Option<Sum>
    requires listed { IsListed d.now (auto (record_in d.now)) l }
    requires limited { Limited (auto (record_in d.now)) bounds }
    requires s_value { (all (λ n. among n (auto (record_in d.now))) (words_of s.now) ≡ true) × (length s.now ≤ value_bytes) × (added_room ≤ length out.old) }
    requires sums { (t : State) × Sums (auto (record_in d.now)) t out.old sum × (t.passed + length (words_of s.now) ≤ list_words) }
    ensures { (t : State) → Sums (auto (record_in d.now)) t out.old sum → t.passed + length (words_of s.now) ≤ list_words → SummedAs (auto (record_in d.now)) (step_all (pair_by (auto (record_in d.now)) bounds.floors bounds.limits) t (words_of s.now)) out.new result }
{
    let mut sums = sum;
    let mut rest = s;
    loop {
        let Some(Span { start, end }) = words::next_word(rest) else {
            return Some(sums);
        };
        sums = add_word(d, l, &rest[start..end], bounds, sums, &mut *out)?;
        rest = &rest[end..];
    }
}

// All words of the lists of a descriptor. seen: the places of those that have a field before.
pub(crate) fn add_lists(
    d: &[u8],
    l: Listed,
    bounds: Bounds,
    seen: u64,
    scratch: &mut [u8],
    out: &mut [u8],
) -> Option<Sum>
    requires listed { IsListed d.now (auto (record_in d.now)) l }
    requires described { Described d.now × (value_bytes ≤ length scratch.old) × (added_room ≤ length out.old) }
    requires limited { Limited (auto (record_in d.now)) bounds }
    requires seen { (ns : List Bytes) × Seen (auto (record_in d.now)) ns seen }
    ensures { (ns : List Bytes) → Seen (auto (record_in d.now)) ns seen → SummedAs (auto (record_in d.now)) (step_all (pair_by (auto (record_in d.now)) bounds.floors bounds.limits) (unadded ns) (auto (record_in d.now))) out.new result }
{
    let mut sums = Sum {
        len: 0,
        short: true,
        seen,
    };
    let mut i = 0;
    loop {
        let Some(ValuePlace { value, end, .. }) = records::next_named(&d[i..], b"%auto") else {
            return Some(sums);
        };
        let n = values::copy_value(&d[i + value..], &mut *scratch);
        sums = add_words(d, l, &scratch[..n], bounds, sums, &mut *out)?;
        i += end;
    }
}

// What the sums tell of all words.
pub(crate) fn told(r: Option<Sum>) -> Added
    ensures { (ws : List Bytes) (s : State) (out : Bytes) → SummedAs ws s out r → s.passed ≤ list_words → added_room ≤ length out → AddedAs s.pairs out result }
{
    let Some(sum) = r else {
        return Added::Numberless;
    };
    if sum.short {
        Added::Text { len: sum.len }
    } else {
        Added::Long { len: sum.len }
    }
}
