// Descriptors: is each field of one shaped as its name asks, and are no two sets called alike?
ghost use Rattle.std.specs.Prelude.{◌≡◌, Bool, true, false, ◌≤◌, length};
ghost use Rattle.std.specs.Fn.{FnReturnsAt};
ghost use Rattle.format.specs.Pieces.{read_of};
ghost use Rattle.format.proofs.Records.{records};
ghost use Rattle.format.specs.Bytes.{Bytes, all, among};
ghost use Rattle.format.specs.Lines.{is_special};
ghost use Rattle.format.specs.Limits.{value_bytes, descriptors};
ghost use Rattle.format.specs.Numbers.{int_bounds};
ghost use Rattle.format.specs.Records.{fields_of};
ghost use Rattle.format.specs.Rules.{one, several, is_well_formed};
ghost use Rattle.format.specs.Questions.{fits_record};
ghost use Rattle.format.specs.Words.{words, first_word};
ghost use Rattle.format.proofs.Walking.{walk_fits, walk_well};
ghost use Rattle.values.specs.Value.{value_from};
ghost use Rattle.records.specs.Places.{is_readable};
ghost use Rattle.records.specs.Heads.{HeadParts};
ghost use Rattle.words.specs.Spans.{span};
ghost use Rattle.descriptors.specs.Contents.{OnlyWord, TextTests, listable, holds, Asks};
ghost use Rattle.descriptors.specs.Names.{names_at, Inside, NamedBy, Told};

use super::sizes::{is_size, size_rule};
use format::Descriptor;
use records::ValuePlace;
use words::{Rule, Span};

// The one word of a text, nothing where it has none or more.
fn one_word(s: &[u8]) -> Option<Span>
    ensures { OnlyWord s.now result }
{
    let w = words::next_word(s)?;
    match words::next_word(&s[w.end..]) {
        Some(_) => None,
        None => Some(w),
    }
}

// Is this text one word, which passes a test?
fn is_one<F: Fn(&[u8]) -> bool>(s: &[u8], test: F) -> bool
    requires { F.IsAlwaysCallable test }
    ensures { (p : Bytes → Bool) → TextTests (FnReturnsAt F.Fn test) p → result ≡ one p (words s.now) }
{
    match one_word(s) {
        Some(Span { start, end }) => test(&s[start..end]),
        None => false,
    }
}

// May this word stand in a list of names? Those of some lists may begin with `%`.
fn is_listable(w: &[u8], special: bool) -> bool
    ensures { result ≡ listable special w.now }
{
    if !words::is_name(w) {
        return false;
    }
    special | !lines::is_special(w)
}

// May every word of this text stand in such a list?
fn each_name(s: &[u8], special: bool) -> bool
    ensures { result ≡ all (listable special) (words s.now) }
{
    let mut rest = s;
    loop {
        let Some(Span { start, end }) = words::next_word(rest) else {
            return true;
        };
        if !is_listable(&rest[start..end], special) {
            return false;
        }
        rest = &rest[end..];
    }
}

// Is this text one or more such words?
fn all_names(s: &[u8], special: bool) -> bool
    ensures { result ≡ several (listable special) (words s.now) }
{
    let Some(_) = words::next_word(s) else {
        return false;
    };
    each_name(s, special)
}

// What the value of a field has to be. Ordinary names do not begin with `%`.
#[derive(Clone, Copy, PartialEq)]
pub enum Content {
    Free,
    TypeName,
    Names,
    Ordinary,
    Name,
    Size,
    Fault,
}

// What a name that starts with `%` asks of its value.
fn special_content(name: &[u8]) -> Content
    requires { is_special name.now ≡ true }
    ensures { Asks name.now result }
{
    match words::rule_of(name) {
        Rule::Rec => Content::TypeName,
        Rule::Doc => Content::Free,
        Rule::Mandatory => Content::Names,
        Rule::Prohibit => Content::Names,
        Rule::Allowed => Content::Names,
        Rule::Unique => Content::Names,
        Rule::Key => Content::Name,
        Rule::Size => Content::Size,
        Rule::Typedef => Content::Free,
        Rule::Type => Content::Free,
        Rule::Singular => Content::Names,
        Rule::Auto => Content::Ordinary,
        Rule::Other => Content::Fault,
    }
}

// What a field's name asks of its value.
pub fn content_of(name: &[u8]) -> Content
    ensures { Asks name.now result }
{
    if lines::is_special(name) {
        special_content(name)
    } else {
        Content::Free
    }
}

// Is a text what is asked? A match and no closure: what is asked is read from the file.
pub fn text_holds(c: Content, s: &[u8]) -> bool
    ensures { result ≡ holds c s.now }
{
    match c {
        Content::Free => true,
        Content::TypeName => is_one(s, words::is_type_name),
        Content::Names => all_names(s, true),
        Content::Ordinary => all_names(s, false),
        Content::Name => is_one(s, words::is_name),
        Content::Size => is_size(size_rule(s)),
        Content::Fault => false,
    }
}

// Is a value what is asked? It begins where value does, and is decoded into the scratch where something is asked of it.
fn value_holds(c: Content, value: &[u8], scratch: &mut [u8]) -> bool
    requires { length (value_from value.now) ≤ length scratch.old }
    ensures { (result ≡ holds c (value_from value.now)) × (length scratch.new ≡ length scratch.old) }
{
    if c == Content::Free {
        return true;
    }
    let n = values::copy_value(value, scratch);
    text_holds(c, &scratch[..n])
}

// Is a descriptor well formed, `%typedef` and `%type` fields aside: are its fields shaped as their names ask, and is there at most one `%key` and one `%size`?
pub fn well_formed(d: &[u8], scratch: &mut [u8]) -> bool
    requires d_value { is_readable d.now ≡ true }
    requires d_value_2 { fits_record (fields_of (read_of d.now)) ≡ true }
    requires value_bytes_in_bounds { value_bytes ≤ length scratch.old }
    ensures { (result ≡ is_well_formed int_bounds (fields_of (read_of d.now))) × (length scratch.new ≡ length scratch.old) }
{
    let mut i = 0;
    let mut keyed = false;
    let mut sized = false;
    loop {
        let Some(f) = records::next_field(&d[i..]) else {
            return true;
        };
        let c = content_of(&d[i + f.start..i + f.named]);
        if !value_holds(c, &d[i + f.value..i + f.end], scratch) {
            return false;
        }
        let key = c == Content::Name;
        let size = c == Content::Size;
        if (keyed & key) | (sized & size) {
            return false;
        }
        keyed = keyed | key;
        sized = sized | size;
        i += f.end;
    }
}

// Where the first `%rec` value of a descriptor stands in it.
fn rec_value(d: &[u8]) -> Span
    requires { is_readable d.now ≡ true }
    ensures { NamedBy d.now result }
{
    match records::find_field(d, b"%rec", 0) {
        Some(ValuePlace { value, end, .. }) => Span { start: value, end },
        None => Span { start: 0, end: 0 },
    }
}

// Is a word the first one of some value? The values stand in s from each start to the end beside it.
fn is_named(s: &[u8], starts: &[usize], ends: &[usize], word: &[u8]) -> bool
    requires { Inside s.now starts.now ends.now }
    ensures { result ≡ among word.now (names_at s.now starts.now ends.now) }
{
    for k in 0..starts.len() {
        if values::word_is(&s[starts[k]..ends[k]], word) {
            return true;
        }
    }
    false
}

// Is the first word of a text the first one of some value?
fn is_taken(s: &[u8], starts: &[usize], ends: &[usize], t: &[u8]) -> bool
    requires { Inside s.now starts.now ends.now }
    ensures { result ≡ among (first_word t.now) (names_at s.now starts.now ends.now) }
{
    let w = &t[words::gap_end(t)..];
    let e = words::word_end(w);
    is_named(s, starts, ends, &w[..e])
}

// A descriptor, from a to e: where its name stands, none if it is not well formed or is called like one before it.
fn head_of(
    s: &[u8],
    a: usize,
    e: usize,
    starts: &[usize],
    ends: &[usize],
    scratch: &mut [u8],
) -> Option<Span>
    requires a_le_e { (a ≤ e) × (e ≤ length s.now) }
    requires s_value { is_readable (span a e s.now) ≡ true }
    requires s_value_2 { fits_record (fields_of (read_of (span a e s.now))) ≡ true }
    requires inside { Inside s.now starts.now ends.now }
    requires value_bytes_in_bounds { value_bytes ≤ length scratch.old }
    ensures { Told s.now (fields_of (read_of (span a e s.now))) (names_at s.now starts.now ends.now) result × (length scratch.new ≡ length scratch.old) }
{
    if !well_formed(&s[a..e], scratch) {
        return None;
    }
    let v = rec_value(&s[a..e]);
    let start = a + v.start;
    let end = a + v.end;
    let n = values::copy_value(&s[start..end], scratch);
    if is_taken(s, starts, ends, &scratch[..n]) {
        return None;
    }
    Some(Span { start, end })
}

// Question 6: are all descriptors well formed, and no two sets called alike? count of them stand in s, from each start to the end beside it.
pub fn described_well(
    s: &[u8],
    starts: &[usize],
    ends: &[usize],
    count: usize,
    scratch: &mut [u8],
) -> bool
    requires head_parts { HeadParts s.now starts.now ends.now count × (count ≤ descriptors) }
    requires s_value { walk_fits (records (read_of s.now)) ≡ true }
    requires value_bytes_in_bounds { value_bytes ≤ length scratch.old }
    ensures { (result ≡ walk_well int_bounds (records (read_of s.now))) × (length scratch.new ≡ length scratch.old) }
{
    let mut from = [0usize; Descriptor::COUNT];
    let mut to = [0usize; Descriptor::COUNT];
    for n in 0..count {
        let Some(Span { start, end }) = head_of(
            s,
            starts[n],
            ends[n],
            &from[..n],
            &to[..n],
            scratch,
        ) else {
            return false;
        };
        from[n] = start;
        to[n] = end;
    }
    true
}
