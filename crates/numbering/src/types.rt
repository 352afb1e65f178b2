// The `%type` fields of a descriptor: the kind at the end of each, and the names that it is about.
ghost use Rattle.std.specs.Prelude.{◌≡◌, ◌||◌, not, ◌≤◌, length, drop};
ghost use Rattle.format.specs.Bytes.{text, all, any, among, is_some};
ghost use Rattle.format.specs.Limits.{value_bytes};
ghost use Rattle.format.specs.Words.{split};
ghost use Rattle.format.specs.Rules.{typed_names, auto};
ghost use Rattle.values.specs.Value.{value_from};
ghost use Rattle.records.specs.Walk.{record_in};
ghost use Rattle.records.specs.Named.{values_from};
ghost use Rattle.typedefs.specs.Names.{AreNames};
ghost use Rattle.typedefs.specs.Typedefs.{AreTypedefs};
ghost use Rattle.dictionary.specs.Known.{Described};
ghost use Rattle.dictionary.specs.Numbered.{IsListed};
ghost use Rattle.numbering.specs.Types.{span_in, type_span, HasType, is_type_counted};

use dictionary::wordsets;
use dictionary::wordsets::Listed;
use records::ValuePlace;
use typedefs::{Names, Typedefs};
use typing::Shape;

// The kind at the end of the type of the value at a place.
pub(crate) fn kind_at(
    d: &[u8],
    names: Names,
    defs: Typedefs,
    value: usize,
    scratch: &mut [u8],
) -> Shape
    requires described { Described d.now × AreNames d.now names × AreTypedefs d.now names.places defs }
    requires has_type { HasType d.now value × (value_bytes ≤ length scratch.old) }
    ensures { span_in result ≡ type_span d.now (value_from (drop value d.now)) }
{
    let own = typedefs::read_typedef(d, names, value, &mut *scratch);
    let t = typedefs::end_of(defs, own);
    match t.kind {
        Some(shape) => shape,
        None => Shape::Line,
    }
}

// Is a kind int or range?
fn is_counted(kind: Shape) -> bool
    ensures { result ≡ is_some (span_in kind) }
{
    matches!(kind, Shape::Int | Shape::Range(..))
}

// Is a part, between commas, of a word among the names of `%auto` lists?
fn part_listed(d: &[u8], l: Listed, s: &[u8]) -> bool
    requires { IsListed d.now (auto (record_in d.now)) l }
    ensures { result ≡ any (λ n. among n (auto (record_in d.now))) (split 44 s.now) }
{
    let mut rest = s;
    loop {
        let e = words::part_end(rest, b',');
        if wordsets::place_in(d, &l.entries, &l.sets, l.words, &rest[..e]) < l.words.count {
            return true;
        }
        if e == rest.len() {
            return false;
        }
        rest = &rest[e + 1..];
    }
}

// Is one of the names that a `%type` field's text is about?
fn name_listed(d: &[u8], l: Listed, s: &[u8]) -> bool
    requires { IsListed d.now (auto (record_in d.now)) l }
    ensures { result ≡ any (λ n. among n (auto (record_in d.now))) (typed_names s.now) }
{
    let t = &s[words::gap_end(s)..];
    let e = words::word_end(t);
    part_listed(d, l, &t[..e])
}

// Is the type of the value at a place int or range, or about no name of an `%auto` list?
fn type_counted(d: &[u8], l: Listed, kind: Shape, value: usize, scratch: &mut [u8]) -> bool
    requires listed { IsListed d.now (auto (record_in d.now)) l }
    requires value_in_bounds { (value ≤ length d.now) × (length (value_from (drop value d.now)) ≤ length scratch.old) }
    ensures { result ≡ (is_some (span_in kind) || not (any (λ n. among n (auto (record_in d.now))) (typed_names (value_from (drop value d.now))))) }
{
    if is_counted(kind) {
        return true;
    }
    let n = values::copy_value(&d[value..], &mut *scratch);
    !name_listed(d, l, &scratch[..n])
}

// Is every type?
fn all_counted(d: &[u8], l: Listed, names: Names, defs: Typedefs, scratch: &mut [u8]) -> bool
    requires listed { IsListed d.now (auto (record_in d.now)) l }
    requires described { Described d.now × AreNames d.now names × AreTypedefs d.now names.places defs }
    requires value_bytes_in_bounds { value_bytes ≤ length scratch.old }
    ensures { result ≡ all (is_type_counted d.now) (values_from d.now (text "%type") 0) }
{
    let mut i = 0;
    loop {
        let Some(ValuePlace { value, end, .. }) = records::next_named(&d[i..], b"%type") else {
            return true;
        };
        let kind = kind_at(d, names, defs, i + value, &mut *scratch);
        if !type_counted(d, l, kind, i + value, &mut *scratch) {
            return false;
        }
        i += end;
    }
}

// The same of a descriptor.
pub(crate) fn types_counted(d: &[u8], l: Listed, scratch: &mut [u8]) -> bool
    requires listed { IsListed d.now (auto (record_in d.now)) l }
    requires described { Described d.now × (value_bytes ≤ length scratch.old) }
    ensures { result ≡ all (is_type_counted d.now) (values_from d.now (text "%type") 0) }
{
    let names = typedefs::read_names(d);
    let defs = typedefs::read_typedefs(d, names, &mut *scratch);
    all_counted(d, l, names, defs, &mut *scratch)
}
