// The kinds of a descriptor's `%type` fields, in a table, and a value held against all of them that name its field.
// A `%type` field is a row: its kind is that at the end of its type, which stands in its own value or in that of a typedef.
#![tactic(auto)]

ghost use Rattle.std.specs.Prelude.{◌≡◌, true, [], ◌-◌, ◌<◌, ◌≤◌, length};
ghost use Rattle.std.proofs.Math.Option.{some};
ghost use Rattle.format.specs.Bytes.{Bytes, is_some};
ghost use Rattle.format.specs.Limits.{value_bytes, type_fields};
ghost use Rattle.format.specs.Words.{trim};
ghost use Rattle.format.specs.Numbers.{int_bounds, int_of};
ghost use Rattle.values.specs.Value.{value_from};
ghost use Rattle.numbers.specs.Meaning.{int_answer};
ghost use Rattle.typing.specs.Meaning.{typed_in, type_answer};
ghost use Rattle.typedefs.specs.Names.{AreNames};
ghost use Rattle.typedefs.specs.Typedefs.{AreTypedefs};
ghost use Rattle.dictionary.specs.Known.{Described};
ghost use Rattle.terms.specs.Sets.{tags, in_set};
ghost use Rattle.enums.specs.Rows.{leader_of, Leads, IsSymbols, Found};
ghost use Rattle.columns.specs.Meets.{rows_met};
ghost use Rattle.columns.specs.Rows.{text_of, IsKinds, IsTyped, is_symbol, rows_ask};

use dictionary::Tag;
use enums::Symbols;
use format::{Descriptor, File};
use numbers::Whole;
use records::ValuePlace;
use typedefs::{Names, Typedefs};
use typing::Shape;

mod readings;

// The kind of a `%type` field.
#[derive(Clone, Copy)]
pub struct Row {
    pub kind: Shape,
}

// The kinds of a descriptor, one row for each `%type` field, and where the text of a row stands if it is an `enum`, the end of any file otherwise.
#[derive(Clone, Copy)]
pub struct Kinds {
    pub rows: [Row; Descriptor::TYPES],
    pub texts: [usize; Descriptor::TYPES],
    pub count: usize,
}

// The kind of a type that is one.
fn shape_of(t: Option<Shape>) -> Shape
    requires { is_some (type_answer [] t) ≡ true }
    ensures { (s : Bytes) → type_answer s t ≡ some (typed_in s result) }
{
    t.unwrap_or(Shape::Line)
}

// Where the text of a kind stands that was read at a place.
fn text_of(kind: Shape, value: usize) -> usize
    ensures { result ≡ text_of kind value }
{
    match kind {
        Shape::Enum { .. } => value,
        _ => File::BYTES,
    }
}

// The kinds of a descriptor, by its typedefs and their names.
fn fill(d: &[u8], names: Names, defs: Typedefs, scratch: &mut [u8]) -> Kinds
    requires described { Described d.now × AreNames d.now names × AreTypedefs d.now names.places defs }
    requires value_bytes_in_bounds { value_bytes ≤ length scratch.old }
    ensures { IsKinds d.now result }
{
    let mut rows = [Row { kind: Shape::Line }; Descriptor::TYPES];
    let mut texts = [File::BYTES; Descriptor::TYPES];
    let mut i = 0;
    // An index by hand: the loop goes by what the readers find, and this counts what is written.
    let mut count = 0;
    loop {
        let Some(ValuePlace { value, end, .. }) = records::next_named(&d[i..], b"%type") else {
            return Kinds { rows, texts, count };
        };
        let own = typedefs::read_typedef(d, names, i + value, &mut *scratch);
        let t = typedefs::end_of(defs, own);
        let kind = shape_of(t.kind);
        rows[count] = Row { kind };
        texts[count] = text_of(kind, t.value);
        count += 1;
        i += end;
    }
}

// The kinds of a descriptor.
pub fn read(d: &[u8], scratch: &mut [u8]) -> Kinds
    requires described { Described d.now }
    requires value_bytes_in_bounds { value_bytes ≤ length scratch.old }
    ensures { IsKinds d.now result }
{
    let names = typedefs::read_names(d);
    let defs = typedefs::read_typedefs(d, names, &mut *scratch);
    fill(d, names, defs, &mut *scratch)
}

// The rows of whose texts a value is a symbol, blanks and newlines around it aside. Most descriptors
// have no `enum`, and then the value is not looked at.
fn texts_with(d: &[u8], texts: &[usize], entries: &[u32], symbols: Symbols, v: &[u8]) -> u64
    requires { IsSymbols d.now texts.now entries.now symbols }
    ensures { Found d.now texts.now symbols.from symbols.next (trim v.now) result }
{
    if symbols.table.count == 0 {
        return 0;
    }
    let t = words::trimmed(v);
    enums::look_up(d, texts, entries, symbols, &v[t.start..t.end])
}

// Is a value a symbol of a row, if it is known of which texts it is one?
fn is_symbol(texts: &[usize], from: usize, row: usize, found: u64) -> bool
    requires from_le_row { (from ≤ row) × (row < length texts.now) × (row < tags) }
    requires row_value { in_set row found ≡ true → leader_of texts.now from row ≡ row }
    ensures { result ≡ is_symbol texts.now from found row }
{
    if texts[row] >= File::BYTES {
        return false;
    }
    if terms::has(found, row as u64) {
        return true;
    }
    let first = enums::leader(texts, from, row);
    terms::has(found, first as u64)
}

// What a value is held against: the kinds of a descriptor, and the symbols of those from one row on.
#[derive(Clone, Copy)]
pub struct Typed {
    pub kinds: Kinds,
    pub symbols: Symbols,
}

// Does a value meet the kinds in a set of tags, of the rows that have their symbols? x is what it is as an int, found of which texts it is a symbol.
fn rows_met(typed: Typed, found: u64, tags: u64, v: &[u8], x: Option<Whole>) -> bool
    requires from_le_next { (typed.symbols.from ≤ typed.symbols.next) × (typed.symbols.next ≤ type_fields) × (length typed.kinds.rows ≡ type_fields) × (length typed.kinds.texts ≡ type_fields) }
    requires x_value { int_answer x ≡ int_of int_bounds (trim v.now) }
    requires leads { Leads typed.kinds.texts typed.symbols.from typed.symbols.next found }
    ensures { result ≡ rows_ask typed.kinds typed.symbols.from found tags v.now typed.symbols.from (typed.symbols.next - typed.symbols.from) }
{
    let from = typed.symbols.from;
    let next = typed.symbols.next;
    for k in from..next {
        if !terms::has(tags, k as u64) {
            continue;
        }
        let symbol = is_symbol(&typed.kinds.texts, from, k, found);
        if !readings::shape_met(typed.kinds.rows[k].kind, v, x, symbol) {
            return false;
        }
    }
    true
}

// Does the value that begins where s does meet the kinds in a set of tags, of the rows that have their symbols? Most names have no type, and their values are not looked at.
pub fn value_met(
    d: &[u8],
    entries: &[u32],
    typed: Typed,
    tags: u64,
    s: &[u8],
    scratch: &mut [u8],
) -> bool
    requires typed { IsTyped d.now entries.now typed }
    requires s_in_bounds { length (value_from s.now) ≤ length scratch.old }
    ensures { result ≡ rows_met d.now tags typed.symbols.from (typed.symbols.next - typed.symbols.from) (value_from s.now) }
{
    if tags % Tag::TYPES == 0 {
        return true;
    }
    let n = values::copy_value(s, &mut *scratch);
    let x = values::int_in(&scratch[..n]);
    let found = texts_with(d, &typed.kinds.texts, entries, typed.symbols, &scratch[..n]);
    rows_met(typed, found, tags, &scratch[..n], x)
}
