// The symbols of a descriptor's `enum` types in one table: of which of them is a value a symbol? One search answers for all `%type` fields that name a field.
// A `%type` field is a row. Its text is the value that holds the kind at the end of its type, its own or a typedef's, and is known by the place where it
// begins; the end of any file stands there for a row whose kind is no `enum`. Rows with one text share its symbols, under the number of the first of them.
#![tactic(auto)]

ghost use Rattle.std.specs.Prelude.{◌≡◌, true, [], map, ◌+◌, ◌<◌, ◌≤◌, length, drop};
ghost use Rattle.format.specs.Bytes.{is_some};
ghost use Rattle.format.specs.Limits.{file_bytes, type_fields};
ghost use Rattle.format.specs.Types.{uncomment};
ghost use Rattle.values.specs.Value.{value_from};
ghost use Rattle.typing.specs.Symbols.{words_in};
ghost use Rattle.terms.specs.Sets.{tags, term_of};
ghost use Rattle.terms.specs.Adding.{value_terms, Adding};
ghost use Rattle.enums.specs.Enums.{symbols_from, Starts, enum_in, is_enum_at};
ghost use Rattle.enums.specs.Rows.{leader_of, Texts, RowsAdded, IsSymbols, Reaches, Found};

use format::File;
use terms::Table;
use values::Decoded;

// Where the symbols of the value at v begin: behind its name and the word `enum`.
fn symbols_start(d: &[u8], v: usize) -> usize
    requires { (v ≤ length d.now) × (is_enum_at d.now v ≡ true) }
    ensures { Starts d.now v result }
{
    let name = values::pass(d, v, words::is_gap);
    let gap = values::pass(d, name, |b| !words::is_gap(b));
    let head = values::pass(d, gap, words::is_gap);
    values::pass(d, head, |b| values::is_head_byte(b))
}

// Where what follows a comment is looked for; behind its opening parenthesis the comment goes on at i.
fn comment_end(d: &[u8], i: usize) -> usize
    requires i_in_bounds { i ≤ length d.now }
    requires d_value { is_some (words_in (uncomment true (value_from (drop i d.now)))) ≡ true }
    ensures { (i < result) × (result ≤ length d.now) × (words_in (uncomment true (value_from (drop i d.now))) ≡ symbols_from d.now result) }
{
    let close = values::pass(d, i, |b| values::is_comment_byte(b));
    match values::value_byte(d, close) {
        Some(x) => x.next,
        None => close,
    }
}

// The symbols of the `enum` at v, put behind the first n entries; how many entries there are then.
fn add_symbols(d: &[u8], v: usize, tag: u32, entries: &mut [u32], n: usize) -> usize
    requires v_in_bounds { (v ≤ length d.now) × (length d.now ≤ file_bytes) × (tag < tags) }
    requires v_in_bounds_2 { n + length (enum_in d.now v) ≤ length entries.old }
    requires v_value { is_enum_at d.now v ≡ true }
    ensures { Adding d.now entries.old n (map (term_of tag) (enum_in d.now v)) [] entries.new result }
{
    // An index by hand: the loop goes by what the readers find, and this counts what is written.
    let mut k = n;
    let mut at = symbols_start(d, v);
    loop {
        let Some(Decoded { byte, next }) = values::value_byte(d, at) else {
            return k;
        };
        if words::is_gap(byte) {
            at = next;
        } else if byte == b'(' {
            at = comment_end(d, next);
        } else {
            entries[k] = terms::entry(d, at, tag);
            k += 1;
            at = values::pass(d, next, |b| values::is_word_byte(b));
        }
    }
}

// The first row from one on that has the text of a row.
pub fn leader(texts: &[usize], from: usize, row: usize) -> usize
    requires { (from ≤ row) × (row < length texts.now) }
    ensures { (result ≡ leader_of texts.now from row) × (from ≤ result) × (result ≤ row) }
{
    for i in from..row {
        if texts[i] == texts[row] {
            return i;
        }
    }
    row
}

// How many entries there are, and the first row whose symbols are not among them.
#[derive(Drop)]
pub struct Added {
    pub count: usize,
    pub next: usize,
}

// The symbols of the rows from one on before another, put into entries: of as many rows as there is certainly room for.
fn add_rows(d: &[u8], texts: &[usize], from: usize, to: usize, entries: &mut [u32]) -> Added
    requires d_len_bound { (length d.now ≤ file_bytes) × (from ≤ to) × (to ≤ type_fields) × (to ≤ length texts.now) }
    requires texts { Texts d.now texts.now to }
    ensures { RowsAdded d.now texts.now from to entries.old entries.new result }
{
    let mut n = 0;
    for row in from..to {
        let v = texts[row];
        if v >= File::BYTES {
            continue;
        }
        if leader(texts, from, row) != row {
            continue;
        }
        if entries.len() - n < Table::VALUE {
            return Added {
                count: n,
                next: row,
            };
        }
        n = add_symbols(d, v, row as u32, &mut *entries, n);
    }
    Added { count: n, next: to }
}

// The table of the symbols of the rows from one on, and the first row behind those that it has.
#[derive(Clone, Copy)]
pub struct Symbols {
    pub table: Table,
    pub from: usize,
    pub next: usize,
}

// The symbols of the rows from one on before another, in a lent array.
pub fn read(d: &[u8], texts: &[usize], from: usize, to: usize, entries: &mut [u32]) -> Symbols
    requires d_len_bound { (length d.now ≤ file_bytes) × (from ≤ to) × (to ≤ type_fields) × (to ≤ length texts.now) }
    requires texts { Texts d.now texts.now to × (value_terms ≤ length entries.old) }
    ensures { IsSymbols d.now texts.now entries.new result × Reaches from to result }
{
    let a = add_rows(d, texts, from, to, &mut *entries);
    let table = terms::build(d, &mut entries[..a.count]);
    Symbols {
        table,
        from,
        next: a.next,
    }
}

// The rows of whose texts a value is a symbol, each text under the number of its first row.
pub fn look_up(d: &[u8], texts: &[usize], entries: &[u32], symbols: Symbols, value: &[u8]) -> u64
    requires { IsSymbols d.now texts.now entries.now symbols }
    ensures { Found d.now texts.now symbols.from symbols.next value.now result }
{
    terms::find(d, entries, symbols.table, value)
}
