// Typedefs of a descriptor and question 7: the typedef that each type names, the end of a chain of names, and are all well formed?
#![tactic(auto)]

ghost use Rattle.std.specs.Prelude.{◌≡◌, true, not, [], ◌+◌, ◌-◌, ◌≤◌, ◌<◌, length, drop, get_or};
ghost use Rattle.format.specs.Pieces.{read_of};
ghost use Rattle.format.specs.Records.{fields_of};
ghost use Rattle.format.specs.Lines.{is_name};
ghost use Rattle.format.specs.Bytes.{text, all, among};
ghost use Rattle.format.specs.Limits.{file_bytes, typedefs};
ghost use Rattle.format.specs.Words.{first_word, after_word, split, is_type_name};
ghost use Rattle.format.specs.Numbers.{int_bounds};
ghost use Rattle.format.specs.Rules.{reserved, is_typedef_name, distinct, typed_names, are_types_defined};
ghost use Rattle.values.specs.Value.{value_from};
ghost use Rattle.records.specs.Places.{is_readable};
ghost use Rattle.terms.specs.Adding.{Adding};
ghost use Rattle.records.specs.Named.{values_from};
ghost use Rattle.typing.specs.Meaning.{type_answer, SoundType};
ghost use Rattle.typedefs.specs.Walks.{names_from, fit_from};
ghost use Rattle.typedefs.specs.Names.{numbered, ArePlaces, AreNames, tag_from};
ghost use Rattle.typedefs.specs.Targets.{index_from, target_by, Bounded, targets_in, follow_of, leads, well_by};
ghost use Rattle.typedefs.specs.Typedefs.{IsTypedef, AreTypedefs, end_row};

use format::Descriptor;
use records::ValuePlace;
use terms::Table;
use typing::Shape;
use words::Span;

// The place behind the first word of a text.
pub fn behind_word(s: &[u8]) -> usize
    ensures { (result ≤ length s.now) × (drop result s.now ≡ after_word s.now) }
{
    match words::next_word(s) {
        Some(w) => w.end,
        None => s.len(),
    }
}

// Where the values of a descriptor's typedefs stand.
#[derive(Drop)]
struct Places {
    rows: [usize; Descriptor::TYPEDEFS],
    count: usize,
}

// The places, and the names put into entries, each with the number of its typedef.
fn add_names(d: &[u8], entries: &mut [u32]) -> Places
    requires d_value { (is_readable d.now ≡ true) × (length d.now ≤ file_bytes) }
    requires text_len_bound { (length (values_from d.now (text "%typedef") 0) ≤ typedefs) × (all is_type_name (names_from d.now 0) ≡ true) × (typedefs ≤ length entries.old) }
    ensures { ArePlaces d.now result.rows result.count × Adding d.now entries.old 0 (numbered 0 (names_from d.now 0)) [] entries.new result.count }
{
    let mut rows = [0usize; Descriptor::TYPEDEFS];
    let mut i = 0;
    // An index by hand: the loop goes by what the readers find, and this counts what is written.
    let mut count = 0;
    loop {
        let Some(ValuePlace { value, end, .. }) = records::next_named(&d[i..], b"%typedef") else {
            return Places { rows, count };
        };
        let a = i + value;
        let at = values::pass(d, a, words::is_gap);
        rows[count] = a;
        entries[count] = terms::entry(d, at, count as u32);
        count += 1;
        i += end;
    }
}

// The typedefs of a descriptor, to be looked up by name: where their values stand, and their names with their numbers in a table.
#[derive(Clone, Copy)]
pub struct Names {
    pub places: [usize; Descriptor::TYPEDEFS],
    pub entries: [u32; Descriptor::TYPEDEFS],
    pub table: Table,
    pub count: usize,
}

pub fn read_names(d: &[u8]) -> Names
    requires d_value { (is_readable d.now ≡ true) × (length d.now ≤ file_bytes) }
    requires text_len_bound { (length (values_from d.now (text "%typedef") 0) ≤ typedefs) × (all is_type_name (names_from d.now 0) ≡ true) }
    ensures { AreNames d.now result }
{
    let mut entries = [0u32; Descriptor::TYPEDEFS];
    let p = add_names(d, &mut entries);
    let places = p.rows;
    let count = p.count;
    let table = terms::build(d, &mut entries[..count]);
    Names {
        places,
        entries,
        table,
        count,
    }
}

// Where a type leads: it is a kind, or the name of the typedef of a number. A name that no typedef has and a text that is no type lead nowhere.
#[derive(Clone, Copy)]
pub enum Target {
    Kind,
    Alias(u8),
    Missing,
}

// The typedef of the first tag of a set from one on and below count.
fn first_tag(set: u64, from: usize, count: usize) -> Target
    requires { (from ≤ count) × (count ≤ typedefs) }
    ensures { result ≡ tag_from set from (count - from) }
{
    for k in from..count {
        if terms::has(set, k as u64) {
            return Target::Alias(k as u8);
        }
    }
    Target::Missing
}

// The first typedef of a name from one on.
fn index_from(d: &[u8], names: Names, from: usize, name: &[u8]) -> Target
    requires { AreNames d.now names × (from ≤ names.count) }
    ensures { result ≡ index_from from name.now (drop from (names_from d.now 0)) }
{
    let set = terms::find(d, &names.entries, names.table, name);
    first_tag(set, from, names.count)
}

// The target of a type that was read from a text.
fn target_in(d: &[u8], names: Names, s: &[u8], t: Option<Shape>) -> Target
    requires { AreNames d.now names × SoundType s.now t }
    ensures { result ≡ target_by (names_from d.now 0) (type_answer s.now t) }
{
    let Some(k) = t else {
        return Target::Missing;
    };
    match k {
        Shape::Alias { start, end } => index_from(d, names, 0, &s[start..end]),
        _ => Target::Kind,
    }
}

// A typedef, or a `%type` field but for the names that it is about: where its value stands, the type behind the first word of that, and where the type leads.
#[derive(Clone, Copy)]
pub struct Typedef {
    pub value: usize,
    pub kind: Option<Shape>,
    pub target: Target,
}

// The typedef whose value stands at a place.
pub fn read_typedef(d: &[u8], names: Names, value: usize, scratch: &mut [u8]) -> Typedef
    requires are_names { AreNames d.now names }
    requires value_in_bounds { (value ≤ length d.now) × (length (value_from (drop value d.now)) ≤ length scratch.old) }
    ensures { IsTypedef d.now value result }
{
    let n = values::copy_value(&d[value..], &mut *scratch);
    let at = behind_word(&scratch[..n]);
    let kind = typing::type_of(&scratch[at..n]);
    let target = target_in(d, names, &scratch[at..n], kind);
    Typedef {
        value,
        kind,
        target,
    }
}

// The targets of a descriptor's typedefs, in order. They go by value down a recursion, for which the typedefs are too large.
#[derive(Clone, Copy)]
pub struct Link {
    pub to: Target,
}

#[derive(Clone, Copy)]
pub struct Targets {
    pub rows: [Link; Descriptor::TYPEDEFS],
    pub count: usize,
}

// The typedefs of a descriptor, in order.
#[derive(Clone, Copy)]
pub struct Typedefs {
    pub rows: [Typedef; Descriptor::TYPEDEFS],
    pub targets: Targets,
}

pub fn read_typedefs(d: &[u8], names: Names, scratch: &mut [u8]) -> Typedefs
    requires are_names { AreNames d.now names }
    requires text_value { fit_from (length scratch.old) d.now (text "%typedef") 0 ≡ true }
    ensures { AreTypedefs d.now names.places result }
{
    let places = names.places;
    let count = names.count;
    let none = Typedef {
        value: 0,
        kind: None,
        target: Target::Missing,
    };
    let mut rows = [none; Descriptor::TYPEDEFS];
    let mut links = [Link {
        to: Target::Missing,
    }; Descriptor::TYPEDEFS];
    for k in 0..count {
        let t = read_typedef(d, names, places[k], &mut *scratch);
        rows[k] = t;
        links[k] = Link { to: t.target };
    }
    let targets = Targets { rows: links, count };
    Typedefs { rows, targets }
}

// Where a chain of names ends.
#[derive(Drop)]
pub enum Followed {
    End(usize),
    Missing,
    Loop,
}

// The end of the chain from typedef i on. left: how many typedefs may be met, this one among them.
pub fn follow(targets: Targets, i: usize, left: usize) -> Followed
    requires { Bounded targets }
    ensures { result ≡ follow_of left (targets_in targets) i }
{
    if left == 0 {
        return Followed::Loop;
    }
    if targets.count <= i {
        return Followed::Missing;
    }
    match targets.rows[i].to {
        Target::Kind => Followed::End(i),
        Target::Alias(j) => follow(targets, j as usize, left - 1),
        Target::Missing => Followed::Missing,
    }
}

// The typedef in which the type of t ends, which is t itself where that is no alias.
pub fn end_of(defs: Typedefs, t: Typedef) -> Typedef
    requires { Bounded defs.targets × (length defs.rows ≡ typedefs) }
    ensures { result ≡ end_row defs t }
{
    let Target::Alias(j) = t.target else {
        return t;
    };
    let targets = defs.targets;
    let Followed::End(number) = follow(targets, j as usize, targets.count) else {
        return t;
    };
    defs.rows[number]
}

// Does a target end in a kind?
fn target_ends(targets: Targets, t: Target) -> bool
    requires { Bounded targets }
    ensures { result ≡ leads (targets_in targets) t }
{
    match t {
        Target::Kind => true,
        Target::Alias(j) => {
            matches!(follow(targets, j as usize, targets.count), Followed::End(_))
        }
        Target::Missing => false,
    }
}

// Do all of them?
fn all_end(targets: Targets) -> bool
    requires { Bounded targets }
    ensures { result ≡ all (leads (targets_in targets)) (targets_in targets) }
{
    for row in &targets.rows[..targets.count] {
        if !target_ends(targets, row.to) {
            return false;
        }
    }
    true
}

// May no typedef have this name?
fn is_reserved(s: &[u8]) -> bool
    ensures { result ≡ among s.now reserved }
{
    words::is_among(
        s,
        b"int range real line size enum bool field uuid email date regexp rec",
        13,
    )
}

// Is the first word of a typedef's text a name that it may have?
fn name_good(s: &[u8]) -> bool
    ensures { result ≡ is_typedef_name (first_word s.now) }
{
    let Some(Span { start, end }) = words::next_word(s) else {
        return false;
    };
    words::is_type_name(&s[start..end]) && !is_reserved(&s[start..end])
}

// Has every typedef a name that it may have?
fn names_good(d: &[u8], scratch: &mut [u8]) -> bool
    requires d_value { is_readable d.now ≡ true }
    requires text_value { fit_from (length scratch.old) d.now (text "%typedef") 0 ≡ true }
    ensures { result ≡ all is_typedef_name (names_from d.now 0) }
{
    let mut i = 0;
    loop {
        let Some(ValuePlace { value, end, .. }) = records::next_named(&d[i..], b"%typedef") else {
            return true;
        };
        let n = values::copy_value(&d[i + value..i + end], &mut *scratch);
        if !name_good(&scratch[..n]) {
            return false;
        }
        i += end;
    }
}

// The first typedef from one on whose name is the first word of a text.
fn first_index(d: &[u8], names: Names, from: usize, s: &[u8]) -> Target
    requires { AreNames d.now names × (from ≤ names.count) }
    ensures { result ≡ index_from from (first_word s.now) (drop from (names_from d.now 0)) }
{
    let w = &s[words::gap_end(s)..];
    let e = words::word_end(w);
    index_from(d, names, from, &w[..e])
}

// Has no typedef behind typedef k its name?
fn name_alone(d: &[u8], names: Names, k: usize, scratch: &mut [u8]) -> bool
    requires are_names { AreNames d.now names × (k < names.count) }
    requires text_value { fit_from (length scratch.old) d.now (text "%typedef") 0 ≡ true }
    ensures { result ≡ not (among (get_or (names_from d.now 0) k []) (drop (k + 1) (names_from d.now 0))) }
{
    let places = names.places;
    let value = places[k];
    let n = values::copy_value(&d[value..], &mut *scratch);
    matches!(first_index(d, names, k + 1, &scratch[..n]), Target::Missing)
}

// Are the names of all typedefs distinct?
fn names_apart(d: &[u8], names: Names, scratch: &mut [u8]) -> bool
    requires are_names { AreNames d.now names }
    requires text_value { fit_from (length scratch.old) d.now (text "%typedef") 0 ≡ true }
    ensures { result ≡ distinct (names_from d.now 0) }
{
    for k in 0..names.count {
        if !name_alone(d, names, k, &mut *scratch) {
            return false;
        }
    }
    true
}

// Is every part, between commas, of a word a name?
fn parts_named(s: &[u8]) -> bool
    ensures { result ≡ all is_name (split 44 s.now) }
{
    let mut rest = s;
    loop {
        let e = words::part_end(rest, b',');
        if !words::is_name(&rest[..e]) {
            return false;
        }
        if e == rest.len() {
            return true;
        }
        rest = &rest[e + 1..];
    }
}

// Are the names of a `%type` field's text names?
fn names_well(s: &[u8]) -> bool
    ensures { result ≡ all is_name (typed_names s.now) }
{
    let Some(Span { start, end }) = words::next_word(s) else {
        return false;
    };
    parts_named(&s[start..end])
}

// Is the `%type` field whose value stands at a place well formed?
fn type_well(d: &[u8], names: Names, targets: Targets, value: usize, scratch: &mut [u8]) -> bool
    requires are_names { AreNames d.now names × Bounded targets }
    requires value_in_bounds { (value ≤ length d.now) × (length (value_from (drop value d.now)) ≤ length scratch.old) }
    ensures { result ≡ well_by (names_from d.now 0) (targets_in targets) (value_from (drop value d.now)) }
{
    let n = values::copy_value(&d[value..], &mut *scratch);
    if !names_well(&scratch[..n]) {
        return false;
    }
    let t = read_typedef(d, names, value, &mut *scratch);
    target_ends(targets, t.target)
}

// Are all of them?
fn all_well(d: &[u8], names: Names, targets: Targets, scratch: &mut [u8]) -> bool
    requires d_value { (is_readable d.now ≡ true) × AreNames d.now names × Bounded targets }
    requires text_value { fit_from (length scratch.old) d.now (text "%type") 0 ≡ true }
    ensures { result ≡ all (well_by (names_from d.now 0) (targets_in targets)) (values_from d.now (text "%type") 0) }
{
    let mut i = 0;
    loop {
        let Some(ValuePlace { value, end, .. }) = records::next_named(&d[i..], b"%type") else {
            return true;
        };
        if !type_well(d, names, targets, i + value, &mut *scratch) {
            return false;
        }
        i += end;
    }
}

// Question 7 of a descriptor, the types of `%auto` names aside: are its typedefs and types well formed?
pub fn types_well(d: &[u8], scratch: &mut [u8]) -> bool
    requires d_value { (is_readable d.now ≡ true) × (length d.now ≤ file_bytes) }
    requires text_len_bound { (length (values_from d.now (text "%typedef") 0) ≤ typedefs) × (fit_from (length scratch.old) d.now (text "%typedef") 0 ≡ true) }
    requires text_value { fit_from (length scratch.old) d.now (text "%type") 0 ≡ true }
    ensures { result ≡ are_types_defined int_bounds (fields_of (read_of d.now)) }
{
    if !names_good(d, &mut *scratch) {
        return false;
    }
    let names = read_names(d);
    if !names_apart(d, names, &mut *scratch) {
        return false;
    }
    let t = read_typedefs(d, names, &mut *scratch);
    let targets = t.targets;
    if !all_end(targets) {
        return false;
    }
    all_well(d, names, targets, &mut *scratch)
}
