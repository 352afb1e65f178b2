// The six kinds of an edit: which fields each has, and what it asks for.
ghost use Rattle.std.specs.Prelude.{◌≡◌, [], ◌∷◌};
ghost use Rattle.format.specs.Requests.{by_kind, changes, request_of};
ghost use Rattle.requests.specs.Kinds.{insert_kind, delete_kind, add_kind, change_kind, KindOf, request_answer, InEdit, Inside, ChangeAt, Reads, Ends};

use super::fields::{Tag, number_at, place_at, text_at};
use super::pairs::{are_pairs, pair_at};
use words::Span;

// The kinds of an edit, each a number of the request's form; three of them change a field.
#[derive(Clone, Copy)]
enum Kind {
    Insert,
    Delete,
    Add,
    Change(Means),
}

// How a field is changed: it is set to a value, dropped or renamed.
#[derive(Clone, Copy)]
enum Means {
    Set,
    Drop,
    Rename,
}

// The kind of a number.
fn kind_of(number: u8) -> Option<Kind>
    ensures { KindOf number result }
{
    match number {
        1 => Some(Kind::Insert),
        2 => Some(Kind::Delete),
        3 => Some(Kind::Add),
        4 => Some(Kind::Change(Means::Set)),
        5 => Some(Kind::Change(Means::Drop)),
        6 => Some(Kind::Change(Means::Rename)),
        _ => None,
    }
}

// What becomes of one field: a new value, nothing, a new name.
#[derive(Clone, Copy)]
pub enum Change {
    Value(Span),
    Dropped,
    Name(Span),
}

// What becomes of one record; a change is of one occurrence of a name.
#[derive(Clone, Copy)]
pub enum Act {
    Delete,
    Add {
        name: Span,
        value: Span,
    },
    Change {
        name: Span,
        occurrence: usize,
        change: Change,
    },
}

// An edit of one set: a record of the pairs from start on, or an act on the record of a number.
#[derive(Clone, Copy)]
pub enum Edit {
    Insert { start: usize },
    On { row: usize, act: Act },
}

// An edit of the set of a name.
#[derive(Clone, Copy)]
pub struct Request {
    pub set: Span,
    pub edit: Edit,
}

fn insert_at(req: &[u8], i: usize) -> Option<Edit>
    ensures { Reads insert_kind req.now i result }
{
    if req.len() <= i {
        return None;
    }
    if !are_pairs(req, i) {
        return None;
    }
    Some(Edit::Insert { start: i })
}

// An edit whose last field ends at `end`: nothing may stand behind it.
fn ending(req: &[u8], edit: Edit, end: usize) -> Option<Edit>
    requires { InEdit req.now edit }
    ensures { Ends req.now edit end result }
{
    if end < req.len() {
        return None;
    }
    Some(edit)
}

fn delete_at(req: &[u8], i: usize) -> Option<Edit>
    ensures { Reads delete_kind req.now i result }
{
    let row = number_at(req, i, Tag::Record)?;
    let edit = Edit::On {
        row: row.value,
        act: Act::Delete,
    };
    ending(req, edit, row.next)
}

fn add_at(req: &[u8], i: usize) -> Option<Edit>
    ensures { Reads add_kind req.now i result }
{
    let row = number_at(req, i, Tag::Record)?;
    let pair = pair_at(req, row.next)?;
    let act = Act::Add {
        name: pair.name,
        value: pair.value,
    };
    let edit = Edit::On {
        row: row.value,
        act,
    };
    ending(req, edit, pair.next)
}

// A change, and where its last field ends.
#[derive(Clone, Copy)]
struct Changed {
    change: Change,
    end: usize,
}

// What is behind the place of a field, by how it is changed.
fn change_of(req: &[u8], means: Means, i: usize) -> Option<Changed>
    ensures { ChangeAt means req.now i result }
{
    match means {
        Means::Set => {
            let value = text_at(req, i, Tag::Value)?;
            Some(Changed {
                change: Change::Value(value),
                end: value.end,
            })
        }
        Means::Drop => Some(Changed {
            change: Change::Dropped,
            end: i,
        }),
        Means::Rename => {
            let name = text_at(req, i, Tag::NewName)?;
            Some(Changed {
                change: Change::Name(name),
                end: name.end,
            })
        }
    }
}

// Set, drop and rename: the place of a field, and its change.
fn change_at(req: &[u8], means: Means, i: usize) -> Option<Edit>
    ensures { Reads (changes (change_kind means)) req.now i result }
{
    let place = place_at(req, i)?;
    let changed = change_of(req, means, place.next)?;
    let act = Act::Change {
        name: place.name,
        occurrence: place.occurrence,
        change: changed.change,
    };
    let edit = Edit::On {
        row: place.row,
        act,
    };
    ending(req, edit, changed.end)
}

// The fields behind the kind and the set.
fn edit_at(req: &[u8], kind: u8, i: usize) -> Option<Edit>
    ensures { Reads (by_kind (kind ∷ [])) req.now i result }
{
    match kind_of(kind)? {
        Kind::Insert => insert_at(req, i),
        Kind::Delete => delete_at(req, i),
        Kind::Add => add_at(req, i),
        Kind::Change(means) => change_at(req, means, i),
    }
}

// What a request asks for, none if it is malformed.
pub fn request_of(req: &[u8]) -> Option<Request>
    ensures { (request_answer req.now result ≡ request_of req.now) × Inside req.now result }
{
    if req.len() > format::File::BYTES {
        return None;
    }
    let kind = text_at(req, 0, Tag::Kind)?;
    let set = text_at(req, kind.end, Tag::Set)?;
    if kind.end - kind.start != 1 {
        return None;
    }
    let number = lines::byte(req, kind.start);
    let edit = edit_at(req, number, set.end)?;
    Some(Request { set, edit })
}
