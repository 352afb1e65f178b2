// Tagged fields, read from a slice: their contents, the number of two bytes, and the place of a changed field.
ghost use Rattle.std.specs.Prelude.{◌≡◌};
ghost use Rattle.requests.specs.Fields.{tag_no, FieldAt, TextAt, NumberAt, PlaceAt};

use words::Span;

// What a field is: its tag is a number of the request's form.
#[derive(Clone, Copy)]
pub(crate) enum Tag {
    Kind,
    Set,
    Record,
    Name,
    Occurrence,
    Value,
    NewName,
}

impl Tag {
    fn number(self) -> u8
        ensures { result ≡ tag_no self }
    {
        match self {
            Tag::Kind => 1,
            Tag::Set => 2,
            Tag::Record => 3,
            Tag::Name => 4,
            Tag::Occurrence => 5,
            Tag::Value => 6,
            Tag::NewName => 7,
        }
    }
}

// The tagged field at a place: its contents stand from start to end. End is the slice's end; Fault, that the head is cut off or the length runs past the end.
#[derive(Drop)]
pub(crate) enum Tagged {
    At { tag: u8, start: usize, end: usize },
    End,
    Fault,
}

pub(crate) fn field_at(req: &[u8], i: usize) -> Tagged
    ensures { FieldAt req.now i result }
{
    if req.len() <= i {
        return Tagged::End;
    }
    if req.len() - i < 3 {
        return Tagged::Fault;
    }
    let high = req[i + 1] as usize;
    let low = req[i + 2] as usize;
    let start = i + 3;
    let len = high * 256 + low;
    if req.len() - start < len {
        return Tagged::Fault;
    }
    Tagged::At {
        tag: req[i],
        start,
        end: start + len,
    }
}

// The contents of the field of a tag.
pub(crate) fn text_at(req: &[u8], i: usize, tag: Tag) -> Option<Span>
    ensures { TextAt req.now i (tag_no tag) result }
{
    let Tagged::At { tag: t, start, end } = field_at(req, i) else {
        return None;
    };
    if t != tag.number() {
        return None;
    }
    Some(Span { start, end })
}

// The number of two bytes that the field of a tag holds.
#[derive(Clone, Copy)]
pub(crate) struct Number {
    pub(crate) value: usize,
    pub(crate) next: usize,
}

pub(crate) fn number_at(req: &[u8], i: usize, tag: Tag) -> Option<Number>
    ensures { NumberAt req.now i (tag_no tag) result }
{
    let p = text_at(req, i, tag)?;
    if p.end - p.start != 2 {
        return None;
    }
    let high = lines::byte(req, p.start) as usize;
    let low = lines::byte(req, p.start + 1) as usize;
    Some(Number {
        value: high * 256 + low,
        next: p.end,
    })
}

// The record, the name and the occurrence of a changed field.
#[derive(Clone, Copy)]
pub(crate) struct Place {
    pub(crate) row: usize,
    pub(crate) name: Span,
    pub(crate) occurrence: usize,
    pub(crate) next: usize,
}

pub(crate) fn place_at(req: &[u8], i: usize) -> Option<Place>
    ensures { PlaceAt req.now i result }
{
    let row = number_at(req, i, Tag::Record)?;
    let name = text_at(req, row.next, Tag::Name)?;
    let occurrence = number_at(req, name.end, Tag::Occurrence)?;
    Some(Place {
        row: row.value,
        name,
        occurrence: occurrence.value,
        next: occurrence.next,
    })
}
