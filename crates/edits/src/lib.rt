// Where an edit acts in a text, whether what it makes fits, and the edit carried out.
#![tactic(auto)]

ghost use Rattle.std.specs.Prelude.{◌≡◌, ◌≤◌, length, take};
ghost use Rattle.format.specs.Calls.{placed};
ghost use Rattle.edits.specs.Splices.{made_by, Sound};

use format::Refusal;
use splices::NewRecord;
use words::Span;

mod acts;
mod inserts;
mod places;
mod room;

pub use inserts::Text;
pub use places::locate;
pub use room::fits;

// What an edit does to a text: bytes at a place become others. Spans are the request's.
#[derive(Clone, Copy)]
pub enum Splice {
    // A record is put in where its set ends. The text of its first fields, which the request omits, is the first `own` bytes of the added text.
    Record {
        new: NewRecord,
        own: usize,
    },
    // A field's text takes the place of old bytes.
    Field {
        at: usize,
        old: usize,
        name: Span,
        value: Span,
    },
    // A name takes the place of old bytes.
    Name {
        at: usize,
        old: usize,
        name: Span,
    },
    // Old bytes go.
    Cut {
        at: usize,
        old: usize,
    },
    // The fields from start to end go.
    Unfield {
        start: usize,
        end: usize,
    },
}

// What a request does, or the first of questions 21 to 25 and 31 that says no. Over: what it makes is not made, since it has more bytes than a file may have or a name that is longer than a field's
// may be; it has so many bytes, or more than a file may have.
#[derive(Drop)]
pub enum Located {
    At(Splice),
    Refused(Refusal),
    Over(usize),
}

// The splice carried out on the text of `used` bytes at the front of buf, with the text that was added to the request: the new text's length.
pub fn carry_out(x: Splice, buf: &mut [u8], used: usize, req: &[u8], added: &[u8]) -> usize
    requires used_in_bounds { (used ≤ length buf.old) × Sound (take used buf.old) req.now added.now x }
    requires x_in_bounds { length (made_by (take used buf.old) req.now added.now x) ≤ length buf.old }
    ensures { (result ≡ length (made_by (take used buf.old) req.now added.now x))
        × (buf.new ≡ placed (made_by (take used buf.old) req.now added.now x) used buf.old) }
{
    match x {
        Splice::Record { new, own } => { splices::put_record(buf, used, new, &added[..own], req) }
        Splice::Field {
            at,
            old,
            name,
            value,
        } => {
            let a = name.start;
            let b = name.end;
            let c = value.start;
            let d = value.end;
            splices::put_text(buf, used, at, old, &req[a..b], &req[c..d])
        }
        Splice::Name { at, old, name } => {
            let a = name.start;
            let b = name.end;
            splices::splice(buf, used, at, old, &req[a..b])
        }
        Splice::Cut { at, old } => splices::cut_text(buf, used, at, old),
        Splice::Unfield { start, end } => { splices::cut_fields(buf, used, start, end) }
    }
}
