// An act on a record: where it acts in the text, and what it does there.
ghost use Rattle.std.specs.Prelude.{◌≡◌, true, ◌≤◌, length, drop};
ghost use Rattle.format.specs.Limits.{file_bytes};
ghost use Rattle.format.specs.Edits.{Edit};
ghost use Rattle.records.specs.Places.{is_readable};
ghost use Rattle.records.specs.Walk.{record_in};
ghost use Rattle.requests.specs.Fields.{InSpan};
ghost use Rattle.requests.specs.Kinds.{act_of, InAct, InChange};
ghost use Rattle.edits.specs.Places.{change_at, LocatesIn};

use super::{Located, Splice};
use format::Refusal;
use records::{FieldPlace, Head};
use requests::{Act, Change};
use words::Span;

// How many fields a part has.
fn count_fields(s: &[u8]) -> usize
    requires { is_readable s.now ≡ true }
    ensures { result ≡ length (record_in s.now) }
{
    let mut i = 0;
    let mut n = 0;
    loop {
        let Some(FieldPlace { end, .. }) = records::next_field(&s[i..]) else {
            return n;
        };
        n += 1;
        i += end;
    }
}

// The change of a field of that name, which stands at a place of the text, in the record that fills `own`.
fn locate_change(own: &[u8], req: &[u8], name: Span, field: Span, change: Change) -> Located
    requires own_value { (is_readable own.now ≡ true) × (field.start ≤ field.end) }
    requires in_span { InSpan req.now name × InChange req.now change }
    ensures { result ≡ change_at own.now req.now name field change }
{
    let at = field.start;
    let old = field.end - field.start;
    match change {
        Change::Value(value) => {
            let a = value.start;
            let b = value.end;
            if !writing::is_legal_value(&req[a..b]) {
                return Located::Refused(Refusal::Illegal);
            }
            Located::At(Splice::Field {
                at,
                old,
                name,
                value,
            })
        }
        Change::Dropped => {
            if count_fields(own) < 2 {
                return Located::Refused(Refusal::Emptied);
            }
            Located::At(Splice::Cut { at, old })
        }
        Change::Name(new) => {
            let a = new.start;
            let b = new.end;
            if !writing::is_legal_name(&req[a..b]) {
                return Located::Refused(Refusal::Illegal);
            }
            Located::At(Splice::Name {
                at,
                old: name.end - name.start,
                name: new,
            })
        }
    }
}

// An act on record `row` of the set of a head.
pub(crate) fn locate_act(s: &[u8], req: &[u8], head: Head, row: usize, act: Act) -> Located
    requires s_value { (is_readable s.now ≡ true) × (head.begin ≤ length s.now)
        × (is_readable (drop head.begin s.now) ≡ true) }
    requires req_len_bound { (length req.now ≤ file_bytes) × InAct req.now act }
    ensures { LocatesIn s.now req.now head (Edit.on row (act_of req.now act)) result }
{
    let begin = head.begin;
    let Some(p) = records::find_record(&s[begin..], row) else {
        return Located::Refused(Refusal::Record);
    };
    let first = begin + p.start;
    let last = begin + p.end;
    match act {
        Act::Delete => Located::At(Splice::Unfield {
            start: first,
            end: last,
        }),
        Act::Add { name, value } => {
            if !requests::is_legal_pair(req, name, value) {
                return Located::Refused(Refusal::Illegal);
            }
            Located::At(Splice::Field {
                at: last,
                old: 0,
                name,
                value,
            })
        }
        Act::Change {
            name,
            occurrence,
            change,
        } => {
            let a = name.start;
            let b = name.end;
            let own = &s[first..last];
            let Some(v) = records::find_field(own, &req[a..b], occurrence) else {
                return Located::Refused(Refusal::Field);
            };
            let field = Span {
                start: first + v.start,
                end: first + v.end,
            };
            locate_change(own, req, name, field, change)
        }
    }
}
