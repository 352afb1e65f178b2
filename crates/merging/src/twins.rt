// Records compared by their names and values, in order.
ghost use Rattle.std.specs.Prelude.{◌≡◌, true, map};
ghost use Rattle.format.specs.Bytes.{any};
ghost use Rattle.format.specs.Pieces.{read_of};
ghost use Rattle.format.proofs.Records.{records};
ghost use Rattle.records.specs.Places.{is_readable};
ghost use Rattle.records.specs.Walk.{record_in};
ghost use Rattle.merging.specs.Merging.{pair_of, is_twin};
ghost use Rattle.merging.specs.Texts.{is_nothing};

use records::FieldPlace;

// Have two parts the same fields, by name and value, in the same order?
fn are_twins(a: &[u8], b: &[u8]) -> bool
    requires { (is_readable a.now ≡ true) × (is_readable b.now ≡ true) }
    ensures { result ≡ is_twin (map pair_of (record_in a.now)) (record_in b.now) }
{
    let mut p = a;
    let mut q = b;
    loop {
        let y = records::next_field(q);
        let Some(f) = records::next_field(p) else {
            return is_last(y);
        };
        let Some(g) = y else {
            return false;
        };
        if !lines::same_bytes(&p[f.start..f.named], &q[g.start..g.named]) {
            return false;
        }
        if !values::are_equal(&p[f.value..f.end], &q[g.value..g.end]) {
            return false;
        }
        p = &p[f.end..];
        q = &q[g.end..];
    }
}

// Is there no next field?
fn is_last(y: Option<FieldPlace>) -> bool
    ensures { result ≡ is_nothing y }
{
    y.is_none()
}

// Is a record among those of a part?
pub(crate) fn is_among(own: &[u8], part: &[u8]) -> bool
    requires { (is_readable own.now ≡ true) × (is_readable part.now ≡ true) }
    ensures { result ≡ any (is_twin (map pair_of (record_in own.now))) (records (read_of part.now)) }
{
    let mut rest = part;
    loop {
        let Some(p) = records::next_record(rest) else {
            return false;
        };
        if are_twins(own, &rest[p.start..p.end]) {
            return true;
        }
        rest = &rest[p.after..];
    }
}
