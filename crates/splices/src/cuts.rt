// The fields of a record cut out of a text.
ghost use Rattle.std.specs.Prelude.{◌≡◌, true, ◌-◌, ◌≤◌, length, take};
ghost use Rattle.format.specs.Calls.{placed};
ghost use Rattle.words.specs.Spans.{span};
ghost use Rattle.records.specs.Places.{is_readable};
ghost use Rattle.records.proofs.Unfielding.{left_of};
ghost use Rattle.splices.specs.Space.{spliced};

use super::cut_text;
use records::FieldPlace;

// What stays of a part, its comments and blank lines, moves to its front: how many bytes that are.
fn keep_loose(part: &mut [u8]) -> usize
    requires { is_readable part.old ≡ true }
    ensures { (result ≤ length part.old) × (take result part.new ≡ left_of part.old) }
{
    let mut n = 0;
    let mut i = 0;
    loop {
        let f = records::next_field(&part[i..]);
        let Some(FieldPlace { start, end, .. }) = f else {
            let last = part.len() - i;
            writing::move_down(part, i, n, last);
            return n + last;
        };
        writing::move_down(part, i, n, start);
        n += start;
        i += end;
    }
}

// The fields of a part from start to end go, and what else stands there stays.
pub fn cut_fields(buf: &mut [u8], used: usize, start: usize, end: usize) -> usize
    requires start_le_end { (start ≤ end) × (end ≤ used) × (used ≤ length buf.old) }
    requires buf_value { is_readable (span start end (take used buf.old)) ≡ true }
    ensures { (result ≡ length (spliced (take used buf.old) start (end - start) (left_of (span start end (take used buf.old)))))
        × (buf.new ≡ placed (spliced (take used buf.old) start (end - start) (left_of (span start end (take used buf.old)))) used buf.old) }
{
    let at = start + keep_loose(&mut buf[start..end]);
    cut_text(buf, used, at, end - at)
}
