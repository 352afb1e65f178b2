// The records of a part that a program finds, in one walk over their bytes.
ghost use Rattle.std.specs.Prelude.{◌≡◌, true, ◌≤◌, ltb, map, length, take, set};
ghost use Rattle.format.specs.Bytes.{pick, all};
ghost use Rattle.format.specs.Limits.{file_bytes};
ghost use Rattle.format.specs.Pieces.{read_of};
ghost use Rattle.format.specs.Calls.{over};
ghost use Rattle.format.proofs.Records.{records};
ghost use Rattle.records.specs.Places.{is_readable};
ghost use Rattle.records.specs.Walk.{record_in};
ghost use Rattle.rules.specs.Members.{fits_in};
ghost use Rattle.selection.specs.Expressions.{Expression};
ghost use Rattle.selection.specs.Meaning.{holds};
ghost use Rattle.selection.specs.Found.{numbers_from};
ghost use Rattle.selection.specs.Programs.{code_no, IsProgram, run_answer};
ghost use Rattle.selection.specs.Rows.{tests_in, codes_in, Filled};
ghost use Rattle.selection.specs.Walks.{closed_number, closed_found, closed_list};

use super::programs::Program;
use super::runs::Code;
use super::{fields, runs};
use lines::Next;

// How many records were met, and how many of them found.
#[derive(Drop)]
struct Tally {
    met: usize,
    found: usize,
}

// A number put into a list, where that has room.
fn put(list: &mut [usize], at: usize, number: usize)
    ensures { list.new ≡ pick (ltb at (length list.old)) (set list.old at number) list.old }
{
    if at < list.len() {
        list[at] = number;
    }
}

// One record more, which has so many fields and these comparisons hold for it; without fields it
// is none. Its number goes into the list where that has room.
fn closed(
    codes: &[Code],
    size: usize,
    fields: usize,
    set: u64,
    t: Tally,
    list: &mut [usize],
) -> Tally
    requires { (size ≤ length codes.now) × (t.met ≤ file_bytes) × (t.found ≤ file_bytes) }
    ensures { (result.met ≡ closed_number fields t.met) × (result.found ≡ closed_found fields (run_answer (map code_no (take size codes.now)) set) t.found) × (list.new ≡ closed_list fields (run_answer (map code_no (take size codes.now)) set) t.met t.found list.old) }
{
    if fields == 0 {
        return t;
    }
    let met = t.met;
    let found = t.found;
    if runs::run(&codes[..size], set) {
        put(&mut *list, found, met);
        return Tally {
            met: met + 1,
            found: found + 1,
        };
    }
    Tally {
        met: met + 1,
        found,
    }
}

// How many records of a part the program p of the expression e finds; their numbers go into the
// list as far as that has room, and what stands behind them there stays.
pub(crate) fn list_found(
    e: &[u8],
    p: Program,
    s: &[u8],
    scratch: &mut [u8],
    list: &mut [usize],
) -> usize
    requires { Filled p × (is_readable s.now ≡ true) × (length s.now ≤ file_bytes) × (all (fits_in (length scratch.old)) (record_in s.now) ≡ true) }
    ensures { (x : Expression) → IsProgram x (tests_in e.now p) (codes_in p) → (result ≡ length (numbers_from (holds x) 0 (records (read_of s.now)))) × (list.new ≡ over (take (length list.old) (numbers_from (holds x) 0 (records (read_of s.now)))) list.old) }
{
    let codes = p.codes;
    let size = p.size;
    let mut set = 0;
    let mut fields = 0;
    let mut t = Tally { met: 0, found: 0 };
    let mut i = 0;
    loop {
        match lines::read_piece(&s[i..]) {
            Next::Comment { size: bytes } => {
                i += bytes;
            }
            Next::Blank { size: bytes } => {
                t = closed(&codes, size, fields, set, t, &mut *list);
                set = 0;
                fields = 0;
                i += bytes;
            }
            Next::Field {
                name,
                value,
                size: bytes,
            } => {
                let n = i + name;
                let v = i + value;
                let end = i + bytes;
                set = fields::with_field(e, p, set, &s[i..n], &s[v..end], &mut *scratch);
                fields += 1;
                i = end;
            }
            Next::End => {
                let r = closed(&codes, size, fields, set, t, &mut *list);
                return r.found;
            }
            Next::Fault => {
                return t.found;
            }
        }
    }
}
