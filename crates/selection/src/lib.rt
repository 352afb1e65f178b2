// The records of a set that an expression finds (document 02, order 11): the call `find`. The
// expression is read once into a program; a set's records are then walked, and which of the
// program's comparisons hold for a record is a set in one number.
#![tactic(auto)]

ghost use Rattle.std.specs.Prelude.{◌≡◌, true, ◌≤◌, length};
ghost use Rattle.format.specs.Limits.{file_bytes};
ghost use Rattle.format.specs.Pieces.{read_of};
ghost use Rattle.format.specs.Sets.{sets_of};
ghost use Rattle.format.proofs.Passing.{SetsPass};
ghost use Rattle.records.specs.Places.{is_readable};
ghost use Rattle.selection.specs.Found.{listed_by, find_answer, find_in};

use format::Refusal;

mod fields;
mod parts;
mod programs;
mod runs;
mod walks;

// The records of a set that an expression finds, in a text that passes: they are counted in one
// walk, and listed in another where the list has room for them.
fn find_in(s: &[u8], set: &[u8], expression: &[u8], list: &mut [usize]) -> Result<usize, Refusal>
    requires { (is_readable s.now ≡ true) × (length s.now ≤ file_bytes) × SetsPass (sets_of (read_of s.now)) }
    ensures { find_in s.now set.now expression.now list.old ≡ listed_by result list.new }
{
    let Some(p) = records::find_set(s, set) else {
        return Err(Refusal::Set);
    };
    let Some(program) = programs::read(expression) else {
        return Err(Refusal::Expression);
    };
    let a = p.begin;
    let e = p.after;
    let mut scratch = [0u8; 4096];
    let mut none = [0usize; 1];
    let n = walks::list_found(expression, program, &s[a..e], &mut scratch, &mut none);
    if list.len() < n {
        return Err(Refusal::Numbers);
    }
    walks::list_found(expression, program, &s[a..e], &mut scratch, &mut *list);
    Ok(n)
}

// The numbers of the records of a set that an expression finds, put into a list; entries behind
// them stay. Refused, every entry stays.
pub fn find(
    buf: &[u8],
    used: usize,
    set: &[u8],
    expression: &[u8],
    list: &mut [usize],
) -> Result<usize, Refusal>
    ensures { find_answer buf.now used set.now expression.now list.old ≡ listed_by result list.new }
{
    integrity::check(buf, used)?;
    find_in(&buf[0..used], set, expression, list)
}
