// The calls count, fetch, view and the sets' names, of any buffer: the file's own questions come first.
#![tactic(auto)]

ghost use Rattle.std.specs.Prelude.{◌≡◌, take, IfOk};
ghost use Rattle.format.specs.Refusals.{no_of, refused_no};
ghost use Rattle.format.specs.Calls.{number_in, check_answer, count_answer, fetch_answer, name_answer, view_answer, answered};
ghost use Rattle.lookup.specs.Answers.{seen_answer, SeenInside};

use format::{Question, Refusal};
use words::Span;

pub mod inside;

// The text in the first `used` bytes of a buffer, if it passes the check.
fn checked(buf: &[u8], used: usize) -> Result<&[u8], Question>
    ensures number { no_of result ≡ check_answer buf.now used }
    ensures text { IfOk result (λ text. text.now ≡ take used buf.now) }
{
    integrity::check(buf, used)?;
    Ok(&buf[..used])
}

// The number of records of a set of the file at the front of a buffer.
pub fn count(buf: &[u8], used: usize, set: &[u8]) -> Result<usize, Refusal>
    ensures { answered result ≡ count_answer buf.now used set.now }
{
    inside::count_in(checked(buf, used)?, set)
}

// The value of an occurrence of a name in a record of a set, put into out; what stands behind it there stays.
pub fn fetch(
    buf: &[u8],
    used: usize,
    set: &[u8],
    row: usize,
    name: &[u8],
    occurrence: usize,
    out: &mut [u8],
) -> Result<usize, Refusal>
    ensures { fetch_answer buf.now used set.now row name.now occurrence out.old ≡ record { result = answered result; out = out.new } }
{
    inside::fetch_in(checked(buf, used)?, set, row, name, occurrence, out)
}

// Where a record of a set stands in the file: from its first field's first byte to the byte behind its last field.
pub fn view_place(buf: &[u8], used: usize, set: &[u8], row: usize) -> Result<Span, Refusal>
    ensures { (seen_answer (take used buf.now) result ≡ view_answer buf.now used set.now row) × SeenInside (take used buf.now) result }
{
    match checked(buf, used) {
        Ok(s) => inside::view_in(s, set, row),
        Err(question) => Err(Refusal::File(question)),
    }
}

// The part of the file that a record of a set stands in.
pub fn view<'a>(buf: &'a [u8], used: usize, set: &[u8], row: usize) -> Result<&'a [u8], Refusal>
    ensures number { refused_no result ≡ number_in (view_answer buf.now used set.now row).result }
    ensures part { IfOk result (λ part. part.now ≡ (view_answer buf.now used set.now row).part) }
{
    match view_place(buf, used, set, row) {
        Ok(Span { start, end }) => Ok(&buf[start..end]),
        Err(refusal) => Err(refusal),
    }
}

// The name of set k, in file order and the default set first, put into out; what stands behind it there stays. 21 says that there are not so many sets.
pub fn set_name(buf: &[u8], used: usize, k: usize, out: &mut [u8]) -> Result<usize, Refusal>
    ensures { name_answer buf.now used k out.old ≡ record { result = answered result; out = out.new } }
{
    inside::name_in(checked(buf, used)?, k, out)
}
