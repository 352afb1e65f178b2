// The calls for C: slices are a pointer and a length, a refusal's number goes through a pointer (0: accepted). include/recfile.h says the same in C.
#![tactic(auto)]

ghost use Rattle.std.specs.Prelude.{◌≡◌, length};
ghost use Rattle.format.specs.Requests.{tag as tag_of};
ghost use Rattle.format.specs.Calls.{answered, number_in, value_or, check_answer, count_answer, fetch_answer, view_answer, write_answer, edit_answer, name_answer, field_answer};
ghost use Rattle.format.specs.Directory.{fill_answer, kept_answer, count_at_answer};
ghost use Rattle.format.specs.Runs.{run_answer};
ghost use Rattle.drafts.specs.Drafts.{to_fill_answer};
ghost use Rattle.selection.specs.Found.{find_answer};

use format::{Entry, Refusal};
use words::Span;

mod sums;

// What C is told of an answer: its number, or another where it is refused, and the refusal's
// through a pointer, as the C interface has it.
fn tell(a: Result<usize, Refusal>, other: usize, number: &mut u32) -> usize
    ensures { (result ≡ value_or other (answered a)) × (number.new ≡ number_in (answered a)) }
{
    *number = format::number_in(a);
    a.unwrap_or(other)
}

// The number of the first question that says no of the file in the first `used` bytes of a buffer, else 0.
#[unsafe(no_mangle)]
pub extern "C" fn recfile_check(buf: &[u8], used: usize) -> u32
    ensures { result ≡ check_answer buf.now used }
{
    match integrity::check(buf, used) {
        Ok(()) => 0,
        Err(question) => question.number(),
    }
}

// The number of records of a set, 0 where it is refused.
#[unsafe(no_mangle)]
pub extern "C" fn recfile_count(buf: &[u8], used: usize, set: &[u8], number: &mut u32) -> usize
    ensures { (result ≡ value_or 0 (count_answer buf.now used set.now)) × (number.new ≡ number_in (count_answer buf.now used set.now)) }
{
    let count = lookup::count(buf, used, set);
    tell(count, 0, number)
}

// The length of the value that was put into out, 0 where it is refused.
#[unsafe(no_mangle)]
pub extern "C" fn recfile_fetch(
    buf: &[u8],
    used: usize,
    set: &[u8],
    row: usize,
    name: &[u8],
    occurrence: usize,
    out: &mut [u8],
    number: &mut u32,
) -> usize
    ensures { (result ≡ value_or 0 (fetch_answer buf.now used set.now row name.now occurrence out.old).result)
        × (number.new ≡ number_in (fetch_answer buf.now used set.now row name.now occurrence out.old).result)
        × (out.new ≡ (fetch_answer buf.now used set.now row name.now occurrence out.old).out) }
{
    let fetched = lookup::fetch(buf, used, set, row, name, occurrence, &mut *out);
    tell(fetched, 0, number)
}

// The length of the name of a set, by its place in the file, that was put into out, 0 where it is refused.
#[unsafe(no_mangle)]
pub extern "C" fn recfile_set_name(
    buf: &[u8],
    used: usize,
    set: usize,
    out: &mut [u8],
    number: &mut u32,
) -> usize
    ensures { (result ≡ value_or 0 (name_answer buf.now used set out.old).result)
        × (number.new ≡ number_in (name_answer buf.now used set out.old).result)
        × (out.new ≡ (name_answer buf.now used set out.old).out) }
{
    let named = lookup::set_name(buf, used, set, &mut *out);
    tell(named, 0, number)
}

// The length of the part of the file that a record stands in, and where that begins; both 0 where it is refused.
#[unsafe(no_mangle)]
pub extern "C" fn recfile_view(
    buf: &[u8],
    used: usize,
    set: &[u8],
    row: usize,
    start: &mut usize,
    number: &mut u32,
) -> usize
    ensures { (result ≡ length (view_answer buf.now used set.now row).part)
        × (start.new ≡ value_or 0 (view_answer buf.now used set.now row).result)
        × (number.new ≡ number_in (view_answer buf.now used set.now row).result) }
{
    match lookup::view_place(buf, used, set, row) {
        Ok(Span { start: a, end }) => {
            *start = a;
            tell(Ok(end - a), 0, number)
        }
        Err(refusal) => {
            *start = 0;
            tell(Err(refusal), 0, number)
        }
    }
}

// The number of records of a set that an expression finds, 0 where it is refused; their numbers go into the front of a list.
#[unsafe(no_mangle)]
pub extern "C" fn recfile_find(
    buf: &[u8],
    used: usize,
    set: &[u8],
    expression: &[u8],
    records: &mut [usize],
    number: &mut u32,
) -> usize
    ensures { (result ≡ value_or 0 (find_answer buf.now used set.now expression.now records.old).result)
        × (number.new ≡ number_in (find_answer buf.now used set.now expression.now records.old).result)
        × (records.new ≡ (find_answer buf.now used set.now expression.now records.old).list) }
{
    let found = selection::find(buf, used, set, expression, &mut *records);
    tell(found, 0, number)
}

// The length of the text of an insert's record that was put into out, 0 where it is refused.
#[unsafe(no_mangle)]
pub extern "C" fn recfile_write(request: &[u8], out: &mut [u8], number: &mut u32) -> usize
    ensures { (result ≡ value_or 0 (write_answer request.now out.old).result)
        × (number.new ≡ number_in (write_answer request.now out.old).result)
        × (out.new ≡ (write_answer request.now out.old).out) }
{
    let written = requests::write_record(request, &mut *out);
    tell(written, 0, number)
}

// How many names of a draft are still to fill, 0 where it is refused.
#[unsafe(no_mangle)]
pub extern "C" fn recfile_to_fill(
    buf: &[u8],
    used: usize,
    request: &[u8],
    number: &mut u32,
) -> usize
    ensures { (result ≡ value_or 0 (to_fill_answer buf.now used request.now))
        × (number.new ≡ number_in (to_fill_answer buf.now used request.now)) }
{
    let missing = drafts::to_fill(buf, used, request);
    tell(missing, 0, number)
}

// One edit: the file's length after it, which is `used` where it is refused.
#[unsafe(no_mangle)]
pub extern "C" fn recfile_edit(
    buf: &mut [u8],
    used: usize,
    request: &[u8],
    number: &mut u32,
) -> usize
    ensures { (result ≡ value_or used (edit_answer buf.old used request.now).result)
        × (number.new ≡ number_in (edit_answer buf.old used request.now).result)
        × (buf.new ≡ (edit_answer buf.old used request.now).out) }
{
    let edited = editor::edit(&mut *buf, used, request);
    tell(edited, used, number)
}

// A run of requests, each an edit of what the one before left: the file's length after the last. A number for each goes into the front of answers; `*number` says whether the run was refused.
#[unsafe(no_mangle)]
pub extern "C" fn recfile_edit_run(
    buf: &mut [u8],
    used: usize,
    run: &[u8],
    answers: &mut [u32],
    number: &mut u32,
) -> usize
    ensures { (result ≡ value_or used (run_answer buf.old used run.now answers.old).result)
        × (number.new ≡ number_in (run_answer buf.old used run.now answers.old).result)
        × (buf.new ≡ (run_answer buf.old used run.now answers.old).out)
        × (answers.new ≡ (run_answer buf.old used run.now answers.old).answers) }
{
    let sent = editor::edit_run(buf, used, run, answers);
    tell(sent, used, number)
}

// The number of sets, of which a list of entries is filled with the directory, 0 where it is refused.
#[unsafe(no_mangle)]
pub extern "C" fn recfile_fill(
    buf: &[u8],
    used: usize,
    entries: &mut [Entry],
    number: &mut u32,
) -> usize
    ensures { (result ≡ value_or 0 (fill_answer buf.now used entries.old).result)
        × (number.new ≡ number_in (fill_answer buf.now used entries.old).result)
        × (entries.new ≡ (fill_answer buf.now used entries.old).entries) }
{
    let filled = directory::fill(buf, used, entries);
    tell(filled, 0, number)
}

// One edit that keeps a directory: the file's length after it, which is `used` where it is refused.
#[unsafe(no_mangle)]
pub extern "C" fn recfile_edit_listed(
    buf: &mut [u8],
    used: usize,
    request: &[u8],
    entries: &mut [Entry],
    number: &mut u32,
) -> usize
    ensures { (result ≡ value_or used (kept_answer buf.old used request.now entries.old).result)
        × (number.new ≡ number_in (kept_answer buf.old used request.now entries.old).result)
        × (buf.new ≡ (kept_answer buf.old used request.now entries.old).out)
        × (entries.new ≡ (kept_answer buf.old used request.now entries.old).entries) }
{
    let edited = directory::edit(buf, used, request, entries);
    tell(edited, used, number)
}

// The number of records of the set at a position of a directory, 0 past its end.
#[unsafe(no_mangle)]
pub extern "C" fn recfile_count_at(entries: &[Entry], position: usize, number: &mut u32) -> usize
    ensures { (result ≡ value_or 0 (count_at_answer entries.now position))
        × (number.new ≡ number_in (count_at_answer entries.now position)) }
{
    let count = directory::count_at(entries, position);
    tell(count, 0, number)
}

// One tagged field at a place of a request under construction: the byte behind it. Without room nothing is written, and it is one more than the request's length.
#[unsafe(no_mangle)]
pub extern "C" fn recfile_request_field(
    request: &mut [u8],
    at: usize,
    tag: u8,
    contents: &[u8],
) -> usize
    ensures { record { next = result; out = request.new } ≡ field_answer request.old at (tag_of tag contents.now) }
{
    requests::put_field(request, at, tag, contents)
}
