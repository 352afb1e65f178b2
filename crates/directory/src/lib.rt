// The directory of sets: a lent list of entries, one a set, that is filled from a file, kept right by an edit, and read at a position without the file.
#![tactic(auto)]

ghost use Rattle.std.specs.Prelude.{◌≡◌, length};
ghost use Rattle.format.specs.Calls.{answered};
ghost use Rattle.format.specs.Directory.{fill_answer, kept_answer, count_at_answer};
ghost use Rattle.directory.specs.Rows.{Fillable, filled};

use format::{Entry, Refusal};

mod inner;

// The first n entries are written; the others stay.
fn fill_entries(entries: &mut [Entry], n: usize, buf: &[u8], used: usize)
    requires { Fillable buf.now used n (length entries.old) }
    ensures { entries.new ≡ filled buf.now used entries.old n }
{
    let mut at = 0;
    for k in 0..n {
        let e = inner::entry_at(buf, used, k, at);
        at = e.end;
        entries[k] = e;
    }
}

// The list filled from the file in the first `used` bytes of a buffer: the number of sets. A refusal writes no entry.
pub fn fill(buf: &[u8], used: usize, entries: &mut [Entry]) -> Result<usize, Refusal>
    ensures { record { result = answered result; entries = entries.new } ≡ fill_answer buf.now used entries.old }
{
    let a = inner::set_count(buf, used, entries.len());
    let n = a.unwrap_or(0);
    fill_entries(entries, n, buf, used);
    a
}

// One edit, given the list: it has afterwards what filling it from the file as it then stands would write.
pub fn edit(
    buf: &mut [u8],
    used: usize,
    req: &[u8],
    entries: &mut [Entry],
) -> Result<usize, Refusal>
    ensures { record { result = answered result; out = buf.new; entries = entries.new } ≡ kept_answer buf.old used req.now entries.old }
{
    let d = inner::edit_core(buf, used, req, entries.len());
    let n = d.sets;
    fill_entries(entries, n, buf, d.used);
    d.answer
}

// The number of records of the set at a position of the list.
pub fn count_at(entries: &[Entry], position: usize) -> Result<usize, Refusal>
    ensures { answered result ≡ count_at_answer entries.now position }
{
    if position < entries.len() {
        Ok(entries[position].count)
    } else {
        Err(Refusal::Set)
    }
}
