// The covered core of the directory: the entries of a file one after another, and an edit with what is to be put into a list after it.
ghost use Rattle.std.specs.Prelude.{◌≡◌, ◌<◌, true, length};
ghost use Rattle.format.specs.Pieces.{read_of};
ghost use Rattle.format.specs.Calls.{answered};
ghost use Rattle.records.specs.Places.{is_readable};
ghost use Rattle.directory.specs.Blocks.{block_from, next_entry, list_in, entry_in, start_in};
ghost use Rattle.directory.specs.Rows.{InDirectory, start_of, entry_of, counted_in, Does};

use editor::Text;
use format::{Entry, File, Refusal};
use lines::Next;

// What an edit comes to: its answer, the file's length after it, and how many entries are to be written.
#[derive(Drop)]
pub struct Done {
    pub answer: Result<usize, Refusal>,
    pub used: usize,
    pub sets: usize,
}

// Where the block begins in which the first field of a part stands: behind the last blank line before it.
fn block_start(s: &[u8]) -> usize
    requires { is_readable s.now ≡ true }
    ensures { result ≡ block_from 0 0 (read_of s.now) }
{
    let mut start = 0;
    let mut i = 0;
    loop {
        match lines::read_piece(&s[i..]) {
            Next::Blank { size } => {
                i += size;
                start = i;
            }
            Next::Comment { size } => {
                i += size;
            }
            Next::Field { .. } => return start,
            Next::End => return start,
            Next::Fault => return start,
        }
    }
}

// The next set of a part that has a descriptor there, as an entry with places in the part.
fn next_entry(s: &[u8]) -> Entry
    requires { is_readable s.now ≡ true }
    ensures { result ≡ next_entry s.now }
{
    let Some(q) = records::next_set(s) else {
        return Entry {
            place: 0,
            count: 0,
            end: 0,
        };
    };
    Entry {
        place: block_start(s),
        count: q.count,
        end: q.after,
    }
}

// Entry k of a text, which is looked for behind the one before it.
fn entry_in(s: &[u8], k: usize, at: usize) -> Entry
    requires { (is_readable s.now ≡ true) × (k < length (list_in s.now)) × (at ≡ start_in s.now k) }
    ensures { result ≡ entry_in s.now k }
{
    if k == 0 {
        let m = records::next_members(s);
        return Entry {
            place: 0,
            count: m.count,
            end: m.end,
        };
    }
    let e = next_entry(&s[at..]);
    Entry {
        place: at + e.place,
        count: e.count,
        end: at + e.end,
    }
}

// The same of the file in the first `used` bytes of a buffer.
pub fn entry_at(buf: &[u8], used: usize, k: usize, at: usize) -> Entry
    requires { InDirectory buf.now used k × (at ≡ start_of buf.now used k) }
    ensures { result ≡ entry_of buf.now used k }
{
    entry_in(&buf[..used], k, at)
}

// How many sets a text has, the default set among them.
fn count_sets(s: &[u8]) -> usize
    requires { is_readable s.now ≡ true }
    ensures { result ≡ length (list_in s.now) }
{
    let m = records::next_members(s);
    let mut i = m.end;
    let mut n = 1;
    loop {
        let Some(q) = records::next_set(&s[i..]) else {
            return n;
        };
        n += 1;
        i += q.after;
    }
}

// The number of sets of a file, for a list of `room` entries.
pub fn set_count(buf: &[u8], used: usize, room: usize) -> Result<usize, Refusal>
    ensures { answered result ≡ counted_in buf.now used room }
{
    integrity::check(buf, used)?;
    let n = count_sets(&buf[..used]);
    if room < n {
        return Err(Refusal::List);
    }
    Ok(n)
}

// One request, for a list of `room` entries. A file that fails, or has more sets than that, is not touched, and no entry is to be written.
pub fn edit_core(buf: &mut [u8], used: usize, req: &[u8], room: usize) -> Done
    ensures { Does buf.old used req.now room buf.new result }
{
    let mut copy = [0u8; File::BYTES];
    if let Err(q) = integrity::check_with(buf, used, &mut copy) {
        return Done {
            answer: Err(Refusal::File(q)),
            used,
            sets: 0,
        };
    }
    let n = count_sets(&buf[..used]);
    if room < n {
        return Done {
            answer: Err(Refusal::List),
            used,
            sets: 0,
        };
    }
    let mut added = [0u8; Text::ROOM];
    let p = editor::plan(buf, used, req, &mut copy, &mut added);
    let answer = editor::settle(p, buf, used, req, &added, &mut copy);
    Done {
        answer,
        used: answer.unwrap_or(used),
        sets: n,
    }
}
