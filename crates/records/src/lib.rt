// Records: the next one of a part of the file, its next field, and the search for a set, a record and an occurrence.
#![tactic(auto)]

ghost use Rattle.std.specs.Prelude.{◌≡◌, true, ◌≤◌, length, drop};
ghost use Rattle.format.specs.Pieces.{read_of};
ghost use Rattle.format.specs.Bytes.{text, same};
ghost use Rattle.records.specs.Places.{is_readable, places_of, first_place, head_place, record_place, field_place};
ghost use Rattle.records.specs.Sets.{leading, first_set, set_behind, set_place};
ghost use Rattle.records.specs.Walk.{run_from, opens_set};
ghost use Rattle.records.specs.Fields.{FieldNext};
ghost use Rattle.records.specs.Named.{NamedNext};

use format::Classes;
use lines::Next;

// Is a part empty or ended by a newline, and has every line of it a form?
pub fn is_readable(s: &[u8]) -> bool
    ensures { result ≡ is_readable s.now }
{
    let table = Classes::new();
    let len = s.len();
    if len == 0 {
        return true;
    }
    if s[len - 1] != b'\n' {
        return false;
    }
    let mut i = 0;
    loop {
        match lines::next_piece(&table, &s[i..]) {
            Next::Blank { size } => {
                i += size;
            }
            Next::Comment { size } => {
                i += size;
            }
            Next::Field { size, .. } => {
                i += size;
            }
            Next::End => {
                return true;
            }
            Next::Fault => {
                return false;
            }
        }
    }
}

// Where a field stands in a part: its first byte, the byte behind its name, its value's first byte, the byte behind it.
#[derive(Clone, Copy)]
pub struct FieldPlace {
    pub start: usize,
    pub named: usize,
    pub value: usize,
    pub end: usize,
}

// The first field of a part.
pub fn next_field(s: &[u8]) -> Option<FieldPlace>
    requires { is_readable s.now ≡ true }
    ensures { FieldNext s.now 0 result }
{
    let mut i = 0;
    loop {
        match lines::read_piece(&s[i..]) {
            Next::Blank { size } => {
                i += size;
            }
            Next::Comment { size } => {
                i += size;
            }
            Next::Field { name, value, size } => {
                return Some(FieldPlace {
                    start: i,
                    named: i + name,
                    value: i + value,
                    end: i + size,
                });
            }
            Next::End => {
                return None;
            }
            Next::Fault => {
                return None;
            }
        }
    }
}

// Where a record stands in a part: its first field's first byte, the byte behind its last field, the byte behind its block.
#[derive(Drop)]
pub struct Place {
    pub start: usize,
    pub end: usize,
    pub after: usize,
    pub descriptor: bool,
}

// How far a record goes: the byte behind its last field, the byte behind its block, and whether it has a `%rec`.
#[derive(Drop)]
struct Run {
    end: usize,
    after: usize,
    descriptor: bool,
}

// Is a name `%rec`?
pub fn is_rec(name: &[u8]) -> bool
    ensures { result ≡ same (text "%rec") name.now }
{
    lines::same_bytes(b"%rec", name)
}

// A record that goes on where a part begins, behind one of its fields; described: whether a `%rec` was met before.
fn record_run(s: &[u8], described: bool) -> Run
    requires { is_readable s.now ≡ true }
    ensures { result ≡ run_from 0 0 described (read_of s.now) }
{
    let mut end = 0;
    let mut i = 0;
    let mut descriptor = described;
    loop {
        match lines::read_piece(&s[i..]) {
            Next::Comment { size } => {
                i += size;
            }
            Next::Field { name, size, .. } => {
                let e = i + name;
                let here = is_rec(&s[i..e]);
                descriptor = descriptor | here;
                i += size;
                end = i;
            }
            Next::Blank { .. } => {
                return Run {
                    end,
                    after: i,
                    descriptor,
                };
            }
            Next::End => {
                return Run {
                    end,
                    after: i,
                    descriptor,
                };
            }
            Next::Fault => {
                return Run {
                    end,
                    after: i,
                    descriptor,
                };
            }
        }
    }
}

// The next record of a part: its first field, and its run behind that.
pub fn next_record(s: &[u8]) -> Option<Place>
    requires { is_readable s.now ≡ true }
    ensures { result ≡ first_place (places_of s.now) }
{
    let f = next_field(s)?;
    let here = is_rec(&s[f.start..f.named]);
    let r = record_run(&s[f.end..], here);
    Some(Place {
        start: f.start,
        end: f.end + r.end,
        after: f.end + r.after,
        descriptor: r.descriptor,
    })
}

// The records of a part before any descriptor: how many there are, and the byte behind the last one's block, 0 where there is none.
#[derive(Drop)]
pub struct MemberRun {
    pub count: usize,
    pub end: usize,
}

pub fn next_members(s: &[u8]) -> MemberRun
    requires { is_readable s.now ≡ true }
    ensures { result ≡ leading (places_of s.now) }
{
    let mut end = 0;
    let mut count = 0;
    loop {
        let Some(p) = next_record(&s[end..]) else {
            return MemberRun { count, end };
        };
        if p.descriptor {
            return MemberRun { count, end };
        }
        count += 1;
        end += p.after;
    }
}

// Where a set stands in a part: its descriptor's first field's first byte and the byte behind its last field; the byte where its records begin, behind the descriptor's block,
// and the byte behind the last one's block; and how many records there are.
#[derive(Clone, Copy)]
pub struct RecordSet {
    pub start: usize,
    pub end: usize,
    pub begin: usize,
    pub after: usize,
    pub count: usize,
}

// The next set of a part that has a descriptor there.
pub fn next_set(s: &[u8]) -> Option<RecordSet>
    requires { is_readable s.now ≡ true }
    ensures { result ≡ first_set (places_of s.now) }
{
    let mut i = 0;
    loop {
        let p = next_record(&s[i..])?;
        let begin = i + p.after;
        if p.descriptor {
            let m = next_members(&s[begin..]);
            return Some(RecordSet {
                start: i + p.start,
                end: i + p.end,
                begin,
                after: begin + m.end,
                count: m.count,
            });
        }
        i = begin;
    }
}

// Where record k of those before any descriptor stands.
pub fn find_record(s: &[u8], k: usize) -> Option<Place>
    requires { is_readable s.now ≡ true }
    ensures { result ≡ record_place (places_of s.now) k }
{
    let mut i = 0;
    let mut left = k;
    loop {
        let p = next_record(&s[i..])?;
        if p.descriptor {
            return None;
        }
        if left == 0 {
            return Some(Place {
                start: i + p.start,
                end: i + p.end,
                after: i + p.after,
                descriptor: false,
            });
        }
        left -= 1;
        i += p.after;
    }
}

// Where a field stands in a part: its first byte, its value's first byte, the byte behind it.
#[derive(Clone, Copy)]
pub struct ValuePlace {
    pub start: usize,
    pub value: usize,
    pub end: usize,
}

// The first field of a name in a part. Inlined, since a call for each key is one in fifteen of the
// instructions of a check of nothing but keys.
#[inline(always)]
pub fn next_named(s: &[u8], name: &[u8]) -> Option<ValuePlace>
    requires { is_readable s.now ≡ true }
    ensures { NamedNext s.now name.now 0 result }
{
    let mut i = 0;
    loop {
        let f = next_field(&s[i..])?;
        if lines::same_bytes(name, &s[i + f.start..i + f.named]) {
            return Some(ValuePlace {
                start: i + f.start,
                value: i + f.value,
                end: i + f.end,
            });
        }
        i += f.end;
    }
}

// The occurrence o of a name among the fields of a part.
pub fn find_field(s: &[u8], name: &[u8], o: usize) -> Option<ValuePlace>
    requires { is_readable s.now ≡ true }
    ensures { result ≡ field_place name.now s.now o }
{
    let mut i = 0;
    let mut left = o;
    loop {
        let ValuePlace { start, value, end } = next_named(&s[i..], name)?;
        if left == 0 {
            return Some(ValuePlace {
                start: i + start,
                value: i + value,
                end: i + end,
            });
        }
        left -= 1;
        i += end;
    }
}

// Does a descriptor, which fills s, open the set of a name?
fn opens_set(s: &[u8], name: &[u8]) -> bool
    requires { is_readable s.now ≡ true }
    ensures { result ≡ opens_set name.now s.now }
{
    let Some(ValuePlace { value, end, .. }) = find_field(s, b"%rec", 0) else {
        return false;
    };
    values::word_is(&s[value..end], name)
}

// Where a set stands: its descriptor's first field's first byte, the byte behind its last field, and the byte where its records begin. The default set, which has no descriptor, has 0 for each.
#[derive(Drop)]
pub struct Head {
    pub start: usize,
    pub end: usize,
    pub begin: usize,
}

// Where the set of a name stands.
pub fn find_head(s: &[u8], name: &[u8]) -> Option<Head>
    requires { is_readable s.now ≡ true }
    ensures { result ≡ head_place name.now (places_of s.now) }
{
    if name.len() == 0 {
        return Some(Head {
            start: 0,
            end: 0,
            begin: 0,
        });
    }
    let mut i = 0;
    loop {
        let p = next_record(&s[i..])?;
        if p.descriptor {
            let a = i + p.start;
            let e = i + p.end;
            if opens_set(&s[a..e], name) {
                return Some(Head {
                    start: a,
                    end: e,
                    begin: i + p.after,
                });
            }
        }
        i += p.after;
    }
}

// The set behind a head: its records go from where they begin to the byte behind the last block.
pub fn set_behind(s: &[u8], head: Head) -> RecordSet
    requires { (head.begin ≤ length s.now)
        × (is_readable (drop head.begin s.now) ≡ true) }
    ensures { result ≡ set_behind s.now head }
{
    let begin = head.begin;
    let m = next_members(&s[begin..]);
    let after = begin + m.end;
    RecordSet {
        start: head.start,
        end: head.end,
        begin,
        after,
        count: m.count,
    }
}

// The set of a name. Who wants one record of it walks from its head on, and not over all of them.
pub fn find_set(s: &[u8], name: &[u8]) -> Option<RecordSet>
    requires { is_readable s.now ≡ true }
    ensures { result ≡ set_place name.now s.now }
{
    let head = find_head(s, name)?;
    Some(set_behind(s, head))
}
