// Questions 3, 4 and 5 of a file: has every line a form, are the limits held, and does a record with a `%` name have `%rec`, once?
#![tactic(auto)]

ghost use Rattle.std.specs.Prelude.{◌≡◌, true, ◌&&◌, ◌+◌, ◌*◌, ◌≤◌, leb, eqb, length};
ghost use Rattle.format.specs.Pieces.{read_of};
ghost use Rattle.format.proofs.Records.{records};
ghost use Rattle.format.proofs.Walking.{heads};
ghost use Rattle.format.specs.Bytes.{pick, all};
ghost use Rattle.format.specs.Words.{words};
ghost use Rattle.format.specs.Limits.{file_bytes, record_fields, name_bytes, value_bytes, descriptors};
ghost use Rattle.format.specs.Records.{fields_of};
ghost use Rattle.format.specs.Lines.{is_ended};
ghost use Rattle.format.specs.Questions.{fits_rules};
ghost use Rattle.values.specs.Value.{value_from};
ghost use Rattle.records.specs.Places.{is_readable};
ghost use Rattle.records.specs.Heads.{HeadParts};
ghost use Rattle.limits.specs.Counts.{count_on, total};
ghost use Rattle.limits.specs.Opens.{not_open, open_on, put_row};
ghost use Rattle.limits.specs.Bounds.{Scanned, BoundedAs};

use format::{Classes, Descriptor, Question, Record};
use lines::Next;
use words::Rule;

// A length that is within a value's limit where that of the value is which begins where s does. No value is longer than its bytes in the file, so few are decoded.
fn value_bound(s: &[u8]) -> usize
    ensures { leb result value_bytes ≡ leb (length (value_from s.now)) value_bytes }
{
    let len = s.len();
    if len <= Record::VALUE {
        return len;
    }
    values::value_len(s)
}

// A record that goes on: how many fields it has so far, whether one of them has a `%` name, how many are `%rec`, where the first begins and where the last ends.
#[derive(Clone, Copy)]
struct Open {
    fields: usize,
    special: bool,
    recs: usize,
    start: usize,
    end: usize,
}

// No field was met yet.
fn unopened() -> Open
    ensures { result ≡ not_open }
{
    Open {
        fields: 0,
        special: false,
        recs: 0,
        start: 0,
        end: 0,
    }
}

// The first place where there were no fields, else the other.
fn first_place(fields: usize, here: usize, there: usize) -> usize
    ensures { result ≡ pick (eqb fields 0) here there }
{
    if fields == 0 {
        return here;
    }
    there
}

// One more field of a record, by its name and its place.
fn with_field(o: Open, name: &[u8], start: usize, end: usize) -> Open
    requires { (o.fields ≤ record_fields) × (o.recs ≤ o.fields) }
    ensures { result ≡ open_on o name.now start end }
{
    let first = first_place(o.fields, start, o.start);
    if lines::is_special(name) {
        let here = records::is_rec(name);
        return Open {
            fields: o.fields + 1,
            special: true,
            recs: o.recs + lines::one_if(here),
            start: first,
            end,
        };
    }
    Open {
        fields: o.fields + 1,
        special: o.special,
        recs: o.recs,
        start: first,
        end,
    }
}

// Are the limits of a field held, behind others of its record?
fn field_fits(fields: usize, name: usize, value: &[u8]) -> bool
    requires { fields ≤ record_fields }
    ensures { result ≡ (leb (fields + 1) record_fields && leb name name_bytes && leb (length (value_from value.now)) value_bytes) }
{
    let len = value_bound(value);
    let c = Record::new(fields + 1, name, len);
    c.fits()
}

// Has a record no `%` name, or `%rec` once?
fn is_once(o: Open) -> bool
    ensures { result ≡ pick o.special (eqb o.recs 1) true }
{
    !o.special | (o.recs == 1)
}

// One more field of a descriptor, counted: a `%typedef`, a `%type`, or the words of a list of names.
fn counted(d: Descriptor, name: &[u8], value: &[u8]) -> Descriptor
    requires d_bound { total d ≤ 2 * file_bytes }
    requires value_len_bound { length value.now ≤ file_bytes }
    ensures { (result ≡ count_on d name.now (value_from value.now)) × (total result ≤ total d + 1 + length value.now) }
{
    let mut c = d;
    match words::rule_of(name) {
        Rule::Typedef => {
            c.typedefs += 1;
            return c;
        }
        Rule::Type => {
            c.types += 1;
            return c;
        }
        Rule::Mandatory => {
            c.mandatory += values::count_words(value);
            return c;
        }
        Rule::Prohibit => {
            c.prohibited += values::count_words(value);
            return c;
        }
        Rule::Allowed => {
            c.allowed += values::count_words(value);
            return c;
        }
        Rule::Unique => {
            c.unique += values::count_words(value);
            return c;
        }
        Rule::Singular => {
            c.singular += values::count_words(value);
            return c;
        }
        Rule::Auto => {
            c.auto += values::count_words(value);
            return c;
        }
        Rule::Rec | Rule::Doc | Rule::Key | Rule::Size | Rule::Other => {
            return c;
        }
    }
}

// Are the limits of a descriptor held by the fields of a part?
fn rules_fit(d: &[u8]) -> bool
    requires d_value { is_readable d.now ≡ true }
    requires d_len_bound { length d.now ≤ file_bytes }
    ensures { result ≡ fits_rules (fields_of (read_of d.now)) }
{
    let mut i = 0;
    let mut c = Descriptor::new();
    loop {
        let Some(f) = records::next_field(&d[i..]) else {
            return c.fits();
        };
        c = counted(c, &d[i + f.start..i + f.named], &d[i + f.value..i + f.end]);
        i += f.end;
    }
}

// The record that ends before byte at: where it is a descriptor, one more is counted, and a row tells where it stands if there is one left.
fn count_head(
    o: Open,
    at: usize,
    count: usize,
    starts: &mut [usize],
    ends: &mut [usize],
    afters: &mut [usize],
) -> usize
    requires count_le_file_bytes { count ≤ file_bytes }
    requires starts_len { (length starts.old ≡ descriptors) × (length ends.old ≡ descriptors) × (length afters.old ≡ descriptors) }
    ensures value { result ≡ count + pick (eqb o.recs 0) 0 1 }
    ensures starts_after { starts.new ≡ put_row o starts.old count o.start }
    ensures ends_after { ends.new ≡ put_row o ends.old count o.end }
    ensures afters_after { afters.new ≡ put_row o afters.old count at }
{
    if o.recs == 0 {
        return count;
    }
    if count >= Descriptor::COUNT {
        return count + 1;
    }
    starts[count] = o.start;
    ends[count] = o.end;
    afters[count] = at;
    count + 1
}

// What a walk over the pieces of a file tells where every line has a form and the limits of every record are held: how many descriptors there are,
// and whether each record has no `%` name, or `%rec` once.
#[derive(Clone, Copy)]
struct Scan {
    count: usize,
    once: bool,
}

// Some limit is not held; s is what is left of the file.
fn past(s: &[u8]) -> Question
    ensures { result ≡ pick (is_readable s.now) Question.Limit Question.Line }
{
    if records::is_readable(s) {
        return Question::Limit;
    }
    Question::Line
}

// Question 3, and questions 4 and 5 of each record: one walk over the pieces. The rows tell where the descriptors stand.
fn walk_pieces(
    table: &Classes,
    s: &[u8],
    starts: &mut [usize],
    ends: &mut [usize],
    afters: &mut [usize],
) -> Result<Scan, Question>
    requires s_value { (is_ended s.now ≡ true) × (length s.now ≤ file_bytes) }
    requires starts_len { (length starts.old ≡ descriptors) × (length ends.old ≡ descriptors) × (length afters.old ≡ descriptors) }
    ensures { Scanned s.now starts.new ends.new afters.new result }
{
    let mut i = 0;
    let mut o = unopened();
    let mut count = 0;
    let mut once = true;
    loop {
        match lines::next_piece(table, &s[i..]) {
            Next::Comment { size } => {
                i += size;
            }
            Next::Field { name, value, size } => {
                let named = i + name;
                let from = i + value;
                let e = i + size;
                if !field_fits(o.fields, name, &s[from..e]) {
                    return Err(past(&s[e..]));
                }
                o = with_field(o, &s[i..named], i, e);
                i = e;
            }
            Next::Blank { size } => {
                count = count_head(o, i, count, &mut *starts, &mut *ends, &mut *afters);
                let here = is_once(o);
                once = once & here;
                o = unopened();
                i += size;
            }
            Next::End => {
                let all = count_head(o, i, count, &mut *starts, &mut *ends, &mut *afters);
                let here = is_once(o);
                return Ok(Scan {
                    count: all,
                    once: once & here,
                });
            }
            Next::Fault => {
                return Err(Question::Line);
            }
        }
    }
}

// Are the limits of all descriptors held? They stand from each start to the end beside it.
fn rules_held(s: &[u8], starts: &[usize], ends: &[usize], count: usize) -> bool
    requires s_len_bound { length s.now ≤ file_bytes }
    requires head_parts { HeadParts s.now starts.now ends.now count }
    ensures { result ≡ all fits_rules (heads (records (read_of s.now))) }
{
    for k in 0..count {
        if !rules_fit(&s[starts[k]..ends[k]]) {
            return false;
        }
    }
    true
}

// Questions 3, 4 and 5 of a text that ends in a newline, or is empty: has every line a form, are the limits of every record held and the descriptors not too many,
// and has every record with a `%` name `%rec`, once? The answer is the number of descriptors; the rows tell where they stand.
pub fn bounds_of(
    s: &[u8],
    starts: &mut [usize],
    ends: &mut [usize],
    afters: &mut [usize],
) -> Result<usize, Question>
    requires s_value { (is_ended s.now ≡ true) × (length s.now ≤ file_bytes) }
    requires starts_len { (length starts.old ≡ descriptors) × (length ends.old ≡ descriptors) × (length afters.old ≡ descriptors) }
    ensures { BoundedAs s.now starts.new ends.new afters.new result }
{
    let table = Classes::new();
    let Scan { count, once } = walk_pieces(&table, s, &mut *starts, &mut *ends, &mut *afters)?;
    if count > Descriptor::COUNT {
        return Err(Question::Limit);
    }
    if !rules_held(s, starts, ends, count) {
        return Err(Question::Limit);
    }
    if !once {
        return Err(Question::Rec);
    }
    Ok(count)
}
