// Questions 8 to 12 of the records of a set, in one walk over their bytes. Each field's name is looked up once in the tables of the descriptor, and its value
// is held against all types that name it.
ghost use Rattle.std.specs.Prelude.{◌≡◌, true, ◌+◌, ◌-◌, ◌≤◌, eqb, length};
ghost use Rattle.format.specs.Bytes.{pick, all};
ghost use Rattle.format.specs.Limits.{file_bytes, list_words};
ghost use Rattle.format.specs.Refusals.{no_of};
ghost use Rattle.format.specs.Pieces.{read_of};
ghost use Rattle.format.proofs.Least.{least};
ghost use Rattle.format.proofs.Records.{records};
ghost use Rattle.records.specs.Places.{is_readable};
ghost use Rattle.records.specs.Walk.{record_in};
ghost use Rattle.rules.specs.Tallies.{tally_no};
ghost use Rattle.rules.specs.Members.{IsRulebook, fits_in, part_no};

use super::tables::{NextName, SeenName, Tables};
use super::tallies::Tally;
use super::{questions, tables, tallies};
use columns::Typed;
use format::Question;
use lines::Next;

// The rules of a descriptor, from one of its `%type` fields on: the tables of its names, the kinds of its types and the symbols of those; whether only
// allowed names may occur, and whether there is a key.
#[derive(Drop)]
pub struct Rulebook {
    pub tables: Tables,
    pub typed: Typed,
    pub limited: bool,
    pub keyed: bool,
}

// The first question that some records fail, and how many they are.
#[derive(Clone, Copy)]
pub struct Asked {
    pub answer: Result<(), Question>,
    pub count: usize,
}

// One record more, which has so many fields and this tally; without fields it is none.
fn closed(a: Asked, fields: usize, t: Tally, limited: bool, keyed: bool, mandatory: usize) -> Asked
    requires { (mandatory ≤ list_words) × (a.count ≤ file_bytes) }
    ensures { (no_of result.answer ≡ pick (eqb fields 0) (no_of a.answer) (least (no_of a.answer) (tally_no t limited keyed mandatory))) × (result.count ≡ pick (eqb fields 0) a.count (a.count + 1)) }
{
    if fields == 0 {
        return a;
    }
    let k = tallies::judge(t, limited, keyed, mandatory);
    Asked {
        answer: questions::lesser(a.answer, k),
        count: a.count + 1,
    }
}

// The first question with that of the types.
fn with_types(worst: Result<(), Question>, typed: bool) -> Result<(), Question>
    ensures { no_of result ≡ least (no_of worst) (pick typed 0 12) }
{
    if typed {
        return worst;
    }
    questions::lesser(worst, Err(Question::Value))
}

// The first question that the records of a part fail and how many they are, from the `%type` field on at which the tables begin. What was seen of a name is kept by the number of its field,
// since records of a set are often alike.
pub fn judge_part(
    d: &[u8],
    entries: &[u32],
    sets: &[u64],
    r: Rulebook,
    s: &[u8],
    scratch: &mut [u8],
) -> Asked
    requires rulebook { IsRulebook d.now entries.now sets.now r }
    requires s_value { (is_readable s.now ≡ true) × (length s.now ≤ file_bytes) × (all (fits_in (length scratch.old)) (record_in s.now) ≡ true) }
    ensures { (no_of result.answer ≡ part_no d.now r.tables.names.from (r.typed.symbols.next - r.tables.names.from) (records (read_of s.now))) × (result.count ≡ length (records (read_of s.now))) }
{
    let tables = r.tables;
    let mandatory = tables.mandatory.count;
    let empty = tables::look_up(d, entries, sets, tables, &s[0..0]);
    let first = SeenName {
        at: 0,
        end: 0,
        seen: empty,
    };
    let mut seen = [first; 16];
    let mut t = tallies::start();
    let mut fields = 0;
    let mut typed = true;
    let mut a = Asked {
        answer: Ok(()),
        count: 0,
    };
    let mut i = 0;
    loop {
        match lines::read_piece(&s[i..]) {
            Next::Comment { size } => {
                i += size;
            }
            Next::Blank { size } => {
                a = closed(a, fields, t, r.limited, r.keyed, mandatory);
                t = tallies::start();
                fields = 0;
                i += size;
            }
            Next::Field { name, value, size } => {
                let slot = fields % 16;
                let before = seen[slot];
                let end = i + name;
                let n = NextName { at: i, end, before };
                let x = tables::recall(d, entries, sets, tables, s, n);
                seen[slot] = SeenName {
                    at: i,
                    end,
                    seen: x,
                };
                t = tallies::count(t, x.known, x.mandatory, x.unique);
                let v = i + value;
                let e = i + size;
                let met = columns::value_met(
                    d,
                    &entries[Tables::SYMBOLS..Tables::END],
                    r.typed,
                    x.known,
                    &s[v..e],
                    &mut *scratch,
                );
                typed = typed & met;
                fields += 1;
                i = e;
            }
            Next::End => {
                let b = closed(a, fields, t, r.limited, r.keyed, mandatory);
                return Asked {
                    answer: with_types(b.answer, typed),
                    count: b.count,
                };
            }
            Next::Fault => {
                return a;
            }
        }
    }
}
