// What a record has of the names that a descriptor lists, field by field, as a few numbers: questions 8 to 11.
ghost use Rattle.std.specs.Prelude.{◌≡◌, ◌+◌, ◌≤◌, min};
ghost use Rattle.format.specs.Bytes.{pick};
ghost use Rattle.format.specs.Limits.{list_words};
ghost use Rattle.format.specs.Refusals.{no_of};
ghost use Rattle.terms.specs.Sets.{in_set};
ghost use Rattle.dictionary.specs.Tags.{prohibited_tag, allowed_tag, key_tag};
ghost use Rattle.rules.specs.Tallies.{has_all, empty, counted, tally_no};

use dictionary::{Tag, wordsets};
use format::Question;

// Whether a prohibited name and one that is not allowed occur; the mandatory words that occur; the unique words that occur, and those that do
// so twice, each as the set of their places in the list; and how often the key occurs, up to 2.
#[derive(Drop)]
pub struct Tally {
    pub prohibited: bool,
    pub other: bool,
    pub present: u64,
    pub once: u64,
    pub twice: u64,
    pub keys: u8,
}

// No field yet.
pub fn start() -> Tally
    ensures { result ≡ empty }
{
    Tally {
        prohibited: false,
        other: false,
        present: 0,
        once: 0,
        twice: 0,
        keys: 0,
    }
}

// One more or none, up to 2.
fn bump(n: u8, hit: bool) -> u8
    ensures { result ≡ min 2 (n + pick hit 1 0) }
{
    if 1 < n {
        return 2;
    }
    if hit { n + 1 } else { n }
}

// One field more, by what the dictionary knows of its name (prohibited, allowed, the key) and the places of that among the
// mandatory and the unique words.
pub fn count(t: Tally, known: u64, mandatory: u64, unique: u64) -> Tally
    ensures { result ≡ counted t (in_set prohibited_tag known) (in_set allowed_tag known) (in_set key_tag known) mandatory unique }
{
    let prohibited = terms::has(known, Tag::PROHIBITED as u64);
    let allowed = terms::has(known, Tag::ALLOWED as u64);
    let key = terms::has(known, Tag::KEY as u64);
    Tally {
        prohibited: t.prohibited | prohibited,
        other: t.other | !allowed,
        present: t.present | mandatory,
        once: t.once | unique,
        twice: t.twice | (t.once & unique),
        keys: bump(t.keys, key),
    }
}

// Are the first n places all in a set?
fn has_all(set: u64, n: usize) -> bool
    requires { n ≤ list_words }
    ensures { result ≡ has_all n set }
{
    wordsets::missing(set, n) == 0
}

// The first of questions 8 to 11 that the record fails: `limited` tells whether there are `%allowed` fields, `keyed` whether there is a key,
// and `mandatory` how many words are mandatory.
pub fn judge(t: Tally, limited: bool, keyed: bool, mandatory: usize) -> Result<(), Question>
    requires { mandatory ≤ list_words }
    ensures { no_of result ≡ tally_no t limited keyed mandatory }
{
    if t.prohibited {
        return Err(Question::Prohibited);
    }
    if limited & t.other {
        return Err(Question::NotAllowed);
    }
    if !has_all(t.present, mandatory) {
        return Err(Question::Missing);
    }
    if keyed & (t.keys == 0) {
        return Err(Question::Missing);
    }
    if t.twice != 0 {
        return Err(Question::Repeated);
    }
    if keyed & (1 < t.keys) {
        return Err(Question::Repeated);
    }
    Ok(())
}
