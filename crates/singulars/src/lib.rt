// Question 30: has no singular name of a set the same value twice? The fields of these names are gathered as entries in one walk over the records, and the entries are told apart as those of keys are.
#![tactic(auto)]

ghost use Rattle.std.specs.Prelude.{◌≡◌, true, ◌<◌, ◌≤◌, length, drop};
ghost use Rattle.format.specs.Bytes.{all};
ghost use Rattle.format.specs.Limits.{file_bytes, list_words};
ghost use Rattle.format.specs.Rules.{singular, distinct};
ghost use Rattle.format.specs.Sets.{values_of};
ghost use Rattle.values.specs.Value.{value_from};
ghost use Rattle.records.specs.Places.{is_readable};
ghost use Rattle.records.specs.Walk.{record_in};
ghost use Rattle.dictionary.specs.Known.{Described};
ghost use Rattle.dictionary.specs.Numbered.{IsListed};
ghost use Rattle.singulars.specs.Marks.{entry_of};
ghost use Rattle.singulars.specs.Gathered.{entries_room, GatheredAs};

use dictionary::wordsets;
use dictionary::wordsets::Listed;
use sorting::Entry;

// The entry of the value that begins at a place, of the name at place k of the list.
fn entry(s: &[u8], at: usize, k: usize) -> u32
    requires { (at < file_bytes) × (k < list_words) }
    ensures { result ≡ entry_of at k (value_from (drop at s.now)) }
{
    let p = sorting::narrow(sorting::mix(s, at, false)) / Entry::TAGGED;
    sorting::narrow(at) + Entry::PLACES * sorting::narrow(k) + Entry::TAGGED * p
}

// The entries of the fields in s whose names are singular: how many there are, none if there are more than the lent array holds.
fn gather(d: &[u8], l: Listed, s: &[u8], entries: &mut [u32]) -> Option<usize>
    requires listed { IsListed d.now (singular (record_in d.now)) l }
    requires s_value { (is_readable s.now ≡ true) × (length s.now ≤ file_bytes) }
    ensures { GatheredAs (singular (record_in d.now)) s.now (record_in s.now) entries.new result }
{
    let words = l.entries;
    let sets = l.sets;
    let w = l.words;
    let count = w.count;
    let mut i = 0;
    // An index by hand: the loop goes by what the readers find, and this counts what is written.
    let mut n = 0;
    loop {
        let Some(f) = records::next_field(&s[i..]) else {
            return Some(n);
        };
        let k = wordsets::place_in(d, &words, &sets, w, &s[i + f.start..i + f.named]);
        if k < count {
            if entries.len() <= n {
                return None;
            }
            entries[n] = entry(s, i + f.value, k);
            n += 1;
            i += f.end;
        } else {
            i += f.end;
        }
    }
}

// Have all singular names of a descriptor d each value at most once in s? The entries' order afterwards is free.
pub fn values_apart(d: &[u8], s: &[u8], entries: &mut [u32]) -> bool
    requires described { Described d.now }
    requires s_value { (is_readable s.now ≡ true) × (length s.now ≤ file_bytes) }
    requires entries_room_in_bounds { entries_room ≤ length entries.old }
    ensures { result ≡ all (λ n. distinct (values_of n (record_in s.now))) (singular (record_in d.now)) }
{
    let f = records::next_named(d, b"%singular");
    let Some(_) = f else {
        return true;
    };
    let l = wordsets::list(d, b"%singular");
    let g = gather(d, l, s, &mut *entries);
    match g {
        Some(n) => keys::distinct_marks(s, &mut *entries, n),
        None => false,
    }
}
