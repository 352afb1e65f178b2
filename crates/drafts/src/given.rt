// Which words of a list are given: by the pairs of a request, and by the words of another list. Their places are a set in one number.
ghost use Rattle.std.specs.Prelude.{true, List, [], ◌∷◌, ◌≡◌, ◌≤◌, length};
ghost use Rattle.format.specs.Bytes.{Bytes, is_some};
ghost use Rattle.format.specs.Limits.{file_bytes, value_bytes};
ghost use Rattle.format.specs.Numbering.{pair_names};
ghost use Rattle.format.specs.Rules.{listed};
ghost use Rattle.format.specs.Words.{words as words_of};
ghost use Rattle.records.specs.Walk.{record_in};
ghost use Rattle.requests.specs.Pairs.{pairs_from, pairs_at};
ghost use Rattle.dictionary.specs.Known.{Described};
ghost use Rattle.dictionary.specs.Numbered.{IsListed};
ghost use Rattle.drafts.specs.Giving.{Gives};

use dictionary::wordsets;
use dictionary::wordsets::Listed;
use records::ValuePlace;
use requests::Pair;
use words::Span;

// One name more.
fn give(d: &[u8], l: Listed, set: u64, name: &[u8]) -> u64
    requires { (ws : List Bytes) × IsListed d.now ws l }
    ensures { Gives d.now l (name.now ∷ []) set result }
{
    set | wordsets::places(d, l, name)
}

// The words of a text more.
fn give_words(d: &[u8], l: Listed, set: u64, s: &[u8]) -> u64
    requires { (ws : List Bytes) × IsListed d.now ws l }
    ensures { Gives d.now l (words_of s.now) set result }
{
    let mut given = set;
    let mut rest = s;
    loop {
        let Some(Span { start, end }) = words::next_word(rest) else {
            return given;
        };
        given = give(d, l, given, &rest[start..end]);
        rest = &rest[end..];
    }
}

// The words of all fields of a name in the descriptor more.
pub(crate) fn give_list(d: &[u8], l: Listed, set: u64, name: &[u8], scratch: &mut [u8]) -> u64
    requires listed { (ws : List Bytes) × IsListed d.now ws l }
    requires described { Described d.now × (value_bytes ≤ length scratch.old) }
    ensures { Gives d.now l (listed name.now (record_in d.now)) set result }
{
    let mut given = set;
    let mut i = 0;
    loop {
        let Some(ValuePlace { value, end, .. }) = records::next_named(&d[i..], name) else {
            return given;
        };
        let n = values::copy_value(&d[i + value..], &mut *scratch);
        given = give_words(d, l, given, &scratch[..n]);
        i += end;
    }
}

// The names of a request's pairs more.
pub(crate) fn give_pairs(d: &[u8], l: Listed, set: u64, req: &[u8], from: usize) -> u64
    requires listed { (ws : List Bytes) × IsListed d.now ws l }
    requires req_len_bound { (length req.now ≤ file_bytes) × (from ≤ length req.now) × (is_some (pairs_from req.now from) ≡ true) }
    ensures { Gives d.now l (pair_names (pairs_at req.now from)) set result }
{
    let mut given = set;
    let mut i = from;
    loop {
        let Some(Pair { name, next, .. }) = requests::pair_at(req, i) else {
            return given;
        };
        let a = name.start;
        let b = name.end;
        given = give(d, l, given, &req[a..b]);
        i = next;
    }
}
