// The part of a text that the records of a set stand in.
ghost use Rattle.std.specs.Prelude.{◌≡◌, true};
ghost use Rattle.records.specs.Places.{is_readable};
ghost use Rattle.totals.specs.Parts.{special_line, PartTold};

// Where the records of a set stand.
#[derive(Clone, Copy)]
pub struct Part {
    pub begin: usize,
    pub end: usize,
}

// Does a line begin with a percent sign? All pairs of bytes are looked at, so that many can be
// asked at once.
fn has_special_line(s: &[u8]) -> bool
    ensures { result ≡ special_line 10 s.now }
{
    let mut found = lines::byte(s, 0) == b'%';
    for i in 1..s.len() {
        found = found | ((s[i - 1] == b'\n') & (s[i] == b'%'));
    }
    found
}

// The part of the set of a name. The records of a set behind which no line begins with a percent
// sign go to the end of the text; of any other they are walked over.
pub fn find_part(s: &[u8], set: &[u8]) -> Option<Part>
    requires { is_readable s.now ≡ true }
    ensures { PartTold s.now set.now result }
{
    let p = records::find_head(s, set)?;
    let begin = p.begin;
    if has_special_line(&s[begin..]) {
        let q = records::set_behind(s, p);
        return Some(Part {
            begin,
            end: q.after,
        });
    }
    Some(Part {
        begin,
        end: s.len(),
    })
}
