// Edits of a file in a lent buffer: one request, and a run of them.
#![tactic(auto)]

ghost use Rattle.std.specs.Prelude.{◌≡◌, true, ◌≤◌, length, take};
ghost use Rattle.format.specs.Limits.{file_bytes};
ghost use Rattle.format.specs.Requests.{requests_in};
ghost use Rattle.format.specs.Calls.{answered, check_answer, edit_answer, filled_by};
ghost use Rattle.format.specs.Runs.{run_answer};
ghost use Rattle.format.proofs.Judging.{text_no};
ghost use Rattle.format.proofs.Results.{edit_no};
ghost use Rattle.edits.specs.Splices.{made_by, Sound};
ghost use Rattle.numbering.specs.Adding.{added_room};
ghost use Rattle.editor.specs.Plans.{Planned};
ghost use Rattle.editor.specs.Runs.{is_run, Sends};
ghost use Rattle.format.specs.Refusals.{no_of, refused_no, refusal_no};
ghost use Rattle.editor.specs.Overs.{over_no};

use edits::{Located, Splice};
use format::{File, Question, Refusal};

mod runs;

pub use edits::Text;

// The text that a splice makes of s, asked questions 2 to 14 and 30. It is made in a copy.
fn result_no(x: Splice, s: &[u8], req: &[u8], added: &[u8], copy: &mut [u8]) -> Result<(), Question>
    requires file_bytes_in_bounds { file_bytes ≤ length copy.old }
    requires sound { Sound s.now req.now added.now x }
    requires s_len_bound { (length s.now ≤ file_bytes) × (length (made_by s.now req.now added.now x) ≤ file_bytes) }
    ensures { no_of result ≡ text_no (made_by s.now req.now added.now x) }
{
    let used = s.len();
    writing::put_bytes(&mut *copy, s);
    let n = edits::carry_out(x, &mut *copy, used, req, added);
    integrity::judge_spent(copy, n)
}

// A splice of a text that passes, in a buffer of room bytes: the first question, 26 on, that says no.
fn edit_no(
    x: Splice,
    s: &[u8],
    req: &[u8],
    added: &[u8],
    room: usize,
    copy: &mut [u8],
) -> Result<(), Refusal>
    requires file_bytes_in_bounds { file_bytes ≤ length copy.old }
    requires sound { Sound s.now req.now added.now x }
    requires s_len_bound { (length s.now ≤ room) × (length s.now ≤ file_bytes) }
    ensures { refused_no result ≡ edit_no room 0 (made_by s.now req.now added.now x) }
{
    if !edits::fits(x, s, req, added, room) {
        return Err(Refusal::Large);
    }
    result_no(x, s, req, added, copy).map_err(Refusal::Result)?;
    Ok(())
}

// The refusal of an edit that makes so many bytes, with a name among them that is longer than a field's may be.
fn over_no(n: usize, room: usize) -> Refusal
    ensures { refusal_no result ≡ over_no room n }
{
    let f = File::new(n);
    if f.fits(room) {
        return Refusal::Result(Question::Limit);
    }
    Refusal::Large
}

// What a request to a file that passes does, which is in the first `used` bytes of buf, or the first of questions 20 to 25 and 31 that says no. The text of fields that an insert gets is put into
// `added`; the copy is spent. The two steps of an edit are calls of their own, so that the room which this one takes on the stack is free again when the result is judged.
pub fn plan(buf: &[u8], used: usize, req: &[u8], copy: &mut [u8], added: &mut [u8]) -> Located
    requires used_value { check_answer buf.now used ≡ 0 }
    requires file_bytes_in_bounds { (file_bytes ≤ length copy.old) × (added_room ≤ length added.old) }
    ensures { Planned (take used buf.now) req.now added.new result }
{
    let Some(q) = requests::request_of(req) else {
        return Located::Refused(Refusal::Form);
    };
    edits::locate(&buf[..used], req, q, copy, added)
}

// A planned request carried out, if what it makes passes. A refusal writes nothing.
pub fn settle(
    plan: Located,
    buf: &mut [u8],
    used: usize,
    req: &[u8],
    added: &[u8],
    copy: &mut [u8],
) -> Result<usize, Refusal>
    requires used_value { (check_answer buf.old used ≡ 0) × Planned (take used buf.old) req.now added.now plan }
    requires file_bytes_in_bounds { file_bytes ≤ length copy.old }
    ensures { filled_by result buf.new ≡ edit_answer buf.old used req.now }
{
    let room = buf.len();
    match plan {
        Located::Refused(refusal) => Err(refusal),
        Located::Over(n) => Err(over_no(n, room)),
        Located::At(x) => {
            edit_no(x, &buf[..used], req, added, room, copy)?;
            let new = edits::carry_out(x, buf, used, req, added);
            Ok(new)
        }
    }
}

// One request to a file of which the check's answer k is known.
fn edit_judged(
    buf: &mut [u8],
    used: usize,
    req: &[u8],
    k: Result<(), Question>,
    copy: &mut [u8],
) -> Result<usize, Refusal>
    requires used_value { check_answer buf.old used ≡ no_of k }
    requires file_bytes_in_bounds { file_bytes ≤ length copy.old }
    ensures { filled_by result buf.new ≡ edit_answer buf.old used req.now }
{
    k?;
    let mut added = [0u8; Text::ROOM];
    let p = plan(buf, used, req, &mut *copy, &mut added);
    settle(p, buf, used, req, &added, copy)
}

// One request to the file in the first `used` bytes of buf. A refusal writes nothing.
pub fn edit(buf: &mut [u8], used: usize, req: &[u8]) -> Result<usize, Refusal>
    ensures { filled_by result buf.new ≡ edit_answer buf.old used req.now }
{
    let mut copy = [0u8; File::BYTES];
    let k = integrity::check_with(buf, used, &mut copy);
    edit_judged(buf, used, req, k, &mut copy)
}

// Each request of a run on what the one before left, and its number into answers; k is the check's answer, which stays: an accepted edit leaves a file that passes,
// and a refused one leaves all as it was. The result is the file's length after the last.
fn edit_each(
    buf: &mut [u8],
    used: usize,
    run: &[u8],
    answers: &mut [u32],
    k: Result<(), Question>,
    copy: &mut [u8],
) -> usize
    requires used_value { check_answer buf.old used ≡ no_of k }
    requires file_bytes_in_bounds { file_bytes ≤ length copy.old }
    requires run_value { is_run (length answers.old) (requests_in run.now) ≡ true }
    ensures { Sends buf.old used (requests_in run.now) answers.old result buf.new answers.new }
{
    let mut rest = run;
    let mut n = used;
    // An index by hand: the loop goes by the run, whose requests are read one after another.
    let mut i = 0;
    while 0 < rest.len() {
        let Some(end) = runs::first_request(rest) else {
            return n;
        };
        let e = edit_judged(buf, n, &rest[2..end], k, &mut *copy);
        answers[i] = format::number_in(e);
        n = e.unwrap_or(n);
        rest = &rest[end..];
        i += 1;
    }
    n
}

// The requests of a run, each an edit of what the one before left. The file is checked once, and not at all where there is no request. The answer is the file's
// length after the last, whatever the requests' own numbers, or that the run is refused, and then nothing is written.
pub fn edit_run(
    buf: &mut [u8],
    used: usize,
    run: &[u8],
    answers: &mut [u32],
) -> Result<usize, Refusal>
    ensures { record { result = answered result; out = buf.new; answers = answers.new } ≡ run_answer buf.old used run.now answers.old }
{
    if !runs::is_taken(run, answers.len()) {
        return Err(Refusal::Run);
    }
    if run.len() == 0 {
        return Ok(used);
    }
    let mut copy = [0u8; File::BYTES];
    let k = integrity::check_with(buf, used, &mut copy);
    let n = edit_each(buf, used, run, answers, k, &mut copy);
    Ok(n)
}
