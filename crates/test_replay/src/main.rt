// Replays edits and other calls on the file in a buffer. A frame begins with its kind:
// 0, a buffer, its length and the used length at 1 and 5 (four bytes each), and its runs from 9 on;
// 1, an edit, the request's runs from 1 on;
// 2, a run of requests, how many answers its list has at 1 and what each of them is before at 2 (one byte each), and the run's own runs from 3 on;
// 3 to 10, a count, fetch, view, writing, name of a set, draft, total or find, the number of the record or set at 1 and the occurrence at 3 (two bytes each), the second
// buffer's length at 5 (four bytes), the sizes of set and name at 9 and 11 (two bytes each), the two from 13 on, or there the runs of a request.
// Of a find the expression stands for the name, the length of its list at 1 and what each entry of that is before at 3.
// Each call prints its number, a length or count, and the checksum of the buffer that it may write, or of the part that it shows, a total its two sums in place of
// that; a run of requests also its list of answers, on a line, and a find its list in place of the checksum.
#![tactic(auto)]

ghost use Rattle.std.specs.Prelude.{◌<◌, nat_abs};
ghost use Rattle.io.specs.Counts.{IsPrefixLen};

use format::Refusal;
use totals::Totalled;

// What the buffer holds; more says that there was a frame.
#[derive(Drop)]
struct State {
    room: usize,
    used: usize,
    more: bool,
}

fn main() {
    let mut space = [0u8; 65600];
    let buf: &mut [u8] = &mut space;
    let mut s = State {
        room: 0,
        used: 0,
        more: true,
    };
    for _ in 0..65536 {
        s = turn(buf, s);
        if !s.more {
            return;
        }
    }
}

fn turn(buf: &mut [u8], s: State) -> State {
    let mut frame = io::large_buffer();
    let n = test_frames::read(&mut frame);
    if n == 0 {
        return State { more: false, ..s };
    }
    answer(buf, s, &frame[..n])
}

fn answer(buf: &mut [u8], s: State, frame: &[u8]) -> State {
    let kind = test_frames::two(frame, 0) / 256;
    if kind == 0 {
        test_frames::expand(frame, 9, buf);
        return State {
            room: test_frames::four(frame, 1),
            used: test_frames::four(frame, 5),
            more: true,
        };
    }
    let room = test_frames::within(s.room, buf);
    let used = call(&mut buf[..room], s.used, kind, frame);
    State {
        used,
        more: true,
        ..s
    }
}

// The used length after a call.
fn call(buf: &mut [u8], used: usize, kind: usize, frame: &[u8]) -> usize {
    if kind == 1 {
        return edit(buf, used, frame);
    }
    if kind == 2 {
        return edit_run(buf, used, frame);
    }
    look(buf, used, kind, frame);
    used
}

fn tell_number(n: u32) {
    io::print_decimal(1, n as u64);
    io::write_all(1, b" ");
}

fn tell(number: u32, length: usize, digest: usize) {
    tell_number(number);
    io::print_decimal(1, length as u64);
    io::write_all(1, b" ");
    io::print_decimal(1, digest as u64);
    io::write_all(1, b"\n");
}

fn edit(buf: &mut [u8], used: usize, frame: &[u8]) -> usize {
    let mut request = [0u8; 65600];
    let n = test_frames::expand(frame, 1, &mut request);
    let e = editor::edit(buf, used, &request[..n]);
    let length = e.unwrap_or(used);
    tell(format::number_in(e), length, test_frames::digest(buf));
    length
}

fn edit_run(buf: &mut [u8], used: usize, frame: &[u8]) -> usize {
    let mut run = [0u8; 131200];
    let n = test_frames::expand(frame, 3, &mut run);
    let held = test_frames::two(frame, 1) % 256;
    let mut space = [held as u32; 256];
    let count = within(test_frames::two(frame, 1) / 256, &space);
    let answers: &mut [u32] = &mut space;
    send(buf, used, &run[..n], &mut answers[..count])
}

// A number of answers, all where it is larger.
fn within(n: usize, answers: &[u32]) -> usize
    ensures { IsPrefixLen result answers.now }
{
    test_frames::least(n, answers.len())
}

fn send(buf: &mut [u8], used: usize, run: &[u8], answers: &mut [u32]) -> usize {
    let e = editor::edit_run(buf, used, run, answers);
    let length = e.unwrap_or(used);
    tell(format::number_in(e), length, test_frames::digest(buf));
    tell_answers(answers);
    length
}

fn tell_answers(answers: &[u32]) {
    for &n in answers {
        tell_number(n);
    }
    io::write_all(1, b"\n");
}

fn look(buf: &[u8], used: usize, kind: usize, frame: &[u8]) {
    let set = test_frames::part(frame, 13, test_frames::two(frame, 9));
    let row = test_frames::two(frame, 1);
    if kind == 3 {
        count(buf, used, set);
        return;
    }
    if kind == 5 {
        view(buf, used, set, row);
        return;
    }
    if kind == 8 {
        to_fill(buf, used, frame);
        return;
    }
    if kind == 9 {
        total(buf, used, set, name_in(frame));
        return;
    }
    if kind == 10 {
        find(buf, used, set, frame);
        return;
    }
    let mut space = [170u8; 65600];
    let room = test_frames::within(test_frames::four(frame, 5), &space);
    let out: &mut [u8] = &mut space;
    fill(buf, used, kind, frame, &mut out[..room]);
}

fn count(buf: &[u8], used: usize, set: &[u8]) {
    let c = lookup::count(buf, used, set);
    tell_answer(c, 1);
}

// The name behind the set's.
fn name_in(frame: &[u8]) -> &[u8] {
    test_frames::part(
        frame,
        13 + test_frames::two(frame, 9),
        test_frames::two(frame, 11),
    )
}

fn find(buf: &[u8], used: usize, set: &[u8], frame: &[u8]) {
    let mut space = [test_frames::two(frame, 3); 256];
    let room = listed(test_frames::two(frame, 1), &space);
    let list: &mut [usize] = &mut space;
    seek(buf, used, set, name_in(frame), &mut list[..room]);
}

// A number of entries, all where it is larger.
fn listed(n: usize, list: &[usize]) -> usize
    ensures { IsPrefixLen result list.now }
{
    test_frames::least(n, list.len())
}

fn seek(buf: &[u8], used: usize, set: &[u8], expression: &[u8], list: &mut [usize]) {
    let f = selection::find(buf, used, set, expression, list);
    tell_number(format::number_in(f));
    io::print_decimal(1, f.unwrap_or(0) as u64);
    io::write_all(1, b" ");
    tell_entries(list);
}

fn tell_entries(list: &[usize]) {
    for &n in list {
        io::print_decimal(1, n as u64);
        io::write_all(1, b" ");
    }
    io::write_all(1, b"\n");
}

fn total(buf: &[u8], used: usize, set: &[u8], name: &[u8]) {
    match totals::total(buf, used, set, name) {
        Ok(
            Totalled {
                hundredths,
                millionths,
                number,
            },
        ) => {
            tell_total(0, number, hundredths, millionths);
        }
        Err(refusal) => {
            tell_total(refusal.number(), 0, 0, 0);
        }
    }
}

fn tell_total(number: u32, count: usize, hundredths: i64, millionths: i64)
    requires { (nat_abs hundredths < 9223372036854775808) × (nat_abs millionths < 9223372036854775808) }
{
    tell_number(number);
    io::print_decimal(1, count as u64);
    tell_sum(hundredths);
    tell_sum(millionths);
    io::write_all(1, b"\n");
}

// A blank and a number with its sign.
fn tell_sum(n: i64)
    requires { nat_abs n < 9223372036854775808 }
{
    io::write_all(1, b" ");
    if n < 0 {
        io::write_all(1, b"-");
    }
    io::print_decimal(1, totals::magnitude(n));
}

fn to_fill(buf: &[u8], used: usize, frame: &[u8]) {
    let mut request = [0u8; 65600];
    let n = test_frames::expand(frame, 13, &mut request);
    let d = drafts::to_fill(buf, used, &request[..n]);
    tell_answer(d, 1);
}

fn view(buf: &[u8], used: usize, set: &[u8], row: usize) {
    match lookup::view(buf, used, set, row) {
        Ok(part) => {
            tell(0, part.len(), test_frames::digest(part));
        }
        Err(refusal) => {
            tell(refusal.number(), 0, test_frames::digest(&buf[0..0]));
        }
    }
}

// The calls that fill a second buffer.
fn fill(buf: &[u8], used: usize, kind: usize, frame: &[u8], out: &mut [u8]) {
    if kind == 6 {
        write(frame, out);
        return;
    }
    let row = test_frames::two(frame, 1);
    if kind == 7 {
        let f = lookup::set_name(buf, used, row, out);
        tell_answer(f, test_frames::digest(out));
        return;
    }
    let set = test_frames::part(frame, 13, test_frames::two(frame, 9));
    let f = lookup::fetch(
        buf,
        used,
        set,
        row,
        name_in(frame),
        test_frames::two(frame, 3),
        out,
    );
    tell_answer(f, test_frames::digest(out));
}

fn tell_answer(f: Result<usize, Refusal>, digest: usize) {
    tell(format::number_in(f), f.unwrap_or(0), digest);
}

fn write(frame: &[u8], out: &mut [u8]) {
    let mut request = [0u8; 65600];
    let n = test_frames::expand(frame, 13, &mut request);
    let w = requests::write_record(&request[..n], out);
    tell_answer(w, test_frames::digest(out));
}
