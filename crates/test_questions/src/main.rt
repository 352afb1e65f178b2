// Checks each file of its input and prints the number, or, of the files that GNU recfix judged too, whether it passes.
// A frame is 0 or 1 for that, the buffer's length and the used length, four bytes each, and the file's runs.
#![tactic(auto)]

use format::Question;

fn main() {
    for _ in 0..4096 {
        if !next_case() {
            return;
        }
    }
}

// The next case, false at the end of the input.
fn next_case() -> bool {
    let mut frame = io::large_buffer();
    let n = test_frames::read(&mut frame);
    if n == 0 {
        return false;
    }
    judge(&frame[..n]);
    true
}

fn judge(frame: &[u8]) {
    let mut file = [0u8; 65600];
    let used = test_frames::four(frame, 8);
    test_frames::expand(frame, 12, &mut file);
    let room = test_frames::within(test_frames::four(frame, 4), &file);
    let k = integrity::check(&file[..room], used);
    if test_frames::four(frame, 0) == 0 {
        print_number(k);
    } else {
        print_verdict(k);
    }
}

fn print_number(k: Result<(), Question>) {
    let number = match k {
        Ok(()) => 0,
        Err(question) => question.number(),
    };
    io::print_decimal(1, number as u64);
    io::write_all(1, b"\n");
}

fn print_verdict(k: Result<(), Question>) {
    if k.is_ok() {
        io::write_all(1, b"pass\n");
    } else {
        io::write_all(1, b"fail\n");
    }
}
