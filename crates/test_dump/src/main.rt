// Prints each record of the recfile on standard input, descriptors included: its names and decoded values, and a blank line behind it.
#![tactic(auto)]

ghost use Rattle.std.specs.Prelude.{◌≡◌, true};
ghost use Rattle.records.specs.Places.{is_readable};

use format::Record;
use records::FieldPlace;

fn main() {
    let mut file = io::large_buffer();
    let n = io::read_full(0, &mut file);
    dump(&file[..n]);
}

fn dump(s: &[u8]) {
    if records::is_readable(s) {
        dump_records(s);
    } else {
        io::write_all(1, b"not a recfile\n");
    }
}

fn dump_records(s: &[u8])
    requires { is_readable s.now ≡ true }
{
    let mut i = 0;
    loop {
        let Some(p) = records::next_record(&s[i..]) else {
            return;
        };
        let a = i + p.start;
        let e = i + p.end;
        dump_record(&s[a..e]);
        i += p.after;
    }
}

fn dump_record(s: &[u8])
    requires { is_readable s.now ≡ true }
{
    let mut i = 0;
    loop {
        let Some(
            FieldPlace {
                start,
                named,
                value,
                end,
            },
        ) = records::next_field(&s[i..])
        else {
            io::write_all(1, b"\n");
            return;
        };
        io::write_all(1, &s[i + start..i + named]);
        io::write_all(1, b":");
        dump_value(&s[i + value..i + end]);
        io::write_all(1, b"\n");
        i += end;
    }
}

// The value that begins where s does, with a plus and a space behind each newline inside.
fn dump_value(s: &[u8]) {
    let mut value = io::buffer();
    let n = values::value_len(s);
    if Record::VALUE < n {
        io::write_all(1, b" (over 4,096 bytes)");
        return;
    }
    values::copy_value(s, &mut value);
    if 0 < n {
        io::write_all(1, b" ");
    }
    for &b in &value[..n] {
        io::write_all(1, &[b]);
        if b == b'\n' {
            io::write_all(1, b"+ ");
        }
    }
}
