// Checks the recfile on standard input and, where it passes, lists its sets in file order, each with its number of records.
#![tactic(auto)]

ghost use Rattle.std.specs.Prelude.{◌≡◌, true};
ghost use Rattle.records.specs.Places.{is_readable};

use format::Question;
use lookup::inside;

// A byte more than a file may have, so that a longer one is seen to be longer.
const ROOM: usize = format::File::BYTES + 1;

fn main() {
    let mut file = [0u8; ROOM];
    let n = io::read_full(0, &mut file);
    list(&file, n);
}

// The number of a check's answer, 0 where the file passes.
fn number_of(checked: Result<(), Question>) -> u32 {
    match checked {
        Ok(()) => 0,
        Err(question) => question.number(),
    }
}

// The file is checked once; what is listed is looked up inside.
fn list(file: &[u8], used: usize) {
    let checked = integrity::check(file, used);
    io::write_all(1, b"check ");
    io::print_decimal(1, number_of(checked) as u64);
    io::write_all(1, b"\n");
    if let Ok(()) = checked {
        list_sets(&file[..used]);
    }
}

// The default set is one more than the descriptors.
fn list_sets(s: &[u8])
    requires { is_readable s.now ≡ true }
{
    let mut space = io::buffer();
    let name: &mut [u8] = &mut space;
    for k in 0..=format::Descriptor::COUNT {
        let Ok(n) = inside::name_in(s, k, name) else {
            return;
        };
        list_set(s, &name[..n]);
    }
}

fn list_set(s: &[u8], name: &[u8])
    requires { is_readable s.now ≡ true }
{
    let Ok(n) = inside::count_in(s, name) else {
        return;
    };
    if name.is_empty() {
        io::write_all(1, b"-");
    }
    io::write_all(1, name);
    io::write_all(1, b" ");
    io::print_decimal(1, n as u64);
    io::write_all(1, b"\n");
}
