// Room for new bytes in the text at the front of a lent buffer.
ghost use Rattle.std.specs.Prelude.{◌≡◌, ◌+◌, ◌-◌, ◌≤◌, length, replicate};
ghost use Rattle.splices.specs.Space.{Opened};

// Every byte becomes 0. By an index, like the moves: what the archive asks for is known.
fn clear(part: &mut [u8])
    ensures { part.new ≡ replicate (length part.old) 0 }
{
    let mut i = 0;
    while i < part.len() {
        part[i] = 0;
        i += 1;
    }
}

// Room for `new` bytes at `at` in place of `old`, in a text of `used` bytes: what lies behind them moves, and bytes that the text gives up become 0.
// What stands in the room is left open.
pub(crate) fn open_space(buf: &mut [u8], used: usize, at: usize, old: usize, new: usize)
    requires { (at + old ≤ used) × (used ≤ length buf.old) × ((used - old) + new ≤ length buf.old) }
    ensures { Opened buf.old used at old new buf.new }
{
    let from = at + old;
    let to = at + new;
    let n = used - from;
    if from < to {
        writing::move_up(buf, from, to, n);
    } else {
        writing::move_down(buf, from, to, n);
        let end = to + n;
        clear(&mut buf[end..used]);
    }
}
