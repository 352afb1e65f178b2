// Bytes moved within a lent buffer. By an index: the library's `copy_within` needs memmove, and the
// archive asks for none (include/recfile.h).
ghost use Rattle.std.specs.Prelude.{◌≡◌, ◌+◌, ◌≤◌, length, drop};
ghost use Rattle.std.proofs.Math.Seq.{paste};

// n bytes go up from `from` to `to`, the last one first.
pub fn move_up(buf: &mut [u8], from: usize, to: usize, n: usize)
    requires { (from ≤ to) × (to + n ≤ length buf.old) }
    ensures { buf.new ≡ paste buf.old to (drop from buf.old) n }
{
    let mut i = n;
    while 0 < i {
        i -= 1;
        buf[to + i] = buf[from + i];
    }
}

// n bytes go down from `from` to `to`, the first one first.
pub fn move_down(buf: &mut [u8], from: usize, to: usize, n: usize)
    requires { (to ≤ from) × (from + n ≤ length buf.old) }
    ensures { buf.new ≡ paste buf.old to (drop from buf.old) n }
{
    let mut i = 0;
    while i < n {
        buf[to + i] = buf[from + i];
        i += 1;
    }
}
