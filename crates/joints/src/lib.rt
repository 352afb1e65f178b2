// A text without its bare joints, lines that are a backslash alone. They add nothing to a value, but words are compared where they stand, and each
// comparison would pass them again.
#![tactic(auto)]

ghost use Rattle.std.specs.Prelude.{◌≡◌, true, ◌+◌, ◌-◌, ◌≤◌, ◌<◌, length, take, drop};
ghost use Rattle.std.proofs.Math.Seq.{paste};
ghost use Rattle.format.specs.Bytes.{pick};
ghost use Rattle.format.specs.Lines.{is_ended};
ghost use Rattle.format.proofs.Dense.{is_joint, dense};
ghost use Rattle.words.specs.Spans.{span};

// May there be a bare joint? All pairs of bytes are looked at, so that many can be asked at once. Nothing is promised: no answer depends on it.
pub fn may_join(s: &[u8]) -> bool {
    let mut found = false;
    for i in 1..s.len() {
        found |= (s[i - 1] == b'\n') & (s[i] == b'\\');
    }
    found
}

// The line from `from` on, whose newline stands before `end`, goes down to `to`, but for a bare joint: where the next line goes.
fn keep_line(text: &mut [u8], from: usize, end: usize, to: usize) -> usize
    requires { (to ≤ from) × (from < end) × (end ≤ length text.old) }
    ensures value { result ≡ pick (is_joint (span from (end - 1) text.old)) to (to + (end - from)) }
    ensures text_after { text.new ≡ pick (is_joint (span from (end - 1) text.old)) text.old (paste text.old to (drop from text.old) (end - from)) }
{
    let newline = end - 1;
    if lines::same_bytes(&text[from..newline], b"\\") {
        return to;
    }
    let size = end - from;
    writing::move_down(text, from, to, size);
    to + size
}

// The text of `used` bytes at the front of a slice, made dense where it stands: its length then. What stands behind it is left open.
pub fn make_dense(text: &mut [u8], used: usize) -> usize
    requires { (used ≤ length text.old) × (is_ended (take used text.old) ≡ true) }
    ensures { (result ≤ used) × (result ≡ length (dense (take used text.old))) × (take result text.new ≡ dense (take used text.old)) }
{
    let mut i = 0;
    let mut n = 0;
    while i < used {
        let end = i + lines::line_len(&text[i..used]) + 1;
        n = keep_line(text, i, end, n);
        i = end;
    }
    n
}

// A text at the front of out, without its bare joints: its length then. What stands behind it is left open.
pub fn put_dense(out: &mut [u8], s: &[u8]) -> usize
    requires { (length s.now ≤ length out.old) × (is_ended s.now ≡ true) }
    ensures { (result ≤ length s.now) × (result ≡ length (dense s.now)) × (take result out.new ≡ dense s.now) }
{
    let used = s.len();
    writing::put_bytes(&mut *out, s);
    make_dense(out, used)
}
