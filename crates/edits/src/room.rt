// Whether the text that an edit makes fits.
ghost use Rattle.std.specs.Prelude.{◌≡◌, ◌≤◌, length};
ghost use Rattle.format.specs.Limits.{file_bytes};
ghost use Rattle.edits.specs.Splices.{made_by, Sound, is_within, made_len};

use super::Splice;

// How long a text of `used` bytes is with a record of so many put in: a newline comes between, unless it stands alone.
pub(crate) fn made_len(used: usize, len: usize) -> usize
    requires { (used ≤ file_bytes) × (len ≤ 1048576) }
    ensures { result ≡ made_len used len }
{
    if used == 0 {
        return len;
    }
    used + len + 1
}

// Is the text that a splice makes of s at most room bytes long, and no longer than a file may be?
pub fn fits(x: Splice, s: &[u8], req: &[u8], added: &[u8], room: usize) -> bool
    requires sound { Sound s.now req.now added.now x }
    requires s_len_bound { (length s.now ≤ room) × (length s.now ≤ file_bytes) }
    ensures { result ≡ is_within room (length (made_by s.now req.now added.now x)) }
{
    let used = s.len();
    match x {
        Splice::Record { new, .. } => {
            if new.len > format::File::BYTES {
                return false;
            }
            let f = format::File::new(made_len(used, new.len));
            f.fits(room)
        }
        Splice::Field {
            old,
            name,
            value,
            ..
        } => {
            let a = name.start;
            let b = name.end;
            let c = value.start;
            let d = value.end;
            let new = writing::written_len(&req[a..b], &req[c..d]);
            let f = format::File::new(used - old + new);
            f.fits(room)
        }
        Splice::Name { old, name, .. } => {
            let new = name.end - name.start;
            let f = format::File::new(used - old + new);
            f.fits(room)
        }
        Splice::Cut { .. } | Splice::Unfield { .. } => true,
    }
}
