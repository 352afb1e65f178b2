// The name of the set that a descriptor opens.
ghost use Rattle.std.specs.Prelude.{◌≡◌, true, ◌≤◌, length};
ghost use Rattle.format.specs.Bytes.{all};
ghost use Rattle.format.specs.Limits.{value_bytes};
ghost use Rattle.format.specs.Calls.{over};
ghost use Rattle.format.proofs.Walking.{is_head, head_name};
ghost use Rattle.records.specs.Places.{is_readable};
ghost use Rattle.records.specs.Walk.{record_in};
ghost use Rattle.merging.specs.Texts.{fits_value};

// The name of the set of a descriptor, which fills d, at the front of out: its length.
pub(crate) fn set_name(d: &[u8], out: &mut [u8]) -> usize
    requires { (is_readable d.now ≡ true) × (is_head (record_in d.now) ≡ true) × (all fits_value (record_in d.now) ≡ true) × (value_bytes ≤ length out.old) }
    ensures { (result ≡ length (head_name (record_in d.now))) × (out.new ≡ over (head_name (record_in d.now)) out.old) × (result ≤ value_bytes) }
{
    let Some(v) = records::find_field(d, b"%rec", 0) else {
        return 0;
    };
    let i = values::word_start(&d[v.value..v.end]);
    let n = values::word_len(&d[v.value..v.end], i);
    values::copy_word(&d[v.value..v.end], i, &mut *out);
    n
}
