// The call for C that adds the values of a name.
ghost use Rattle.std.specs.Prelude.{◌≡◌};
ghost use Rattle.totals.specs.Totals.{total_answer, added_in, hundredths_or, millionths_or, refusal_in};

use totals::Totalled;

// The number of values of a name in a set's records, 0 where it is refused; their sum in
// hundredths and in millionths goes through pointers, and what these point to stays where it is
// refused.
#[unsafe(no_mangle)]
pub extern "C" fn recfile_total(
    buf: &[u8],
    used: usize,
    set: &[u8],
    name: &[u8],
    hundredths: &mut i64,
    millionths: &mut i64,
    number: &mut u32,
) -> usize
    ensures { (result ≡ added_in (total_answer buf.now used set.now name.now))
        × (hundredths.new ≡ hundredths_or hundredths.old (total_answer buf.now used set.now name.now))
        × (millionths.new ≡ millionths_or millionths.old (total_answer buf.now used set.now name.now))
        × (number.new ≡ refusal_in (total_answer buf.now used set.now name.now)) }
{
    match totals::total(buf, used, set, name) {
        Ok(
            Totalled {
                hundredths: h,
                millionths: m,
                number: n,
            },
        ) => {
            *hundredths = h;
            *millionths = m;
            *number = 0;
            n
        }
        Err(refusal) => {
            *number = refusal.number();
            0
        }
    }
}
