// The first question that says no.
ghost use Rattle.std.specs.Prelude.{◌≡◌};
ghost use Rattle.format.proofs.Least.{least};
ghost use Rattle.format.specs.Refusals.{no_of};

use format::Question;

// The one of two answers that has the lesser number, if both say no. By hand: in a derived order
// an answer that says yes would come first.
pub fn lesser(a: Result<(), Question>, b: Result<(), Question>) -> Result<(), Question>
    ensures { no_of result ≡ least (no_of a) (no_of b) }
{
    let Err(p) = a else {
        return b;
    };
    let Err(q) = b else {
        return a;
    };
    if p.number() < q.number() { a } else { b }
}
