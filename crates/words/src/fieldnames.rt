// The names of a descriptor's fields.
ghost use Rattle.std.specs.Prelude.{◌≡◌};
ghost use Rattle.words.specs.RuleNames.{place_in, rule_names, rule_no};

use super::fixed::word_place;

// Which of these names a field has, in the order of the definitions' shapes.
#[derive(Clone, Copy)]
pub enum Rule {
    Rec,
    Doc,
    // Lists of names; two more stand behind the others.
    Mandatory,
    Prohibit,
    Allowed,
    Unique,
    Key,
    Size,
    Typedef,
    Type,
    Singular,
    Auto,
    // Every other name.
    Other,
}

// Which name this is.
pub fn rule_of(name: &[u8]) -> Rule
    ensures { rule_no result ≡ place_in name.now rule_names }
{
    let k = word_place(
        name,
        b"%rec %doc %mandatory %prohibit %allowed %unique %key %size %typedef %type %singular %auto",
    );
    match k {
        0 => Rule::Rec,
        1 => Rule::Doc,
        2 => Rule::Mandatory,
        3 => Rule::Prohibit,
        4 => Rule::Allowed,
        5 => Rule::Unique,
        6 => Rule::Key,
        7 => Rule::Size,
        8 => Rule::Typedef,
        9 => Rule::Type,
        10 => Rule::Singular,
        11 => Rule::Auto,
        12.. => Rule::Other,
    }
}
