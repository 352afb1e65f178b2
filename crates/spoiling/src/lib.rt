// What an edit of a file that passes can spoil, and that passing falls at most once along inserts:
// laws, in proofs/, and the words that they use, in specs/.
#![tactic(auto)]

#[derive(Drop)]
pub struct Spoiling {}
