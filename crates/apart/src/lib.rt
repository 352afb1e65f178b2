// Edits of two different sets are independent (document 02, order 13): laws about the definitions, which stand in proofs/.
#![tactic(auto)]

#[derive(Drop)]
pub struct Apart {}
