// Laws about the definitions that no code cites: what a reader asks of them, and computed examples. They stand in proofs/.
#![tactic(auto)]

#[derive(Drop)]
pub struct Laws {}
