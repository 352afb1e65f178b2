// Bringing a spare file's records over (document 02, order 12): the definitions in specs/, their
// laws in proofs/, and the steps of the call, which is not there yet.
#![tactic(auto)]

mod inserts;
mod titles;
mod twins;
