// Descriptors: question 6 of a file, and the size rule of question 14.
#![tactic(auto)]

mod shapes;
mod sizes;

pub use shapes::described_well;
pub use sizes::size_met;
