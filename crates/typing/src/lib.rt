// Types, over decoded text: reading a type, and whether a value meets it.
#![tactic(auto)]

use numbers::Whole;

mod kinds;
mod met;
mod symbols;

pub use kinds::type_of;
pub use met::{is_between, is_int, meets};

// A type's text, read once: where the text behind the word `enum` stands in it, and where a typedef's name does.
#[derive(Clone, Copy)]
pub enum Shape {
    Int,
    Range(Whole, Whole),
    Real,
    Line,
    Size(u64),
    Enum { start: usize, end: usize },
    Bool,
    Field,
    Uuid,
    Alias { start: usize, end: usize },
}
