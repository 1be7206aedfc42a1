// Lines of text for the programs: reading them, parts of them, numbers and bytes that they spell, and printing. No
// part of the library. What is cut and parsed is what specs/ says; what reads and prints is, like the programs,
// proved to do nothing undefined and to end, and promises no more.
#![tactic(auto)]

pub mod answers;
pub mod cut;
pub mod input;
pub mod lent;
pub mod names;
pub mod output;
pub mod parse;
pub mod print;
