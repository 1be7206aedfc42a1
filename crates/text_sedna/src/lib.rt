// Prints what reading a Sedna message answers, and writes a message that is told by places. No part
// of the library: what programs share.
#![tactic(auto)]

pub mod names;
pub mod show;
pub mod write;
