// The static library for programs in C and Rust: each export calls the function of its name in
// basex_c, under the same contract.
#![tactic(auto)]

mod errors;
mod requests;
mod responses;
mod strings;
