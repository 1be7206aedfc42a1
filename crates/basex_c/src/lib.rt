// BaseX for programs in C and Rust: numbers and slices in, numbers out. An answer below 2^63 is a
// count, of bytes or of errors, one above it is a refusal, its number on top of 2^63. What else is
// told goes to the front of the lent numbers; too few of them are the last refusal, 10.
#![tactic(auto)]

mod errors;
mod numbers;
mod requests;
mod responses;
mod strings;

pub use errors::kdr_basex_error;
pub use requests::{kdr_basex_read_request, kdr_basex_write_request};
pub use responses::{
    kdr_basex_item, kdr_basex_read_response, kdr_basex_write_end, kdr_basex_write_item,
};
pub use strings::{
    kdr_basex_decode, kdr_basex_string_at, kdr_basex_string_len, kdr_basex_write_string,
};
