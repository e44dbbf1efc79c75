//! One entry: its operands' values in, its own value out; and the entries' values in a buffer.
//!
//! value    an entry's value, from its operands' values
//! rows     the entries' values, 32 numbers an entry
#![tactic(auto)]

pub mod rows;
pub mod value;
