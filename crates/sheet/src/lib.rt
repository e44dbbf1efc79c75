//! Reads a sheet: the kind table, what stands where, the levels of the variables' bits, and the check.
#![tactic(auto)]

pub mod check;
pub mod checked;
pub mod contents;
pub mod kind;
pub mod level;
pub mod operands;
pub mod read;
pub mod sheet;
pub mod widths;
