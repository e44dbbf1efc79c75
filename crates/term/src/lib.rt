//! Terms: rows of bits by value, one function an operation, each returning a row.
//!
//! row       the row, and what moves its bits: constant, shifts, concat, extract, extensions
//! bitwise   not, and, or, xor, if-then-else: one step a bit
//! add       addition at a limit
//! multiply  what is made of sums: negation, multiplication
#![tactic(auto)]

pub mod add;
pub mod bitwise;
pub mod multiply;
pub mod row;
