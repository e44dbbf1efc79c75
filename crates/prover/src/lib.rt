//! The public face: solve a sheet at a limit, or without a named limit.
//!
//! answer   what solve gives back
//! solve    refusals, the run over all entries, what is left in the buffers
#![tactic(auto)]

pub mod answer;
pub mod solve;
