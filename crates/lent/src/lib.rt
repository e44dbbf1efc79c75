//! Reading any lent table, whoever filled it: what it has to pass, a diagram's value, its witness.
//!
//! refusal   what value and witness refuse, and what both look at first
//! value     a diagram's truth under an assignment
//! witness   the least assignment that a diagram accepts
#![tactic(auto)]

pub mod refusal;
pub mod value;
pub mod witness;
