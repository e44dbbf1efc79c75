//! Formulas: pairs of diagrams, must and may, one function an operation, each returning a pair.
//!
//! pair      the pair; not, and, or
//! compare   equal, unsigned and signed ≤
//! quantify  exists and forall
#![tactic(auto)]

pub mod compare;
pub mod pair;
pub mod quantify;
