//! Diagrams in a lent table: the builder with its step and quantifier step, and the count.
//!
//! number    the number of a diagram, and the constants false, true and unknown
//! table     how a node lies in the table, and which lengths a table may have
//! function  functions of three diagrams as truth tables of eight rows
//! hash      places in scratch
//! scratch   the index by which a node is found, and the memo of steps
//! builder   find or add a node; one step; one quantifier step
//! count     the distinct nodes of some diagrams
#![tactic(auto)]

pub mod builder;
pub mod count;
pub mod function;
pub mod hash;
pub mod number;
pub mod scratch;
pub mod table;
