//! What the program prints: the listing of an answer, on a page; and how it reads its input.
#![tactic(auto)]

pub mod answer;
pub mod input;
pub mod lines;
pub mod program;
pub mod text;
pub mod value;
