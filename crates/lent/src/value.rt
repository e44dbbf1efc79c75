//! Value: a diagram's truth under an assignment, and how many nodes are passed on the way. Nothing is written.
ghost use Rattle.std.specs.Prelude.{◌≡◌, not, cond, eqb, length};
ghost use Rattle.meaning.specs.Check.{refuse};
ghost use Rattle.meaning.specs.Value.{are_bits, value};
ghost use Rattle.lent.specs.Followed.{Followed};
ghost use Rattle.lent.specs.Refusal.{outcome};
ghost use Rattle.lent.specs.Value.{told, valued};

use crate::refusal;
use crate::refusal::Refusal;
use diagram::number::Diagram;
use diagram::table;
use diagram::table::{Cell, Node};

/// A diagram's truth, and the number of nodes passed on the way, at most 128.
#[derive(Clone, Copy, Debug, PartialEq, Eq)]
pub struct Valued {
    pub bit: bool,
    pub passed: u32,
}

// Is every byte 0 or 1?
fn are_bits(a: &[u8]) -> bool
    ensures { result ≡ are_bits a.now }
{
    a.iter().all(|byte| *byte < 2)
}

// Looks at the assignment's bytes: `Byte`.
fn check_bits(a: &[u8]) -> Result<(), Refusal>
    ensures { outcome result ≡ refuse 14 (not (are_bits a.now)) 0 }
{
    if !are_bits(a) {
        return Err(Refusal::Byte);
    }
    Ok(())
}

// The part of a node that the level's byte chooses.
fn chosen(node: Node, byte: u8) -> Diagram
    ensures { result ≡ cond (eqb byte 1) node.high node.low }
{
    if byte == 1 { node.high } else { node.low }
}

// From diagram n down to a terminal.
#[tactic(auto, using(crate::proofs::Laws::Followed::followed_inside, crate::proofs::Laws::Value::step_less, crate::proofs::Laws::Value::way_level))]
fn walk(t: &[Cell], n: Diagram, a: &[u8]) -> Valued
    requires follows { Followed t.now n }
    requires long { length a.now ≡ 128 }
    ensures { result ≡ told t.now n a.now }
{
    let mut at = n;
    let mut passed = 0;
    // A `while`: how many nodes lie on the way is known only at its end.
    while !at.is_terminal() {
        let node = table::node_at(t, table::slot_of(at));
        passed += 1;
        at = chosen(node, a[node.level as usize]);
    }
    Valued {
        bit: at == Diagram::TRUE,
        passed,
    }
}

/// The truth of diagram n under the assignment a, one byte a level, and the number of nodes passed. The error is the first
/// of these that is there: `Table`, `Assignment`, `Byte`, `Nodes`, `Number`.
#[tactic(auto, using(crate::proofs::Laws::Value::value_answered))]
pub fn value(t: &[Cell], used: u32, n: Diagram, a: &[u8]) -> Result<Valued, Refusal>
    ensures { valued result ≡ value t.now used n a.now }
{
    refusal::check_buffers(t, a.len())?;
    check_bits(a)?;
    refusal::check_diagram(t, used, n)?;
    Ok(walk(t, n, a))
}
