//! A lent table: any numbers at all. What has to be seen before a diagram of it is followed.
ghost use Rattle.std.specs.Prelude.{◌≡◌, ◌-◌, ◌<◌, ◌≤◌, length, OnOk, Some};
ghost use Rattle.meaning.specs.Lent.{node_at, sound_child, sound_node, bad_nodes};
ghost use Rattle.diagram.specs.Table.{Inside};
ghost use Rattle.lent.specs.Followed.{Followed};
ghost use Rattle.lent.specs.Refusal.{number_of, text_of, outcome, buffers_refusal, diagram_refusal};

use diagram::number::Diagram;
use diagram::table;
use diagram::table::{Cell, LEVELS};
use std::error::Error;
use std::fmt;

/// Why value or witness refuses.
#[derive(Clone, Copy, Debug, PartialEq, Eq)]
pub enum Refusal {
    /// 9: the table's length is no multiple of 3, or above 3,145,728 numbers.
    Table,
    /// 12: more used nodes than the table has room for, or a used node that can't be followed.
    Nodes,
    /// 13: the assignment isn't 128 bytes long.
    Assignment,
    /// 14: a byte of the assignment is neither 0 nor 1.
    Byte,
    /// 15: the witness of false, which accepts nothing.
    False,
    /// 16: the diagram's number is neither 0 nor 1 nor a used node's.
    Number,
}

/// A refusal's number.
impl From<Refusal> for u32 {
    ghost from_gives = { λ refusal number. number ≡ number_of refusal };

    fn from(refusal: Refusal) -> u32 {
        match refusal {
            Refusal::Table => 9,
            Refusal::Nodes => 12,
            Refusal::Assignment => 13,
            Refusal::Byte => 14,
            Refusal::False => 15,
            Refusal::Number => 16,
        }
    }
}

impl fmt::Display for Refusal {
    ghost output = { λ refusal. Some (text_of refusal) };

    fn fmt<W: fmt::Write>(&self, f: &mut fmt::Formatter<W>) -> fmt::Result {
        f.write_str(match self {
            Refusal::Table => "the table's length is no multiple of 3, or too large",
            Refusal::Nodes =>
                "there are more used nodes than the table has room for, or one of them can't be followed",
            Refusal::Assignment => "the assignment isn't 128 bytes long",
            Refusal::Byte => "a byte of the assignment is neither 0 nor 1",
            Refusal::False => "no assignment makes false true",
            Refusal::Number => "no diagram has this number",
        })
    }
}

impl Error for Refusal {}

// A child of node number n at this level: below it in number and, if it is a node, of a higher level.
fn sound_child(t: &[Cell], n: Diagram, level: u32, child: Diagram) -> bool
    requires node { 2 ≤ n }
    requires inside { Inside t.now (n - 2) }
    ensures { result ≡ sound_child t.now n level child }
{
    child.number() < n.number()
        && (child.is_terminal() || level < table::node_at(t, table::slot_of(child)).level)
}

// Slot k: the level, both children, and that they differ.
fn sound_node(t: &[Cell], k: usize) -> bool
    requires inside { Inside t.now k }
    requires slot { k < 1048576 }
    ensures { result ≡ sound_node t.now k (node_at t.now k) }
{
    let n = table::number_of(k);
    let node = table::node_at(t, k);
    node.level < LEVELS
        && sound_child(t, n, node.level, node.low)
        && sound_child(t, n, node.level, node.high)
        && node.low != node.high
}

// Are there more used nodes than slots, or is one of them not sound?
#[tactic(auto, using(crate::proofs::Laws::Refusal::unsound), unfolding(meaning::specs::Lent::bad_nodes))]
fn bad_nodes(t: &[Cell], used: u32) -> bool
    requires { length t.now ≤ 3145728 }
    ensures { result ≡ bad_nodes t.now used }
{
    let end = used as usize;
    if table::slots(t) < end {
        return true;
    }
    for k in 0..end {
        if !sound_node(t, k) {
            return true;
        }
    }
    false
}

/// Looks at the table's length and the assignment's: `Table`, then `Assignment`.
#[tactic(auto, unfolding(crate::specs::Refusal::buffers_refusal))]
pub fn check_buffers(t: &[Cell], bytes: usize) -> Result<(), Refusal>
    ensures number { outcome result ≡ buffers_refusal (length t.now) bytes }
    ensures table { OnOk result (length t.now ≤ 3145728) }
    ensures assignment { OnOk result (bytes ≡ 128) }
{
    if table::bad_length(t) {
        return Err(Refusal::Table);
    }
    if bytes != LEVELS as usize {
        return Err(Refusal::Assignment);
    }
    Ok(())
}

/// Looks at the used nodes and at a diagram's number: `Nodes`, then `Number`.
#[tactic(auto, using(crate::proofs::Laws::Refusal::nodes_few), unfolding(crate::specs::Refusal::diagram_refusal))]
pub fn check_diagram(t: &[Cell], used: u32, n: Diagram) -> Result<(), Refusal>
    requires { length t.now ≤ 3145728 }
    ensures number { outcome result ≡ diagram_refusal t.now used n }
    ensures follows { OnOk result (Followed t.now n) }
{
    if bad_nodes(t, used) {
        return Err(Refusal::Nodes);
    }
    let beyond = used + 1 < n.number();
    if beyond {
        return Err(Refusal::Number);
    }
    Ok(())
}
