//! How a node lies in the table: only the functions here know.
ghost use Rattle.std.specs.Prelude.{◌≡◌, ◌+◌, ◌-◌, ◌*◌, ◌/◌, ◌<◌, ◌≤◌, ◌++◌, length, take, replicate};
ghost use Rattle.meaning.specs.Lent.{node_at};
ghost use Rattle.meaning.specs.Solve.{bad_table};
ghost use Rattle.diagram.specs.Table.{Inside, Readable, placed, top_of, node_of, halves_of, parts_of};

use crate::number::Diagram;

/// A number of the table, as it lies in memory.
pub type Cell = u32;

/// How many levels there can be; also the level of a terminal, below all of them.
pub const LEVELS: u32 = 128;

const MAX_CELLS: usize = 3145728;

/// A node: its level, and the diagrams that are left where the level's bit is 0 and where it is 1.
#[derive(Clone, Copy, Debug, PartialEq, Eq)]
pub struct Node {
    pub level: u32,
    pub low: Diagram,
    pub high: Diagram,
}

/// A diagram with 0 and with 1 at some level.
#[derive(Clone, Copy, Debug, PartialEq, Eq)]
pub struct Halves {
    pub low: Diagram,
    pub high: Diagram,
}

/// The lowest level of three diagrams, and their halves there.
#[derive(Clone, Copy, Debug, PartialEq, Eq)]
pub struct Parts {
    pub level: u32,
    pub a: Halves,
    pub b: Halves,
    pub c: Halves,
}

/// Is the table's length no multiple of 3, or above 3,145,728?
pub fn bad_length(t: &[Cell]) -> bool
    ensures { result ≡ bad_table (length t.now) }
{
    t.len() % 3 != 0 || MAX_CELLS < t.len()
}

/// How many nodes a table has room for.
pub fn slots(t: &[Cell]) -> usize
    ensures { result ≡ length t.now / 3 }
{
    t.len() / 3
}

/// The diagram of slot k's node.
pub fn number_of(k: usize) -> Diagram
    requires { k < 1048576 }
    ensures { result ≡ k + 2 }
{
    Diagram::new((k + 2) as u32)
}

/// The slot of a diagram's node.
pub fn slot_of(n: Diagram) -> usize
    requires { 2 ≤ n }
    ensures { result ≡ n - 2 }
{
    (n.number() - 2) as usize
}

/// Slot k's node.
pub fn node_at(t: &[Cell], k: usize) -> Node
    requires { Inside t.now k }
    ensures { result ≡ node_of (node_at t.now k) }
{
    Node {
        level: t[3 * k],
        low: Diagram::new(t[3 * k + 1]),
        high: Diagram::new(t[3 * k + 2]),
    }
}

/// A node into slot k.
pub fn put(t: &mut [Cell], k: usize, node: Node)
    requires { Inside t.old k }
    ensures { t.new ≡ placed t.old k node.level node.low node.high }
{
    t[3 * k] = node.level;
    t[3 * k + 1] = node.low.number();
    t[3 * k + 2] = node.high.number();
}

/// The cells behind the first `used` nodes become 0.
pub fn clear_behind(t: &mut [Cell], used: usize)
    requires { 3 * used ≤ length t.old }
    ensures { t.new ≡ take (3 * used) t.old ++ replicate (length t.old - 3 * used) 0 }
{
    t[3 * used..].fill(0);
}

/// Diagram n's level; `LEVELS` for a terminal.
pub fn top(t: &[Cell], n: Diagram) -> u32
    requires { Readable t.now n }
    ensures { result ≡ top_of t.now n }
{
    if n.is_terminal() {
        return LEVELS;
    }
    node_at(t, slot_of(n)).level
}

/// Diagram n with 0 and with 1 at level l, where it has no level below l. A diagram that doesn't look at l is its own half.
pub fn split(t: &[Cell], l: u32, n: Diagram) -> Halves
    requires { Readable t.now n }
    ensures { result ≡ halves_of t.now l n }
{
    if n.is_terminal() {
        return Halves { low: n, high: n };
    }
    let node = node_at(t, slot_of(n));
    if node.level != l {
        return Halves { low: n, high: n };
    }
    Halves {
        low: node.low,
        high: node.high,
    }
}

/// The lowest level of three diagrams, and their halves there.
pub fn parted(t: &[Cell], a: Diagram, b: Diagram, c: Diagram) -> Parts
    requires { Readable t.now a × (Readable t.now b × Readable t.now c) }
    ensures { result ≡ parts_of t.now a b c }
{
    let level = top(t, a).min(top(t, b).min(top(t, c)));
    Parts {
        level,
        a: split(t, level, a),
        b: split(t, level, b),
        c: split(t, level, c),
    }
}
