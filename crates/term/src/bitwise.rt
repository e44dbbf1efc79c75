//! The operations that go place by place, bit 0 first, one step a bit.
ghost use Rattle.std.specs.Prelude.{◌≡◌, ℕ, ◌<◌, ◌≤◌, Ok};
ghost use Rattle.meaning.specs.Diagram.{Tree};
ghost use Rattle.meaning.specs.Row as Definition;
ghost use Rattle.meaning.specs.Row.{Bit, known, pair_bit, chosen, choose_bit, both_bits};
ghost use Rattle.diagram.specs.Function.{table_of};
ghost use Rattle.diagram.specs.State.{Ready, Known, Works};
ghost use Rattle.term.specs.Row.{BitKnown, BitMeans, RowKnown, RowMeans};
ghost use Rattle.term.specs.Bit.{bit_of, decides, decided_of, Under, UnderKnown};

use crate::row::Row;
use diagram::builder::{Builder, Made, NoRoom};
use diagram::function;
use diagram::number::Diagram;
use diagram::scratch::Scratch;
use diagram::table::Cell;

/// What is done with each pair of bits; not looks at the first alone. If-then-else takes the first bit where its condition
/// holds, and the condition has two diagrams, must and may.
#[derive(Clone, Copy, Debug, PartialEq, Eq)]
pub enum Operation {
    Not,
    And,
    Or,
    Xor,
    Choose { must: Diagram, may: Diagram },
}

// A known bit where it alone decides, else unknown.
fn decided(a: Diagram, decider: Option<bool>) -> Diagram
    ensures { result ≡ decided_of a decider }
{
    match decider {
        Some(value) if a.number() == value as u32 => a,
        _ => Diagram::UNKNOWN,
    }
}

// Two bits of and, or, xor.
fn pair_bit(
    b: Builder,
    t: &mut [Cell],
    s: &mut Scratch,
    f: u8,
    decider: Option<bool>,
    x: Diagram,
    y: Diagram,
) -> Result<Made<Diagram>, NoRoom>
    requires ready { Ready t.old s.old b }
    requires known { BitKnown b x × BitKnown b y }
    ensures { (n : ℕ) (p q : Bit) → n ≤ 128 → BitMeans n t.old b x p → BitMeans n t.old b y q →
        Works (BitMeans n) t.old b (pair_bit n (table_of f) (decides decider) p q) t.new s.new result }
{
    if x == Diagram::UNKNOWN {
        return b.still(decided(y, decider));
    }
    if y == Diagram::UNKNOWN {
        return b.still(decided(x, decider));
    }
    b.step(t, s, f, x, y, Diagram::FALSE)
}

// Two bits under a condition of one diagram.
fn chosen(
    b: Builder,
    t: &mut [Cell],
    s: &mut Scratch,
    condition: Diagram,
    x: Diagram,
    y: Diagram,
) -> Result<Made<Diagram>, NoRoom>
    requires ready { Ready t.old s.old b }
    requires condition { Known b condition }
    requires known { BitKnown b x × BitKnown b y }
    ensures { (n : ℕ) (c : Tree) (p q : Bit) → n ≤ 128 → BitMeans n t.old b condition (known c) →
        BitMeans n t.old b x p → BitMeans n t.old b y q →
        Works (BitMeans n) t.old b (chosen n c p q) t.new s.new result }
{
    if condition == Diagram::TRUE {
        return b.still(x);
    }
    if condition == Diagram::FALSE {
        return b.still(y);
    }
    if x == Diagram::UNKNOWN {
        return b.still(x);
    }
    if y == Diagram::UNKNOWN {
        return b.still(y);
    }
    b.step(t, s, function::CHOICE, condition, x, y)
}

// Two bits under a condition whose must and may are these.
fn choose_bit(
    b: Builder,
    t: &mut [Cell],
    s: &mut Scratch,
    must: Diagram,
    may: Diagram,
    x: Diagram,
    y: Diagram,
) -> Result<Made<Diagram>, NoRoom>
    requires ready { Ready t.old s.old b }
    requires condition { Known b must }
    requires known { BitKnown b x × BitKnown b y }
    ensures { (n : ℕ) (c d : Tree) (p q : Bit) → n ≤ 128 → BitMeans n t.old b must (known c) → BitMeans n t.old b may (known d) →
        BitMeans n t.old b x p → BitMeans n t.old b y q →
        Works (BitMeans n) t.old b (choose_bit n c d p q) t.new s.new result }
{
    if x == y {
        return b.still(x);
    }
    if must == may {
        return chosen(b, t, s, must, x, y);
    }
    b.still(Diagram::UNKNOWN)
}

// One bit of an operation. A `match` on a value, no closure: one for each operation would take the state, table and scratch as
// its arguments and repeat this contract, so it is no plainer. The operation is lent: what holds a diagram isn't copied in a loop.
fn bit(
    b: Builder,
    t: &mut [Cell],
    s: &mut Scratch,
    op: &Operation,
    x: Diagram,
    y: Diagram,
) -> Result<Made<Diagram>, NoRoom>
    requires ready { Ready t.old s.old b }
    requires condition { UnderKnown b op.now }
    requires known { BitKnown b x × BitKnown b y }
    ensures { (n : ℕ) (must may : Tree) (p q : Bit) → n ≤ 128 → Under n t.old b op.now must may →
        BitMeans n t.old b x p → BitMeans n t.old b y q →
        Works (BitMeans n) t.old b (bit_of n op.now must may p q) t.new s.new result }
{
    match *op {
        Operation::Not => {
            if x == Diagram::UNKNOWN {
                return b.still(x);
            }
            b.step(t, s, function::NOT, x, Diagram::FALSE, Diagram::FALSE)
        }
        Operation::And => pair_bit(b, t, s, function::AND, Some(false), x, y),
        Operation::Or => pair_bit(b, t, s, function::OR, Some(true), x, y),
        Operation::Xor => pair_bit(b, t, s, function::XOR, None, x, y),
        Operation::Choose { must, may } => choose_bit(b, t, s, must, may, x, y),
    }
}

/// The operation on each pair of bits of two rows of one width, bit 0 first; not is of `x` alone. `NoRoom` comes exactly where
/// the steps need more nodes than the table has slots.
pub fn work(
    b: Builder,
    t: &mut [Cell],
    s: &mut Scratch,
    op: Operation,
    x: Row,
    y: Row,
) -> Result<Made<Row>, NoRoom>
    requires ready { Ready t.old s.old b }
    requires condition { UnderKnown b op }
    requires known { RowKnown b x × RowKnown b y }
    requires width { x.width ≡ y.width }
    ensures { (n : ℕ) (must may : Tree) (q r : Definition.Row) → n ≤ 128 → Under n t.old b op must may →
        RowMeans n t.old b x q → RowMeans n t.old b y r →
        Works (RowMeans n) t.old b (both_bits (bit_of n op must may) q r) t.new s.new result }
{
    let width = x.width;
    let mut at = b;
    let mut bits = [0u32; 32];
    for i in 0..width {
        let made = bit(at, t, s, &op, x.place(i), y.place(i))?;
        at = made.at;
        bits[i] = made.value.number();
    }
    Ok(Made {
        at,
        value: Row { bits, width },
    })
}
