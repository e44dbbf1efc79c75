//! One entry: its operands' values in, its own value out.
ghost use Rattle.std.specs.Prelude.{◌≡◌, ◌*◌, ◌≤◌, List, ℕ, Ok, length, take};
ghost use Rattle.meaning.specs.Sheet.{entries};
ghost use Rattle.meaning.specs.Level.{levels};
ghost use Rattle.meaning.specs.Formula as Formula;
ghost use Rattle.meaning.specs.Run.{Value};
ghost use Rattle.diagram.specs.State.{Ready, Works};
ghost use Rattle.term.specs.Row.{RowMeans};
ghost use Rattle.formula.specs.Pair.{PairKnown, PairMeans};
ghost use Rattle.entry.specs.Entry.{OperandsHeld, OperandsMeant, IsWorked, IsRowOf, AreLevelsOf, variable_at, quantified_at};
ghost use Rattle.entry.specs.Value.{pair_in};

use crate::rows;
use diagram::builder::{Builder, Made, NoRoom};
use diagram::count::Marks;
use diagram::function;
use diagram::number::Diagram;
use diagram::scratch::Scratch;
use diagram::table::{Cell, Node};
use formula::pair::Pair;
use formula::{compare, pair, quantify};
use sheet::checked::CheckedEntry;
use sheet::kind::Kind;
use term::bitwise::Operation;
use term::row::Row;
use term::{add, bitwise, multiply};

/// The values of up to three operands.
#[derive(Clone, Copy)]
pub struct Operands {
    pub x: Row,
    pub y: Row,
    pub z: Row,
}

// A formula's value lies in the first two places. Functions and no `From`: `Row` and `Pair` are other crates' types, and what the
// places hold is this crate's own convention.
fn pair_of(value: &Row) -> Pair
    ensures { result ≡ pair_in value.now }
{
    rows::pair_at(&value.bits, 0)
}

fn row_of(p: Pair) -> Row
    ensures { pair_in result ≡ p }
{
    let mut bits = [0; 32];
    bits[0] = p.must.number();
    bits[1] = p.may.number();
    Row { bits, width: 0 }
}

// A formula's value as 32 numbers. No `From` here either, as above.
fn judged(made: Result<Made<Pair>, NoRoom>) -> Result<Made<Row>, NoRoom>
    ensures { IsRowOf made result }
{
    let Made { at, value } = made?;
    Ok(Made {
        at,
        value: row_of(value),
    })
}

// One node a bit, bit 0 first.
fn variable(
    b: Builder,
    t: &mut [Cell],
    s: &mut Scratch,
    entry: CheckedEntry,
) -> Result<Made<Row>, NoRoom>
    requires { Ready t.old s.old b }
    ensures { Works (RowMeans (levels (entries entry.entry.sheet.bytes.now))) t.old b
        (variable_at entry.entry.sheet.bytes.now entry.entry.index) t.new s.new result }
{
    let mut at = b;
    let mut bits = [0; 32];
    let width = entry.bits();
    for bit in 0..width {
        let node = Node {
            level: entry.level(bit),
            low: Diagram::FALSE,
            high: Diagram::TRUE,
        };
        let made = at.node(t, s, node)?;
        at = made.at;
        bits[bit as usize] = made.value.number();
    }
    Ok(Made {
        at,
        value: Row {
            bits,
            width: width as usize,
        },
    })
}

// The levels of a variable's bits, bit 0's first, and how many they are. An array and a number for one call: the kit's
// `ArrayVec` would come into every crate above for these few lines.
fn levels_of(variable: CheckedEntry, levels: &mut [u32; 32]) -> usize
    ensures few { result ≤ 32 }
    ensures levels { AreLevelsOf variable.entry.sheet.bytes.now variable.entry.index (take result levels.new) }
{
    let count = variable.bits();
    for bit in 0..count {
        levels[bit as usize] = variable.level(bit);
    }
    count as usize
}

// Exists, or forall where `every`, of this variable.
fn quantified(
    b: Builder,
    t: &mut [Cell],
    s: &mut Scratch,
    every: bool,
    variable: CheckedEntry,
    p: Pair,
) -> Result<Made<Pair>, NoRoom>
    requires ready { Ready t.old s.old b }
    requires known { PairKnown b p }
    ensures { (n : ℕ) (x : Formula.Pair) → n ≤ 128 → PairMeans n t.old b p x →
        Works (PairMeans n) t.old b (quantified_at variable.entry.sheet.bytes.now variable.entry.index n every x) t.new s.new result }
{
    let mut levels = [0; 32];
    let count = levels_of(variable, &mut levels);
    quantify::quantified(b, t, s, every, &levels[..count], p)
}

/// Entry i of a sheet that has passed the check. `NoRoom` comes exactly where its steps need more nodes than there are slots.
/// The marks are for 1,048,576 slots or more, those of the largest table.
pub fn work(
    b: Builder,
    t: &mut [Cell],
    s: &mut Scratch,
    marks: &mut Marks,
    limit: u32,
    entry: CheckedEntry,
    v: Operands,
) -> Result<Made<Row>, NoRoom>
    requires ready { Ready t.old s.old b }
    requires operands { OperandsHeld entry.sheet.bytes.now entry.index b v }
    ensures { (before : List Value) → length before ≡ entry.entry.index →
        OperandsMeant entry.entry.sheet.bytes.now entry.entry.index t.old b before v →
        IsWorked entry.entry.sheet.bytes.now entry.entry.index limit before t.old b t.new s.new result }
{
    let width = entry.width as usize;
    let Operands { x, y, z } = v;
    match entry.kind {
        Kind::Variable => variable(b, t, s, entry),
        Kind::Constant => b.still(Row::constant(width, entry.constant())),
        Kind::BitNot => bitwise::work(b, t, s, Operation::Not, x, x),
        Kind::Negate => multiply::negate(b, t, s, marks, limit, x),
        Kind::BitAnd => bitwise::work(b, t, s, Operation::And, x, y),
        Kind::BitOr => bitwise::work(b, t, s, Operation::Or, x, y),
        Kind::BitXor => bitwise::work(b, t, s, Operation::Xor, x, y),
        Kind::Add => add::add(b, t, s, marks, limit, x, y),
        Kind::Multiply => multiply::multiply(b, t, s, marks, limit, x, y),
        Kind::ShiftLeft => b.still(x.shift_left(entry.amount() as usize % width)),
        Kind::ShiftRight => b.still(x.shift_right(entry.amount() as usize % width)),
        Kind::Concat => b.still(x.concat(y)),
        Kind::Extract => b.still(x.extract(entry.upper() as usize, entry.lower() as usize)),
        Kind::ZeroExtend => b.still(x.zero_extend(width)),
        Kind::SignExtend => b.still(x.sign_extend(width)),
        Kind::Choose => {
            let Pair { must, may } = pair_of(&x);
            bitwise::work(b, t, s, Operation::Choose { must, may }, y, z)
        }
        Kind::True => judged(b.still(Pair::TRUE)),
        Kind::False => judged(b.still(Pair::FALSE)),
        Kind::Equal => judged(compare::equal(b, t, s, x, y)),
        Kind::AtMost => judged(compare::at_most(b, t, s, false, x, y)),
        Kind::SignedAtMost => judged(compare::at_most(b, t, s, true, x, y)),
        Kind::Not => judged(pair::negation(b, t, s, pair_of(&x))),
        Kind::And => judged(pair::both(b, t, s, function::AND, pair_of(&x), pair_of(&y))),
        Kind::Or => judged(pair::both(b, t, s, function::OR, pair_of(&x), pair_of(&y))),
        Kind::Exists => judged(quantified(b, t, s, false, entry.operand(0), pair_of(&y))),
        Kind::ForAll => judged(quantified(b, t, s, true, entry.operand(0), pair_of(&y))),
    }
}
