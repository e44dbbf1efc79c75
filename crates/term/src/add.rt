//! Addition at a limit, a place at a time: bit 0 first. Where an operand bit is unknown, or the sum bits up to here have more nodes
//! than the limit, the bits from there on are unknown.
ghost use Rattle.std.specs.Prelude.{◌≡◌, ◌*◌, ◌≤◌, length};
ghost use Rattle.meaning.specs.Row as Definition;
ghost use Rattle.diagram.specs.State.{Ready, Known};
ghost use Rattle.term.specs.Row.{BitKnown};
ghost use Rattle.term.specs.Add.{Sums, Carries, Clears, Countable, Told, Summing, Places, Tallying};
ghost use Rattle.term.specs.Add.{Addable, OnRows};

use crate::row::Row;
use diagram::builder::{Builder, Made, NoRoom};
use diagram::count::Marks;
use diagram::number::Diagram;
use diagram::scratch::Scratch;
use diagram::table::Cell;
use diagram::{function, table};

// a xor b, and the sum bit.
#[derive(Clone, Copy)]
struct Summed {
    half: Diagram,
    sum: Diagram,
}

// What is counted of a sum: the nodes of its first `bits` sum bits are marked, and there are `nodes` of them.
#[derive(Clone, Copy)]
struct Tally {
    bits: usize,
    nodes: usize,
}

// A sum so far: the sum bits, how many they are, the carry into the next, and what is counted. Array and count stand side by side,
// as in the row that they become: 32 numbers by value, copied as they are.
#[derive(Clone, Copy)]
struct Sum {
    bits: [u32; 32],
    count: usize,
    carry: Diagram,
    tally: Tally,
}

impl Sum {
    // The sum as a row.
    fn row(self, width: usize) -> Row
        ensures { result ≡ record { bits = self.bits; width = width } }
    {
        let bits = self.bits;
        Row { bits, width }
    }
}

// a xor b, then that xor the carry.
fn sum_bit(
    b: Builder,
    t: &mut [Cell],
    s: &mut Scratch,
    x: Diagram,
    y: Diagram,
    carry: Diagram,
) -> Result<Made<Summed>, NoRoom>
    requires ready { Ready t.old s.old b }
    requires known { Known b x × (Known b y × Known b carry) }
    ensures { Sums t.old b x y carry t.new s.new result }
{
    let half = b.step(t, s, function::XOR, x, y, Diagram::FALSE)?;
    let sum = half
        .at
        .step(t, s, function::XOR, half.value, carry, Diagram::FALSE)?;
    Ok(Made {
        at: sum.at,
        value: Summed {
            half: half.value,
            sum: sum.value,
        },
    })
}

// The next carry, unless this bit is the top: a and b, then (a xor b) and carry, then the or of the two.
fn carry_bit(
    b: Builder,
    t: &mut [Cell],
    s: &mut Scratch,
    half: Diagram,
    x: Diagram,
    y: Diagram,
    carry: Diagram,
    top: bool,
) -> Result<Made<Diagram>, NoRoom>
    requires ready { Ready t.old s.old b }
    requires known { Known b half × (Known b x × (Known b y × Known b carry)) }
    ensures { Carries t.old b half x y carry top t.new s.new result }
{
    if top {
        return Ok(Made {
            at: b,
            value: carry,
        });
    }
    let made = b.step(t, s, function::AND, x, y, Diagram::FALSE)?;
    let passed = made
        .at
        .step(t, s, function::AND, half, carry, Diagram::FALSE)?;
    passed.at.step(t, s, function::OR, made.value, passed.value, Diagram::FALSE)
}

// Before the first sum bit is counted nothing is marked, not even a slot that is used only later.
fn clear(t: &[Cell], marks: &mut Marks, counted: usize)
    requires small { length t.now ≤ 3145728 }
    ensures { Clears t.now counted marks.old.words.now marks.new.words.now }
{
    let counts_some = 0 < counted;
    if counts_some {
        return;
    }
    marks.clear(table::slots(t));
}

// Counts the distinct nodes of sum bits 0 to k - 1, those of the first bits being counted before. While no more slots
// are used than the limit, the nodes can't exceed it, and none is counted.
fn walk(
    b: Builder,
    t: &[Cell],
    marks: &mut Marks,
    limit: u32,
    bits: [u32; 32],
    k: usize,
    before: Tally,
) -> Tally
    requires countable { Countable t.now marks.old.words.now b limit bits k before }
    ensures { Told t.now marks.new.words.now b limit bits k result }
{
    if b.used <= limit as usize {
        return before;
    }
    clear(t, marks, before.bits);
    let mut nodes = before.nodes;
    for i in before.bits..k {
        nodes = marks.visit(t, Diagram::new(bits[i]), nodes, limit);
    }
    Tally { bits: k, nodes }
}

// One place more, of operand bits x and y. None where one is unknown, or there are too many nodes: the bits from there on
// are unknown.
fn place(
    b: Builder,
    t: &mut [Cell],
    s: &mut Scratch,
    marks: &mut Marks,
    limit: u32,
    sum: Sum,
    x: Diagram,
    y: Diagram,
    top: bool,
) -> Result<Made<Option<Sum>>, NoRoom>
    requires summing { Summing t.old s.old marks.old.words.now b limit sum }
    requires known { BitKnown b x × BitKnown b y }
    ensures place { Places limit t.old b sum x y top t.new s.new result }
    ensures tally { Tallying t.new marks.new.words.now limit result }
{
    // the bits from here on are unknown
    let cut: Option<Sum> = None;
    if x == Diagram::UNKNOWN {
        return Ok(Made { at: b, value: cut });
    }
    if y == Diagram::UNKNOWN {
        return Ok(Made { at: b, value: cut });
    }
    let made = sum_bit(b, t, s, x, y, sum.carry)?;
    let at = made.at;
    let summed = made.value;
    let i = sum.count;
    let mut bits = sum.bits;
    bits[i] = summed.sum.number();
    let tally = walk(at, t, marks, limit, bits, i + 1, sum.tally);
    let too_many = (limit as usize) < tally.nodes;
    if too_many {
        return Ok(Made { at, value: cut });
    }
    let next = carry_bit(at, t, s, summed.half, x, y, sum.carry, top)?;
    Ok(Made {
        at: next.at,
        value: Some(Sum {
            bits,
            count: i + 1,
            carry: next.value,
            tally,
        }),
    })
}

/// The sum of two rows of one width at the limit; the carry into bit 0 is false. The limit is a count of nodes: a bit is unknown from
/// where the sum bits up to it have more. `NoRoom` comes exactly where the steps need more nodes than the table has slots.
/// The marks are for 1,048,576 slots or more, those of the largest table.
// Marks and limit stand apart: lent as one, each function here would have to promise that the limit stays as it was.
pub fn add(
    b: Builder,
    t: &mut [Cell],
    s: &mut Scratch,
    marks: &mut Marks,
    limit: u32,
    x: Row,
    y: Row,
) -> Result<Made<Row>, NoRoom>
    requires addable { Addable t.old s.old b x y }
    ensures { OnRows (λ n. Definition.add n limit) x y t.old b t.new s.new result }
{
    let width = x.width;
    let mut at = b;
    let mut sum = Sum {
        bits: [Diagram::UNKNOWN.number(); 32],
        count: 0,
        carry: Diagram::FALSE,
        tally: Tally { bits: 0, nodes: 0 },
    };
    for i in 0..width {
        // a copy goes in: where the place is cut, `sum` is what there is
        let so_far = sum;
        let placed = place(
            at,
            t,
            s,
            marks,
            limit,
            so_far,
            x.place(i),
            y.place(i),
            i + 1 == width,
        )?;
        at = placed.at;
        let more = placed.value;
        let Some(next) = more else {
            return Ok(Made {
                at,
                value: sum.row(width),
            });
        };
        sum = next;
    }
    Ok(Made {
        at,
        value: sum.row(width),
    })
}
