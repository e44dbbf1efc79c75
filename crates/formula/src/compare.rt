//! Equal, unsigned ≤ and signed ≤ of two rows of one width.
ghost use Rattle.std.specs.Prelude.{◌≡◌, true, cond, not, ◌&&◌, ℕ, ◌+◌, ◌≤◌, ◌<◌, ◌≢◌, ◌↔◌, IsTrue, All};
ghost use Rattle.meaning.specs.Diagram.{leaf};
ghost use Rattle.meaning.specs.Row as Meaning;
ghost use Rattle.meaning.specs.Formula;
ghost use Rattle.diagram.specs.State.{Ready, Known, Works};
ghost use Rattle.term.specs.Row.{BitKnown, RowKnown, RowMeans, mark, places};
ghost use Rattle.formula.specs.Compare.{Turns, agree_bit, order_bit, read_of, top_of};
ghost use Rattle.formula.specs.Pair.{TreeMeans, PairMeans};

use crate::pair::{Pair, must_may};
use diagram::builder::{Builder, Made, NoRoom};
use diagram::function;
use diagram::number::Diagram;
use diagram::scratch::Scratch;
use diagram::table::Cell;
use term::row::Row;

// One bit: where both are known, "the bits agree", then the conjunction so far with it.
fn agree_bit(
    b: Builder,
    t: &mut [Cell],
    s: &mut Scratch,
    x: Diagram,
    y: Diagram,
    r: Diagram,
) -> Result<Made<Diagram>, NoRoom>
    requires ready { Ready t.old s.old b }
    requires bits { BitKnown b x × BitKnown b y }
    requires known { Known b r }
    ensures { Turns agree_bit t.old b x y r t.new s.new result }
{
    if x == Diagram::UNKNOWN {
        return Ok(Made { at: b, value: r });
    }
    let unknown = y == Diagram::UNKNOWN;
    if unknown {
        return Ok(Made { at: b, value: r });
    }
    let agree = b.step(t, s, function::AGREE, x, y, Diagram::FALSE)?;
    agree
        .at
        .step(t, s, function::AND, r, agree.value, Diagram::FALSE)
}

// The conjunction, from bit 0 on, of "the bits agree" where both are known. Two rows and no type for a pair of one width: each pair is
// made for one call, and what is known of its numbers depends on the builder's state. One function for this loop and `chain`'s would take
// the turn as a closure: its contract, over every table and scratch that a turn meets, would be longer than both loops.
fn agreement(
    b: Builder,
    t: &mut [Cell],
    s: &mut Scratch,
    x: Row,
    y: Row,
) -> Result<Made<Diagram>, NoRoom>
    requires ready { Ready t.old s.old b }
    requires known { RowKnown b x × RowKnown b y }
    requires same_width { x.width ≡ y.width }
    ensures { (n : ℕ) (p q : Meaning.Row) → n ≤ 128 → RowMeans n t.old b x p → RowMeans n t.old b y q →
        Works (TreeMeans n) t.old b (Formula.equal_from n (leaf true) p q) t.new s.new result }
{
    let mut so_far = Made {
        at: b,
        value: Diagram::TRUE,
    };
    for i in 0..x.width {
        so_far = agree_bit(so_far.at, t, s, x.place(i), y.place(i), so_far.value)?;
    }
    Ok(so_far)
}

// Is no bit unknown?
fn sure(x: Row) -> bool
    requires { x.width ≤ 32 }
    ensures { IsTrue result ↔ All (λ a. a ≢ mark) (places x) }
{
    x.bits[..x.width]
        .iter()
        .all(|bit| Diagram::new(*bit) != Diagram::UNKNOWN)
}

// May if both rows are sure, else false.
fn kept(x: bool, y: bool, may: Diagram) -> Diagram
    ensures { result ≡ cond (x && y) may 0 }
{
    if x && y { may } else { Diagram::FALSE }
}

/// May is the conjunction; must is the same if no bit was unknown, else false. `NoRoom` comes exactly where its steps need more
/// nodes than there are slots.
pub fn equal(
    b: Builder,
    t: &mut [Cell],
    s: &mut Scratch,
    x: Row,
    y: Row,
) -> Result<Made<Pair>, NoRoom>
    requires ready { Ready t.old s.old b }
    requires known { RowKnown b x × RowKnown b y }
    requires same_width { x.width ≡ y.width }
    ensures { (n : ℕ) (p q : Meaning.Row) → n ≤ 128 → RowMeans n t.old b x p → RowMeans n t.old b y q →
        Works (PairMeans n) t.old b (Formula.equal n p q) t.new s.new result }
{
    let may = agreement(b, t, s, x, y)?;
    let must = kept(sure(x), sure(y), may.value);
    Ok(must_may(must, may))
}

// A bit, where an unknown one is read as z.
fn read(z: bool, a: Diagram) -> Diagram
    ensures { result ≡ read_of z a }
{
    if a != Diagram::UNKNOWN {
        a
    } else if z {
        Diagram::TRUE
    } else {
        Diagram::FALSE
    }
}

// The truth table of one bit of the chain.
fn order(top: bool) -> u8
    ensures { result ≡ cond top 178 142 }
{
    if top {
        function::SIGNED_TOP
    } else {
        function::LESS
    }
}

// One bit of the chain, after r. At the top bit of a signed number an unknown bit is read the other way round.
fn chain_bit(
    b: Builder,
    t: &mut [Cell],
    s: &mut Scratch,
    top: bool,
    z: bool,
    x: Diagram,
    y: Diagram,
    r: Diagram,
) -> Result<Made<Diagram>, NoRoom>
    requires ready { Ready t.old s.old b }
    requires bits { BitKnown b x × BitKnown b y }
    requires known { Known b r }
    ensures { Turns (order_bit top z) t.old b x y r t.new s.new result }
{
    let one = z != top;
    b.step(t, s, order(top), read(one, x), read(!one, y), r)
}

// Is bit i the top bit of a signed number?
fn is_top(signed: bool, i: usize, width: usize) -> bool
    requires { i < width }
    ensures { result ≡ top_of signed i width }
{
    signed && i + 1 == width
}

// The chain from bit 0 on: an unknown bit of x is read as z, one of y as its opposite.
fn chain(
    b: Builder,
    t: &mut [Cell],
    s: &mut Scratch,
    signed: bool,
    z: bool,
    x: Row,
    y: Row,
) -> Result<Made<Diagram>, NoRoom>
    requires ready { Ready t.old s.old b }
    requires known { RowKnown b x × RowKnown b y }
    requires same_width { x.width ≡ y.width }
    ensures { (n : ℕ) (p q : Meaning.Row) → n ≤ 128 → RowMeans n t.old b x p → RowMeans n t.old b y q →
        Works (TreeMeans n) t.old b (Formula.chain n signed z (leaf true) p q) t.new s.new result }
{
    let mut so_far = Made {
        at: b,
        value: Diagram::TRUE,
    };
    for i in 0..x.width {
        let top = is_top(signed, i, x.width);
        so_far = chain_bit(
            so_far.at,
            t,
            s,
            top,
            z,
            x.place(i),
            y.place(i),
            so_far.value,
        )?;
    }
    Ok(so_far)
}

/// Unsigned ≤, or signed ≤ where `signed`. For must an unknown bit of x is read as 1, for may as 0; the must chain is entered
/// whole before the may chain. `NoRoom` comes exactly where they need more nodes than there are slots.
pub fn at_most(
    b: Builder,
    t: &mut [Cell],
    s: &mut Scratch,
    signed: bool,
    x: Row,
    y: Row,
) -> Result<Made<Pair>, NoRoom>
    requires ready { Ready t.old s.old b }
    requires known { RowKnown b x × RowKnown b y }
    requires same_width { x.width ≡ y.width }
    ensures { (n : ℕ) (p q : Meaning.Row) → n ≤ 128 → RowMeans n t.old b x p → RowMeans n t.old b y q →
        Works (PairMeans n) t.old b (Formula.at_most n signed p q) t.new s.new result }
{
    let must = chain(b, t, s, signed, true, x, y)?;
    let may = chain(must.at, t, s, signed, false, x, y)?;
    Ok(must_may(must.value, may))
}
