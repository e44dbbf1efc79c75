//! The builder: its state goes in by value and comes back by value, table and scratch are lent beside it. The project's rules
//! name this form, so no method takes `&mut self`.
ghost use Rattle.std.specs.Prelude.{◌≡◌, cond, ◌+◌, ◌<◌};
ghost use Rattle.meaning.specs.Diagram.{Tree};
ghost use Rattle.meaning.specs.Step.{step, quantify};
ghost use Rattle.diagram.specs.Function.{table_of};

use crate::function::Question;
use crate::number::Diagram;
use crate::scratch::Scratch;
use crate::table::{Cell, Node, Parts};
use crate::{function, table};

/// The builder's state: how many slots of the table are used.
#[derive(Clone, Copy, Debug, PartialEq, Eq)]
pub struct Builder {
    pub used: usize,
}

/// The next state of the builder, and what was made on the way to it.
#[derive(Clone, Copy)]
pub struct Made<T> {
    pub at: Builder,
    pub value: T,
}

/// The steps need more nodes than the table has slots.
#[derive(Clone, Copy, Debug, PartialEq, Eq)]
pub struct NoRoom;

impl Builder {
    ghost use Rattle.diagram.specs.State.{Ready, Known, Means, Works, Joins, chooser};

    /// The state of an empty table.
    pub fn new() -> Self
        ensures { result.used ≡ 0 }
    {
        Builder { used: 0 }
    }

    /// No step: the state stays, and this is what was made.
    pub fn still<T>(self, value: T) -> Result<Made<T>, NoRoom>
        ensures { result ≡ Ok (record { at = self; value = value }) }
    {
        Ok(Made { at: self, value })
    }

    /// The diagram of this node: found, or added. Equal halves are their own node. `NoRoom` comes where it would have to be
    /// added and every slot is used.
    pub fn node(self, t: &mut [Cell], s: &mut Scratch, node: Node) -> Result<Made<Diagram>, NoRoom>
        requires ready { Ready t.old s.old self }
        requires level { node.level < 128 }
        ensures { Joins t.old self node t.new s.new result }
    {
        if node.low == node.high {
            return Ok(Made {
                at: self,
                value: node.low,
            });
        }
        if let Some(k) = s.seek(t, self.used, node) {
            return Ok(Made {
                at: self,
                value: table::number_of(k),
            });
        }
        let used = self.used;
        let slots = table::slots(t);
        if slots <= used {
            return Err(NoRoom);
        }
        table::put(t, used, node);
        s.cover(used, node);
        Ok(Made {
            at: Builder { used: used + 1 },
            value: table::number_of(used),
        })
    }

    /// One step: the diagram of the function f of three diagrams. Low part, high part, then the node; what is there already, or
    /// is remembered, enters nothing. `NoRoom` comes exactly where that needs more nodes than there are slots.
    // function and operands stand apart, no `Question`: each caller has them apart
    pub fn step(
        self,
        t: &mut [Cell],
        s: &mut Scratch,
        f: u8,
        a: Diagram,
        b: Diagram,
        c: Diagram,
    ) -> Result<Made<Diagram>, NoRoom>
        requires ready { Ready t.old s.old self }
        requires known { Known self a × (Known self b × Known self c) }
        ensures { (x y z : Tree) → Means t.old self a x → Means t.old self b y → Means t.old self c z →
            Works Means t.old self (step 128 (table_of f) x y z) t.new s.new result }
    {
        // taken apart at once: the check refuses a function that reads a part of a question kept in a variable
        let Question { f, a, b, c } = function::shorten(Question { f, a, b, c });
        if let Some(n) = function::shortcut(Question { f, a, b, c }) {
            return Ok(Made { at: self, value: n });
        }
        let key = s.key(f as u32, a, b, c);
        if let Some(n) = s.recall(key) {
            return Ok(Made { at: self, value: n });
        }
        let Parts {
            level,
            a: x,
            b: y,
            c: z,
        } = table::parted(t, a, b, c);
        let low = self.step(t, s, f, x.low, y.low, z.low)?;
        let high = low.at.step(t, s, f, x.high, y.high, z.high)?;
        let node = Node {
            level,
            low: low.value,
            high: high.value,
        };
        let Made { at, value } = high.at.node(t, s, node)?;
        s.remember(key, value);
        Ok(Made { at, value })
    }

    /// The or (and, where `every`) of both choices at level l. `NoRoom` comes exactly where that needs more nodes than there
    /// are slots.
    pub fn quantify(
        self,
        t: &mut [Cell],
        s: &mut Scratch,
        every: bool,
        l: u32,
        n: Diagram,
    ) -> Result<Made<Diagram>, NoRoom>
        requires ready { Ready t.old s.old self }
        requires level { l < 128 }
        requires known { Known self n }
        ensures { (x : Tree) → Means t.old self n x →
            Works Means t.old self (quantify 128 (chooser every) l x) t.new s.new result }
    {
        let i = table::top(t, n);
        if l < i {
            return Ok(Made { at: self, value: n });
        }
        let halves = table::split(t, i, n);
        if i == l {
            return self.step(t, s, joined(every), halves.low, halves.high, Diagram::FALSE);
        }
        let key = s.key(code(every, l), n, Diagram::FALSE, Diagram::FALSE);
        if let Some(known) = s.recall(key) {
            return Ok(Made {
                at: self,
                value: known,
            });
        }
        let x = self.quantify(t, s, every, l, halves.low)?;
        let y = x.at.quantify(t, s, every, l, halves.high)?;
        let node = Node {
            level: i,
            low: x.value,
            high: y.value,
        };
        let Made { at, value } = y.at.node(t, s, node)?;
        s.remember(key, value);
        Ok(Made { at, value })
    }
}

// The truth table of and, of or.
fn joined(every: bool) -> u8
    ensures { result ≡ cond every 192 252 }
{
    if every { function::AND } else { function::OR }
}

// The quantifier step's number in the memo: a number and no enum, since an entry of scratch holds numbers.
fn code(every: bool, l: u32) -> u32
    requires { l < 128 }
    ensures { result ≡ cond every (384 + l) (256 + l) }
{
    if every { 384 + l } else { 256 + l }
}
