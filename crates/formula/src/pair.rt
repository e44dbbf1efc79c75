//! A formula's value: must implies the formula, which implies may.
ghost use Rattle.std.specs.Prelude.{◌≡◌, ℕ, ◌≤◌};
ghost use Rattle.meaning.specs.Formula;
ghost use Rattle.diagram.specs.Function.{table_of};
ghost use Rattle.diagram.specs.State.{Ready, Works};
ghost use Rattle.formula.specs.Pair.{PairKnown, PairMeans};

use diagram::builder::{Builder, Made, NoRoom};
use diagram::function;
use diagram::number::Diagram;
use diagram::scratch::Scratch;
use diagram::table::Cell;

/// A formula's value: two diagrams.
#[derive(Clone, Copy, Debug, PartialEq, Eq)]
pub struct Pair {
    pub must: Diagram,
    pub may: Diagram,
}

impl Pair {
    /// The formula that is false.
    pub const FALSE: Pair = Pair {
        must: Diagram::FALSE,
        may: Diagram::FALSE,
    };

    /// The formula that is true.
    pub const TRUE: Pair = Pair {
        must: Diagram::TRUE,
        may: Diagram::TRUE,
    };
}

/// Must, and may as it was made last.
pub fn must_may(must: Diagram, may: Made<Diagram>) -> Made<Pair>
    ensures { result ≡ record { at = may.at; value = record { must = must; may = may.value } } }
{
    Made {
        at: may.at,
        value: Pair {
            must,
            may: may.value,
        },
    }
}

/// And, or, or another function by its truth table f: must's step, then may's. `NoRoom` comes exactly where these need more
/// nodes than there are slots.
pub fn both(
    b: Builder,
    t: &mut [Cell],
    s: &mut Scratch,
    f: u8,
    p: Pair,
    q: Pair,
) -> Result<Made<Pair>, NoRoom>
    requires ready { Ready t.old s.old b }
    requires known { PairKnown b p × PairKnown b q }
    ensures { (n : ℕ) (x y : Formula.Pair) → n ≤ 128 → PairMeans n t.old b p x → PairMeans n t.old b q y →
        Works (PairMeans n) t.old b (Formula.both n (table_of f) x y) t.new s.new result }
{
    let must = b.step(t, s, f, p.must, q.must, Diagram::FALSE)?;
    let may = must.at.step(t, s, f, p.may, q.may, Diagram::FALSE)?;
    Ok(must_may(must.value, may))
}

/// Not: must is not may, may is not must, in this order. `NoRoom` as of `both`.
pub fn negation(b: Builder, t: &mut [Cell], s: &mut Scratch, p: Pair) -> Result<Made<Pair>, NoRoom>
    requires ready { Ready t.old s.old b }
    requires known { PairKnown b p }
    ensures { (n : ℕ) (x : Formula.Pair) → n ≤ 128 → PairMeans n t.old b p x →
        Works (PairMeans n) t.old b (Formula.negation n x) t.new s.new result }
{
    let opposite = Pair {
        must: p.may,
        may: p.must,
    };
    both(b, t, s, function::NOT, opposite, Pair::FALSE)
}
