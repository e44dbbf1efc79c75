//! Exists and forall: one step a bit, from the top bit down.
ghost use Rattle.std.specs.Prelude.{ℕ, ◌≤◌, ◌<◌, reverse, All};
ghost use Rattle.meaning.specs.Diagram.{Tree};
ghost use Rattle.meaning.specs.Formula;
ghost use Rattle.diagram.specs.State.{Ready, Known, Works, chooser};
ghost use Rattle.formula.specs.Pair.{TreeMeans, PairKnown, PairMeans};

use crate::pair::{Pair, must_may};
use diagram::builder::{Builder, Made, NoRoom};
use diagram::number::Diagram;
use diagram::scratch::Scratch;
use diagram::table::Cell;

// The or (and, where `every`) of both choices at each of the levels, the last one's first. A loop of its own: the turn as a closure
// would have a contract over every table and scratch that it meets, longer than the loop.
fn chain(
    b: Builder,
    t: &mut [Cell],
    s: &mut Scratch,
    every: bool,
    levels: &[u32],
    a: Diagram,
) -> Result<Made<Diagram>, NoRoom>
    requires ready { Ready t.old s.old b }
    requires levels { All (λ l. l < 128) levels.now }
    requires known { Known b a }
    ensures { (n : ℕ) (x : Tree) → n ≤ 128 → TreeMeans n t.old b a x →
        Works (TreeMeans n) t.old b (Formula.quantify_all n (chooser every) (reverse levels.now) x) t.new s.new result }
{
    let mut so_far = Made { at: b, value: a };
    for level in levels.iter().rev() {
        so_far = so_far.at.quantify(t, s, every, *level, so_far.value)?;
    }
    Ok(so_far)
}

/// Exists, or forall where `every`, of the variable whose bits have these levels, bit 0's first: the must chain, then the may
/// chain. `NoRoom` comes exactly where these need more nodes than there are slots.
pub fn quantified(
    b: Builder,
    t: &mut [Cell],
    s: &mut Scratch,
    every: bool,
    levels: &[u32],
    p: Pair,
) -> Result<Made<Pair>, NoRoom>
    requires ready { Ready t.old s.old b }
    requires levels { All (λ l. l < 128) levels.now }
    requires known { PairKnown b p }
    ensures { (n : ℕ) (x : Formula.Pair) → n ≤ 128 → PairMeans n t.old b p x →
        Works (PairMeans n) t.old b (Formula.quantified n (chooser every) (reverse levels.now) x) t.new s.new result }
{
    let must = chain(b, t, s, every, levels, p.must)?;
    let may = chain(must.at, t, s, every, levels, p.may)?;
    Ok(must_may(must.value, may))
}
