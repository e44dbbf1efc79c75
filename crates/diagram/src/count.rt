//! The distinct nodes of some diagrams: each is marked when it is counted, one bit a slot, in lent words.
ghost use Rattle.std.specs.Prelude.{◌≡◌, ◌*◌, ◌≤◌, ◌<◌, length};
ghost use Rattle.diagram.specs.Count.{marked_at, marking, Unmarked, Visitable, Visited};

use crate::number::Diagram;
use crate::table;
use crate::table::Cell;

/// How many words hold the marks of the largest table, 1,048,576 slots.
pub const TABLE_WORDS: usize = 32768;

/// Lent words with marks for the largest table, whatever stands in them: a run lends them once, whatever the table that it is lent.
#[derive(Drop)]
pub struct Marks<'a> {
    pub words: &'a mut [u32],
    ghost enough: { 1048576 ≤ 32 * length words.now },
}

impl<'a> Marks<'a> {
    /// Marks in these words, `TABLE_WORDS` of them or more.
    pub fn new(words: &'a mut [u32]) -> Marks<'a>
        requires { 1048576 ≤ 32 * length words.old }
        ensures { result.words.now ≡ words.old }
    {
        Marks { words }
    }

    /// Nothing is counted yet: no slot below `room` is marked.
    pub fn clear(&mut self, room: usize)
        requires { room ≤ 1048576 }
        ensures { Unmarked room self.new.words.now }
    {
        begin(self.words, room);
    }

    /// The same as `visit` of these words.
    pub fn visit(&mut self, t: &[Cell], n: Diagram, count: usize, limit: u32) -> usize
        requires { Visitable t.now (length self.old.words.now) n }
        ensures { Visited t.now self.old.words.now n count limit self.new.words.now result }
    {
        visit(self.words, t, n, count, limit)
    }
}

/// Nothing is counted yet: no slot below `room` is marked in these words.
#[tactic(auto, using(crate::proofs::Laws::Mark::cleared))]
pub fn begin(words: &mut [u32], room: usize)
    requires fits { room ≤ 1048576 }
    requires marks { room ≤ 32 * length words.old }
    ensures { Unmarked room words.new }
{
    let many = (room + 31) / 32;
    words[..many].fill(0);
}

// Is slot k marked?
#[tactic(auto, unfolding(crate::specs::Count::marked_at))]
fn is_marked(words: &[u32], k: usize) -> bool
    requires { k < 32 * length words.now }
    ensures { result ≡ marked_at words.now k }
{
    (words[k / 32] >> (k % 32)) % 2 == 1
}

// Marks slot k.
#[tactic(auto, using(crate::proofs::Laws::Mark::mark_set))]
fn mark(words: &mut [u32], k: usize)
    requires { k < 32 * length words.old }
    ensures { words.new ≡ marking words.old k }
{
    words[k / 32] |= 1 << (k % 32);
}

/// `count`, and the nodes of diagram n that aren't counted yet: low part, high part, then the node. It may stop once the
/// count exceeds the limit; marks and count are then of no more use. Words of any number, with a mark for each used slot.
pub fn visit(words: &mut [u32], t: &[Cell], n: Diagram, count: usize, limit: u32) -> usize
    requires { Visitable t.now (length words.old) n }
    ensures { Visited t.now words.old n count limit words.new result }
{
    if n.is_terminal() {
        return count;
    }
    let most = limit as usize;
    if most < count {
        return count;
    }
    let k = table::slot_of(n);
    if is_marked(words, k) {
        return count;
    }
    let node = table::node_at(t, k);
    let with_low = visit(words, t, node.low, count, limit);
    let with_high = visit(words, t, node.high, with_low, limit);
    if most < with_high {
        return with_high;
    }
    mark(words, k);
    with_high + 1
}
