//! The index by which a node is found, and the memo of steps: both in lent scratch of any length, none included.
ghost use Rattle.std.specs.Prelude.{◌≡◌, ◌+◌, ◌*◌, ◌<◌, ◌≤◌, length, set};

use crate::hash::place;
use crate::number::Diagram;
use crate::table;
use crate::table::{Cell, Node};

/// Scratch, divided: the heads and links of the index's chains, and the memo's entries of five numbers each.
#[derive(Drop)]
pub struct Scratch<'a> {
    pub heads: &'a mut [u32],
    pub links: &'a mut [u32],
    pub memo: &'a mut [[u32; 5]],
    ghost one_link_each: { length links.now ≡ length heads.now },
    ghost heads_le: { length heads.now ≤ 1048576 },
    ghost memo_le: { length memo.now ≤ 16777216 },
}

/// What the memo is asked: an operation of three diagrams, in the numbers of an entry, and its place.
#[derive(Clone, Copy)]
pub struct Key {
    pub operation: u32,
    pub a: u32,
    pub b: u32,
    pub c: u32,
    pub place: usize,
}

impl<'a> Scratch<'a> {
    ghost use Rattle.std.specs.Prelude.{Option, IfSome};
    ghost use Rattle.diagram.specs.Table.{nodes_of, slot_as};
    ghost use Rattle.diagram.specs.Scratch.{Covers, Finds, Passed, Recalled, head_at, home_of, key_of, noted};
    ghost use Rattle.diagram.specs.State.{Ready};

    /// Scratch for an empty table, whatever stood in these words: an eighth of them are heads, an eighth links, as far as there
    /// are slots; the rest is memo.
    pub fn new(t: &[Cell], words: &'a mut [u32]) -> Scratch<'a>
        requires { length t.now ≤ 3145728 }
        ensures { Ready t.now result (record { used = 0 }) }
    {
        words.fill(0);
        let covered = (words.len() / 8).min(table::slots(t));
        let (heads, rest) = words.split_at_mut(covered);
        let (links, rest) = rest.split_at_mut(covered);
        let (entries, _) = rest.as_chunks_mut::<5>();
        let many = entries.len().min(16777216);
        Scratch {
            heads,
            links,
            memo: &mut entries[..many],
        }
    }

    // A node's place among the heads.
    fn home(covered: usize, node: Node) -> usize
        requires { covered ≤ 1048576 }
        ensures place { result ≡ home_of covered (slot_as node) }
        ensures inside { 0 < covered → result < covered }
    {
        place(
            covered,
            node.level,
            node.low.number(),
            node.high.number(),
            0,
        )
    }

    // The slot of a node, if it is there. No slot before `from` holds it.
    #[tactic(auto, using(crate::proofs::Laws::Index::scan_more, crate::proofs::Laws::Index::scan_end))]
    fn scan(t: &[Cell], from: usize, used: usize, node: Node) -> Option<usize>
        requires room { 3 * used ≤ length t.now }
        requires passed { Passed (nodes_of t.now used) from (slot_as node) }
        ensures { Finds t.now used (slot_as node) result }
    {
        for k in from..used {
            if node == table::node_at(t, k) {
                return Some(k);
            }
        }
        None
    }

    /// The slot of a node, if one of the used slots holds it: along the chain of its place, then past the slots that have a link.
    pub fn seek(&self, t: &[Cell], used: usize, node: Node) -> Option<usize>
        requires ready { Ready t.now self.now (record { used = used }) }
        ensures { Finds t.now used (slot_as node) result }
    {
        let covered = self.heads.len();
        if covered == 0 {
            return Self::scan(t, 0, used, node);
        }
        let home = Self::home(covered, node);
        let mut at = self.heads[home] as usize;
        // A chain's next slot stands in its link, so no range says it; 0 is no slot, as the words are lent.
        while 0 < at {
            let k = at - 1;
            if node == table::node_at(t, k) {
                return Some(k);
            }
            at = self.links[k] as usize;
        }
        Self::scan(t, covered, used, node)
    }

    /// Slot k comes first in the chain of this head: its link is the old head.
    pub fn link(&mut self, k: usize, head: usize)
        requires slot { k < length self.old.heads.now }
        requires head { head < length self.old.heads.now }
        ensures links { self.new.links.now ≡ set self.old.links.now k (head_at self.old.heads.now head) }
        ensures heads { self.new.heads.now ≡ set self.old.heads.now head (k + 1) }
        ensures memo { self.new.memo.now ≡ self.old.memo.now }
    {
        self.links[k] = self.heads[head];
        self.heads[head] = (k + 1) as u32;
    }

    /// Slot k, a new one that holds this node, comes into the index, if it has a link.
    pub fn cover(&mut self, k: usize, node: Node)
        ensures index { Covers self.old.heads.now self.old.links.now k (slot_as node) self.new.heads.now self.new.links.now }
        ensures memo { self.new.memo.now ≡ self.old.memo.now }
    {
        let covered = self.heads.len();
        if covered <= k {
            return;
        }
        let head = Self::home(covered, node);
        self.link(k, head);
    }

    /// What the memo is asked for an operation of three diagrams.
    pub fn key(&self, operation: u32, a: Diagram, b: Diagram, c: Diagram) -> Key
        requires { operation < 512 }
        ensures { result ≡ key_of (length self.now.memo.now) operation a b c }
    {
        let (a, b, c) = (a.number(), b.number(), c.number());
        Key {
            operation,
            a,
            b,
            c,
            place: place(self.memo.len(), operation, a, b, c),
        }
    }

    /// The remembered result, if there is one.
    pub fn recall(&self, key: Key) -> Option<Diagram>
        requires { key.operation < 512 }
        ensures { IfSome result (Recalled self.now.memo.now key) }
    {
        if self.memo.len() <= key.place {
            return None;
        }
        let [operation, a, b, c, r] = self.memo[key.place];
        if [operation, a, b, c] != [key.operation + 1, key.a, key.b, key.c] {
            return None;
        }
        Some(Diagram::new(r))
    }

    /// This operation of these diagrams gives r, from now on, if there is room for it.
    pub fn remember(&mut self, key: Key, r: Diagram)
        requires { key.operation < 512 }
        ensures memo { self.new.memo.now ≡ noted self.old.memo.now key r }
        ensures index { (self.new.heads.now ≡ self.old.heads.now) × (self.new.links.now ≡ self.old.links.now) }
    {
        if self.memo.len() <= key.place {
            return;
        }
        self.memo[key.place] = [key.operation + 1, key.a, key.b, key.c, r.number()];
    }
}
