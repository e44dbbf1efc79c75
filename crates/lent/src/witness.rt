//! Witness: the first assignment in order, level 0 counting most, that a diagram accepts, one byte a level.
ghost use Rattle.std.specs.Prelude.{◌≡◌, map, length};
ghost use Rattle.meaning.specs.Number.{digit};
ghost use Rattle.meaning.specs.Lent.{tree_of};
ghost use Rattle.meaning.specs.Witness.{least};
ghost use Rattle.diagram.specs.Table.{Readable};
ghost use Rattle.lent.specs.Followed.{Followed};
ghost use Rattle.lent.specs.Witness.{choice_at, Witnesses};

use crate::refusal;
use crate::refusal::Refusal;
use diagram::number::Diagram;
use diagram::table;
use diagram::table::{Cell, LEVELS};

// A level's byte, and the diagram that is left.
#[derive(Clone, Copy, Debug, PartialEq, Eq)]
struct Choice {
    byte: u8,
    rest: Diagram,
}

// At level l: 0, unless nothing is accepted then.
#[tactic(auto, unfolding(crate::specs::Witness::choice_at))]
fn choose(t: &[Cell], l: u32, n: Diagram) -> Choice
    requires { Readable t.now n }
    ensures { result ≡ choice_at t.now l n }
{
    let halves = table::split(t, l, n);
    if halves.low == Diagram::FALSE {
        return Choice {
            byte: 1,
            rest: halves.high,
        };
    }
    Choice {
        byte: 0,
        rest: halves.low,
    }
}

// Level by level, a byte each.
#[tactic(auto, using(crate::proofs::Laws::Followed::followed_inside))]
fn fill(t: &[Cell], n: Diagram, a: &mut [u8])
    requires follows { Followed t.now n }
    requires long { length a.old ≡ 128 }
    ensures { a.new ≡ map digit (least 128 0 (tree_of t.now n)) }
{
    let mut at = n;
    for l in 0..LEVELS {
        let choice = choose(t, l, at);
        a[l as usize] = choice.byte;
        at = choice.rest;
    }
}

/// The least assignment that diagram n accepts, into a. The error is the first of these that is there, and a is untouched:
/// `Table`, `Assignment`, `Nodes`, `Number`, `False`.
pub fn witness(t: &[Cell], used: u32, n: Diagram, a: &mut [u8]) -> Result<(), Refusal>
    ensures { Witnesses t.now used n a.old result a.new }
{
    refusal::check_buffers(t, a.len())?;
    refusal::check_diagram(t, used, n)?;
    if n == Diagram::FALSE {
        return Err(Refusal::False);
    }
    fill(t, n, a);
    Ok(())
}
