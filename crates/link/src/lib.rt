//! What is exported to Rust and C (by `link_c`): the answers of solve, value and witness, flattened into numbers.
#![tactic(auto)]

ghost use Rattle.std.specs.Prelude.{◌≡◌, length};
ghost use Rattle.meaning.specs.Solve as Solve;
ghost use Rattle.meaning.specs.Value as Value;
ghost use Rattle.link.specs.Flat.{value_in, Solves, Wrote};

use diagram::number::Diagram;
use diagram::table::Cell;
use lent::{value, witness};
use prover::answer::{Numbers, Refusal};
use prover::{answer, solve};

/// The number, 0 or the refusal's, then the verdict (1 sat, 2 unsat, 3 unknown), must, may and the slots used; zeros on a refusal.
// Numbers and no Result: the C interface. Beside prover's `Numbers`, the same five: this layout is C's.
#[repr(C)]
#[derive(Clone, Copy)]
pub struct Solved {
    pub number: u32,
    pub verdict: u32,
    pub must: u32,
    pub may: u32,
    pub used: u32,
}

impl From<Result<answer::Solved, Refusal>> for Solved {
    ghost use Rattle.prover.specs.Answer.{answer_of};
    ghost use Rattle.link.specs.Flat.{numbers_in};

    ghost from_gives = { λ answer flat. numbers_in flat ≡ answer_of answer };

    fn from(answer: Result<answer::Solved, Refusal>) -> Solved {
        let n = Numbers::from(answer);
        Solved {
            number: n.number,
            verdict: n.verdict,
            must: n.must,
            may: n.may,
            used: n.used,
        }
    }
}

/// The number, 0 or the refusal's, then the bit and the nodes passed; zeros on a refusal.
// Numbers and no Result, as above.
#[repr(C)]
#[derive(Clone, Copy)]
pub struct Valued {
    pub number: u32,
    pub bit: u32,
    pub passed: u32,
}

impl From<Result<value::Valued, lent::refusal::Refusal>> for Valued {
    ghost use Rattle.lent.specs.Value.{valued};
    ghost use Rattle.link.specs.Flat.{value_in};

    ghost from_gives = { λ answer flat. value_in flat ≡ valued answer };

    fn from(answer: Result<value::Valued, lent::refusal::Refusal>) -> Valued {
        match answer {
            Ok(valued) => Valued {
                number: 0,
                bit: valued.bit.into(),
                passed: valued.passed,
            },
            Err(refusal) => Valued {
                number: refusal.into(),
                bit: 0,
                passed: 0,
            },
        }
    }
}

/// Solves a sheet at a limit.
pub fn rule_solve(sheet: &[u8], limit: u32, table: &mut [Cell], work: &mut [u32]) -> Solved
    ensures { Solves (Solve.solve sheet.now limit (length table.old) (length work.old)) result
        table.old work.old table.new work.new }
{
    solve::solve(sheet, limit, table, work).into()
}

/// Solves a sheet without a named limit.
pub fn rule_solve_unnamed(sheet: &[u8], table: &mut [Cell], work: &mut [u32]) -> Solved
    ensures { Solves (Solve.solve_unnamed sheet.now (length table.old) (length work.old)) result
        table.old work.old table.new work.new }
{
    solve::solve_unnamed(sheet, table, work).into()
}

/// The value of a diagram under an assignment, one byte a level.
pub fn rule_value(table: &[Cell], used: u32, diagram: u32, assignment: &[u8]) -> Valued
    ensures { value_in result ≡ Value.value table.now used diagram assignment.now }
{
    value::value(table, used, Diagram::new(diagram), assignment).into()
}

/// The first assignment that a diagram accepts, one byte a level: 0, or the refusal's number.
pub fn rule_witness(table: &[Cell], used: u32, diagram: u32, assignment: &mut [u8]) -> u32
    ensures { Wrote table.now used diagram assignment.old result assignment.new }
{
    match witness::witness(table, used, Diagram::new(diagram), assignment) {
        Ok(()) => 0,
        Err(refusal) => refusal.into(),
    }
}
