//! The program: a sheet's bytes solved at 2,048 slots with no named limit, and the answer listed.
ghost use Rattle.std.specs.Prelude.{◌≡◌, ◌≤◌, length};
ghost use Rattle.meaning.specs.Solve.{solve_unnamed};
ghost use Rattle.meaning.specs.Program.{listing, program};
ghost use Rattle.prover.specs.Answer.{Meets};
ghost use Rattle.listing.specs.Answered.{Answered, MustWitness};

use crate::answer::{self, Listing};
use diagram::table::Cell;
use lent::witness::witness;
use prover::answer::{Numbers, Refusal, Solved};
use prover::solve;

// The witness of must, one byte a level. Where must is false it has none: `False` is no failure then, and the bytes stay zeros.
fn must_witness(t: &[Cell], answer: &Result<Solved, Refusal>) -> [u8; 128]
    ensures { MustWitness t.now answer.now result }
{
    let mut bytes = [0; 128];
    if let Ok(solved) = answer {
        let _ = witness(t, solved.used, solved.must, &mut bytes);
    }
    bytes
}

// The listing of an answer, t being the table that solve left.
#[inline(never)]
fn list_answer(s: &[u8], t: &[Cell], answer: Result<Solved, Refusal>) -> Listing
    requires { Answered s.now answer t.now }
    ensures text { result ≡ listing s.now }
    ensures fits { length result ≤ 8786 }
{
    let bytes = must_witness(t, &answer);
    let n = Numbers::from(answer);
    answer::listing(s, n, &bytes)
}

// Solve's answer. Not inlined, as `list_answer` is not: the stack then holds solve's memory or the page's, never both.
#[inline(never)]
fn solved(s: &[u8], table: &mut [Cell], work: &mut [u32]) -> Result<Solved, Refusal>
    ensures { Meets (solve_unnamed s.now (length table.old) (length work.old)) result
        table.old work.old table.new work.new }
{
    solve::solve_unnamed(s, table, work)
}

/// The listing of any bytes.
pub fn listing(s: &[u8]) -> Listing
    ensures text { result ≡ listing s.now }
    ensures fits { length result ≤ 8786 }
{
    let mut table = [0u32; 6144];
    let mut work = [0u32; 8192];
    let answer = solved(s, &mut table, &mut work);
    list_answer(s, &table, answer)
}

// At most one byte more than the longest good sheet has.
const BYTES_READ: usize = 2563;

/// What the program prints, from the bytes that it reads: no more than 2,563 of them count.
#[tactic(auto, unfolding(meaning::specs::Program::program), using(std::proofs::lemmas::List::take_min))]
pub fn program(input: &[u8]) -> Listing
    ensures text { result ≡ program input.now }
    ensures fits { length result ≤ 8786 }
{
    listing(&input[..BYTES_READ.min(input.len())])
}
