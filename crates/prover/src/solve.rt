//! Solve: the refusals in order, the run, and what is left in the buffers.
ghost use Rattle.std.specs.Prelude.{◌≡◌, ◌*◌, ◌≤◌, IfOk, length};
ghost use Rattle.meaning.specs.Solve.{input_refusal, solve, solve_unnamed, unnamed_limit};
ghost use Rattle.prover.specs.Kept.{OperandReads, OperandsRead, Ran};
ghost use Rattle.prover.specs.Answer.{outcome, used_slots, cleared_behind, Meets};

use crate::answer::{Refusal, Solved, Verdict};
use diagram::builder::{Builder, Made, NoRoom};
use diagram::count::{Marks, TABLE_WORDS};
use diagram::scratch::Scratch;
use diagram::table;
use diagram::table::Cell;
use entry::value::Operands;
use entry::{rows, value};
use formula::pair::Pair;
use sheet::checked::{CheckedEntry, CheckedSheet};
use term::row::Row;

// The least length of the work buffer: 256 entries of 32 numbers.
const WORK_NEEDED: usize = 8192;

// The value of operand k of an entry; an empty row where there is no such operand: no Option, since the work on an entry takes
// three rows and reads those that its kind has.
#[tactic(auto, using(sheet::proofs::Laws::Check::checked_laid))]
fn operand(entry: CheckedEntry, kept: &[u32], k: usize) -> Row
    requires { 8192 ≤ length kept.now }
    ensures { OperandReads entry.entry.sheet.bytes.now kept.now entry.entry.index k result }
{
    if entry.operand_count() <= k {
        return Row {
            bits: [0; 32],
            width: 0,
        };
    }
    let operand = entry.operand(k);
    rows::value_at(kept, operand.index, operand.width as usize)
}

// The values of an entry's operands.
fn operands(entry: CheckedEntry, kept: &[u32]) -> Operands
    requires { 8192 ≤ length kept.now }
    ensures { OperandsRead entry.entry.sheet.bytes.now kept.now entry.entry.index result }
{
    Operands {
        x: operand(entry, kept, 0),
        y: operand(entry, kept, 1),
        z: operand(entry, kept, 2),
    }
}

// Every entry, in entry order, needed by the last one or not. Gives the last state and the last entry's pair. The buffers' lengths are
// clauses and no types: table and buffers are plain slices, lent by whoever calls.
fn run(
    sheet: CheckedSheet,
    limit: u32,
    t: &mut [Cell],
    kept: &mut [u32],
    words: &mut [u32],
) -> Result<Made<Pair>, NoRoom>
    requires room { 8192 ≤ length kept.old }
    requires small { length t.old ≤ 3145728 }
    ensures { Ran sheet.entry.bytes.now limit t.old t.new result }
{
    let mut marked = [0; TABLE_WORDS];
    let mut marks = Marks::new(&mut marked);
    let mut s = Scratch::new(t, words);
    let mut at = Builder::new();
    let count = sheet.count();
    for i in 0..count {
        let entry = sheet.entry(i);
        let v = operands(entry, kept);
        let made = value::work(at, t, &mut s, &mut marks, limit, entry, v)?;
        at = made.at;
        rows::keep(kept, i, &made.value);
    }
    Ok(Made {
        at,
        value: rows::pair_at(kept, count - 1),
    })
}

// With scratch of our own, N numbers. Not inlined, nor is the next one: the stack then holds one of their arrays, and only while
// it runs.
#[inline(never)]
fn run_in_own<const N: usize>(
    sheet: CheckedSheet,
    limit: u32,
    t: &mut [Cell],
    kept: &mut [u32],
) -> Result<Made<Pair>, NoRoom>
    requires own { N ≤ 32768 }
    requires room { 8192 ≤ length kept.old }
    requires small { length t.old ≤ 3145728 }
    ensures { Ran sheet.entry.bytes.now limit t.old t.new result }
{
    let mut own = [0; N];
    run(sheet, limit, t, kept, &mut own)
}

// With rows of our own, and the lent work buffer for scratch.
#[inline(never)]
fn run_in_work(
    sheet: CheckedSheet,
    limit: u32,
    t: &mut [Cell],
    work: &mut [u32],
) -> Result<Made<Pair>, NoRoom>
    requires small { length t.old ≤ 3145728 }
    ensures { Ran sheet.entry.bytes.now limit t.old t.new result }
{
    let mut kept = [0; WORK_NEEDED];
    run(sheet, limit, t, &mut kept, work)
}

// With the lent work buffer for the rows and scratch of our own, or, where more is lent than that, the other way round.
// For a table of up to 2,048 slots scratch is our own, eight numbers a slot: less to clear.
fn run_somewhere(
    sheet: CheckedSheet,
    limit: u32,
    t: &mut [Cell],
    work: &mut [u32],
) -> Result<Made<Pair>, NoRoom>
    requires room { 8192 ≤ length work.old }
    requires small { length t.old ≤ 3145728 }
    ensures { Ran sheet.entry.bytes.now limit t.old t.new result }
{
    if table::slots(t) <= 2048 {
        return run_in_own::<16384>(sheet, limit, t, work);
    }
    if work.len() <= 32768 {
        return run_in_own::<32768>(sheet, limit, t, work);
    }
    run_in_work(sheet, limit, t, work)
}

// The sheet, if nothing is to be refused before the run: the sheet's own causes, then the table's length, then the work buffer's.
#[tactic(auto, using(crate::proofs::Laws::Answer::input_nine, crate::proofs::Laws::Answer::input_ten, crate::proofs::Laws::Answer::input_none))]
fn check_input<'a>(bytes: &'a [u8], t: &[Cell], work: &[u32]) -> Result<CheckedSheet<'a>, Refusal>
    ensures refusal { outcome result ≡ input_refusal bytes.now (length t.now) (length work.now) }
    ensures bytes { IfOk result (λ sheet. sheet.bytes.now ≡ bytes.now) }
{
    let sheet = CheckedSheet::new(bytes)?;
    if table::bad_length(t) {
        return Err(Refusal::Table);
    }
    if work.len() < WORK_NEEDED {
        return Err(Refusal::Work);
    }
    Ok(sheet)
}

// Zeros behind the nodes of a run; where there was no room, a table of zeros.
fn clear_rest(t: &mut [Cell], end: &Result<Made<Pair>, NoRoom>)
    requires { 3 * used_slots end.now ≤ length t.old }
    ensures { t.new ≡ cleared_behind (used_slots end.now) t.old }
{
    let used = match end {
        Ok(made) => made.at.used,
        Err(NoRoom) => 0,
    };
    table::clear_behind(t, used);
}

/// Solves a sheet at a limit, for any bytes and any buffers.
#[tactic(auto, using(crate::proofs::Laws::Answer::input_passes))]
pub fn solve(bytes: &[u8], limit: u32, t: &mut [Cell], work: &mut [u32]) -> Result<Solved, Refusal>
    ensures { Meets (solve bytes.now limit (length t.old) (length work.old)) result t.old work.old t.new work.new }
{
    let sheet = check_input(bytes, t, work)?;
    let end = run_somewhere(sheet, limit, t, work);
    work.fill(0);
    clear_rest(t, &end);
    let Made { at, value } = end?;
    let Pair { must, may } = value;
    Ok(Solved {
        verdict: Verdict::of(must, may),
        must,
        may,
        used: at.used as u32,
    })
}

/// The limit where none is named.
#[tactic(auto, unfolding(meaning::specs::Solve::unnamed_limit))]
pub fn unnamed_limit(slots: usize) -> u32
    ensures { result ≡ unnamed_limit slots }
{
    1000
}

/// Solves a sheet without a named limit.
pub fn solve_unnamed(bytes: &[u8], t: &mut [Cell], work: &mut [u32]) -> Result<Solved, Refusal>
    ensures { Meets (solve_unnamed bytes.now (length t.old) (length work.old)) result t.old work.old t.new work.new }
{
    solve(bytes, unnamed_limit(table::slots(t)), t, work)
}
