//! The static library: `link`'s four functions under their names for C and Rust, with the same promises.
#![tactic(auto)]

ghost use Rattle.std.specs.Prelude.{◌≡◌, length};
ghost use Rattle.meaning.specs.Solve as Solve;
ghost use Rattle.meaning.specs.Value as Value;
ghost use Rattle.link.specs.Flat.{value_in, Solves, Wrote};

use diagram::table::Cell;
use link::{Solved, Valued};

/// Solves a sheet at a limit.
#[unsafe(no_mangle)]
pub extern "C" fn rule_solve(
    sheet: &[u8],
    limit: u32,
    table: &mut [Cell],
    work: &mut [u32],
) -> Solved
    ensures { Solves (Solve.solve sheet.now limit (length table.old) (length work.old)) result
        table.old work.old table.new work.new }
{
    link::rule_solve(sheet, limit, table, work)
}

/// Solves a sheet without a named limit.
#[unsafe(no_mangle)]
pub extern "C" fn rule_solve_unnamed(sheet: &[u8], table: &mut [Cell], work: &mut [u32]) -> Solved
    ensures { Solves (Solve.solve_unnamed sheet.now (length table.old) (length work.old)) result
        table.old work.old table.new work.new }
{
    link::rule_solve_unnamed(sheet, table, work)
}

/// The value of a diagram under an assignment, one byte a level.
#[unsafe(no_mangle)]
pub extern "C" fn rule_value(table: &[Cell], used: u32, diagram: u32, assignment: &[u8]) -> Valued
    ensures { value_in result ≡ Value.value table.now used diagram assignment.now }
{
    link::rule_value(table, used, diagram, assignment)
}

/// The first assignment that a diagram accepts, one byte a level.
#[unsafe(no_mangle)]
pub extern "C" fn rule_witness(
    table: &[Cell],
    used: u32,
    diagram: u32,
    assignment: &mut [u8],
) -> u32
    ensures { Wrote table.now used diagram assignment.old result assignment.new }
{
    link::rule_witness(table, used, diagram, assignment)
}
