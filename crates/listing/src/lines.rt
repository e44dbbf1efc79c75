//! The variables' values: one line a variable entry.
ghost use Rattle.std.specs.Prelude.{◌≡◌, ◌+◌, ◌≤◌, ◌<◌, ◌++◌, length};
ghost use Rattle.meaning.specs.Kind.{a_variable};
ghost use Rattle.meaning.specs.Sheet.{count, rule_at};
ghost use Rattle.meaning.specs.Check.{suits};
ghost use Rattle.listing.specs.Pieces.{entry_text, value_lines};
ghost use Rattle.listing.specs.Written.{Written};

use crate::text::{Page, put};
use crate::value::Values;
use sheet::kind::Sort;
use sheet::read::{count, kind};

// Is entry i a variable?
fn is_variable(values: Values, i: usize) -> bool
    requires { i < count values.sheet.now }
    ensures { result ≡ suits a_variable (rule_at values.entry.sheet.now i).sort }
{
    match kind(values.sheet, i) {
        Some(kind) => kind.rule().sort == Sort::Variable,
        None => false,
    }
}

// Entry i's line, if it is a variable.
#[tactic(auto, using(crate::proofs::Laws::Entry::entry_none, crate::proofs::Laws::Entry::entry_some))]
fn put_entry<const N: usize>(values: Values, page: &mut Page<N>, i: usize)
    requires inside { i < count values.sheet.now }
    requires room { length page.old + 34 ≤ N }
    ensures text { page.new ≡ page.old ++ entry_text values.entry.sheet.now values.entry.assignment.now i }
    ensures short { length page.new ≤ length page.old + 34 }
{
    if is_variable(values, i) {
        let name = i as u32;
        let value = values.value_of(i);
        page.put(b"entry ");
        page.put_decimal(name);
        page.put_line(b" value ", value);
    }
}

/// A line for each variable entry.
#[tactic(auto, using(crate::proofs::Laws::Entry::going_begin, crate::proofs::Laws::Entry::going_more, crate::proofs::Laws::Entry::going_end))]
pub fn put_entries<const N: usize>(values: Values, page: &mut Page<N>)
    requires room { length page.old + 8704 ≤ N }
    ensures text { page.new ≡ page.old ++ value_lines values.entry.sheet.now values.entry.assignment.now }
    ensures short { length page.new ≤ length page.old + 8704 }
{
    for i in 0..count(values.sheet) {
        put_entry(values, page, i);
    }
}

/// Puts the same lines into a lent buffer, from `at` on, and gives the place behind them.
// By way of a page, on the stack, so that the lines are made in one place.
pub fn put_entries_at(values: Values, out: &mut [u8], at: usize) -> usize
    requires room { at + 8704 ≤ length out.old }
    ensures text { Written out.old at out.new result
        (value_lines values.entry.sheet.now values.entry.assignment.now) }
    ensures short { result ≤ at + 8704 }
{
    let mut page = Page::<8704>::new();
    put_entries(values, &mut page);
    put(out, at, page.as_bytes())
}
