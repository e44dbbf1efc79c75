//! Refusals 1, 2 and 3: the table of contents and where the bodies lie. Plain bytes: these are what makes a `Sheet`.
ghost use Rattle.std.specs.Prelude.{◌≡◌, ◌+◌, ◌≤◌, length};
ghost use Rattle.meaning.specs.Kind.{rule_of};
ghost use Rattle.meaning.specs.Sheet.{record_at, rule_at, width_at};
ghost use Rattle.meaning.specs.Check.{short, allowed, kinds_fit, places_fit};
ghost use Rattle.sheet.specs.Kind.{number_of};

use crate::kind::{Kind, Sort};
use crate::read::{body_length, count, kind, place, width};

/// 1: fewer than 2 bytes; N not 1..256; fewer than 2 + 4N bytes.
#[tactic(auto, unfolding(meaning::specs::Check::short))]
pub fn short(s: &[u8]) -> bool
    ensures { result ≡ short s.now }
{
    if s.len() < 2 {
        return true;
    }
    let n = count(s);
    n < 1 || 256 < n || s.len() < 2 + 4 * n
}

// Is this width allowed for the kind? Terms have width 1 to 32, formulas width 0.
fn allowed(kind: Kind, width: u32) -> bool
    ensures { result ≡ allowed (rule_of (number_of kind)).sort width }
{
    match kind.rule().sort {
        Sort::Formula => width == 0,
        Sort::Variable | Sort::Term => 1 <= width && width <= 32,
    }
}

// Entry i's kind is in the table, and its width is allowed.
fn kind_fits(s: &[u8], i: usize) -> bool
    requires { record_at (i + 1) ≤ length s.now }
    ensures { result ≡ allowed (rule_at s.now i).sort (width_at s.now i) }
{
    match kind(s, i) {
        Some(kind) => allowed(kind, width(s, i)),
        None => false,
    }
}

/// 2: every kind is in the table, and every width is allowed for its sort.
#[tactic(auto, using(crate::proofs::Laws::Contents::kinds_more, crate::proofs::Laws::Contents::kinds_stop))]
pub fn kinds_fit(s: &[u8], n: usize) -> bool
    requires { record_at n ≤ length s.now }
    ensures { result ≡ kinds_fit s.now 0 n }
{
    for i in 0..n {
        if !kind_fits(s, i) {
            return false;
        }
    }
    true
}

/// 3: bodies lie back to back from the contents' end on, and the last ends with the sheet.
#[tactic(auto, using(crate::proofs::Laws::Contents::places_more, crate::proofs::Laws::Contents::places_stop))]
pub fn places_fit(s: &[u8], n: usize) -> bool
    requires records { record_at n ≤ length s.now }
    requires few { n ≤ 256 }
    ensures { result ≡ places_fit s.now 0 n (record_at n) }
{
    let mut at = 2 + 4 * n;
    for i in 0..n {
        if place(s, i) != at {
            return false;
        }
        at += body_length(s, i);
    }
    at == s.len()
}
