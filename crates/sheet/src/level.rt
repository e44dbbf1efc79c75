//! Levels: bit 0 of every variable in entry order, then bit 1 of each variable that has one, and so on.
//! The functions take plain bytes, as docs/PROMISES.md names them: what they ask is less than what a `Sheet` holds.
ghost use Rattle.std.specs.Prelude.{◌≡◌, ◌+◌, ◌≤◌, ◌<◌, length};
ghost use Rattle.meaning.specs.Sheet.{count, record_at, entry_at, entries};
ghost use Rattle.meaning.specs.Level.{variable_bits, level, levels};
ghost use Rattle.sheet.specs.Laid.{Laid};
ghost use Rattle.sheet.specs.Level.{ahead, before};

use crate::kind::VARIABLE_NUMBER;
use crate::read::{count, number, width};

/// How many levels entry j brings: its width, if it is a variable.
// Asked of the number alone, and no kind is made of it: `level` and `levels` go over all entries at each call.
#[tactic(auto, using(crate::proofs::Laws::Level::bits_none, crate::proofs::Laws::Level::bits_some))]
pub fn bits_of(s: &[u8], j: usize) -> u32
    requires { record_at (j + 1) ≤ length s.now }
    ensures value { result ≡ variable_bits (entry_at s.now j) }
    ensures small { result < 256 }
{
    if number(s, j) == VARIABLE_NUMBER {
        width(s, j)
    } else {
        0
    }
}

// Of the w bits of variable entry j, how many come before bit b of entry i.
fn ahead(w: u32, j: usize, i: usize, b: u32) -> u32
    ensures value { result ≡ ahead w j i b }
    ensures all { result ≤ w }
{
    if w <= b {
        w
    } else if j < i {
        b + 1
    } else {
        b
    }
}

// How many variables' bits come before bit b of entry i.
#[tactic(auto, using(crate::proofs::Laws::Level::counted_begin))]
fn before(s: &[u8], i: usize, b: u32) -> u32
    requires { Laid s.now }
    ensures { result ≡ before i b 0 (entries s.now) }
{
    let mut total = 0u32;
    for j in 0..count(s) {
        total += ahead(bits_of(s, j), j, i, b);
    }
    total
}

/// How many levels there are: all bits come before bit 32, which no variable has.
#[tactic(auto, using(crate::proofs::Laws::Level::before_levels))]
pub fn levels(s: &[u8]) -> u32
    requires { Laid s.now }
    ensures { result ≡ levels (entries s.now) }
{
    before(s, 0, 32)
}

/// The level of bit b of variable entry i.
#[tactic(auto, using(crate::proofs::Laws::Level::level_at_lem))]
pub fn level(s: &[u8], i: usize, b: u32) -> u32
    requires laid { Laid s.now }
    requires inside { i < count s.now }
    requires has_bit { b < variable_bits (entry_at s.now i) }
    ensures { result ≡ level (entries s.now) i b }
{
    before(s, i, b)
}
