//! A function of up to three diagrams, as a truth table of eight rows: row 4a + 2b + c is bit 4a + 2b + c of a byte.
ghost use Rattle.std.specs.Prelude.{◌≡◌, ◌<◌, ◌≤◌};
ghost use Rattle.diagram.specs.Function.{Shorter, Answers, equal_of, kept_of};

use crate::number::Diagram;

// The functions that the steps name. Numbers and no enum: the rows are the bits, and `shorten` computes with them.

/// `not a`
pub const NOT: u8 = 15;

/// `a and b`
pub const AND: u8 = 192;

/// `a or b`
pub const OR: u8 = 252;

/// `a` differs from `b`.
pub const XOR: u8 = 60;

/// `a` agrees with `b`.
pub const AGREE: u8 = 195;

/// `(not a and b) or (a agrees with b and c)`
pub const LESS: u8 = 142;

/// `(a and not b) or (a agrees with b and c)`
pub const SIGNED_TOP: u8 = 178;

/// `b` where `a`, else `c`.
pub const CHOICE: u8 = 202;

/// A function and its operands.
#[derive(Clone, Copy, Debug, PartialEq, Eq)]
pub struct Question {
    pub f: u8,
    pub a: Diagram,
    pub b: Diagram,
    pub c: Diagram,
}

// Where x and y are one number the function looks at only one of them. Rows lie in pairs, a row where the other operand is 0
// and, s rows up, the row where it is 1; d is 2^s. Of each pair the row that `low` or `high` names goes to both.
#[tactic(auto, using(crate::proofs::Laws::Function::paired_lt), unfolding(crate::specs::Function::equal_of, crate::specs::Function::paired))]
fn equal(f: u32, x: Diagram, y: Diagram, low: u32, high: u32, d: u32) -> u32
    requires rows { (low < 256) × (high < 256) }
    requires apart { (0 < d) × (d ≤ 16) }
    ensures { result ≡ equal_of f x y low high d }
{
    if x == y {
        return ((f & low) + (f & high) / d) * (d + 1);
    }
    f
}

// Operand x, or false if the function doesn't look at it: `low` names the rows where it is 0, d is 2^s as above.
#[tactic(auto, unfolding(crate::specs::Function::kept_of))]
fn kept(f: u32, x: Diagram, low: u32, d: u32) -> Diagram
    requires { (low < 256) × (d ≤ 16) }
    ensures { result ≡ kept_of f x low d }
{
    if (f & low) * d == f & (low * d) {
        return Diagram::FALSE;
    }
    x
}

/// The same function of as few operands as can be; one that it doesn't look at is false.
pub fn shorten(q: Question) -> Question
    ensures { Shorter q result }
{
    let mut f = equal(q.f as u32, q.a, Diagram::FALSE, 15, 0, 16);
    f = equal(f, q.a, Diagram::TRUE, 0, 240, 16);
    f = equal(f, q.b, Diagram::FALSE, 51, 0, 4);
    f = equal(f, q.b, Diagram::TRUE, 0, 204, 4);
    f = equal(f, q.c, Diagram::FALSE, 85, 0, 2);
    f = equal(f, q.c, Diagram::TRUE, 0, 170, 2);
    f = equal(f, q.a, q.b, 3, 192, 4);
    f = equal(f, q.a, q.c, 5, 160, 2);
    f = equal(f, q.b, q.c, 17, 136, 2);
    Question {
        f: f as u8,
        a: kept(f, q.a, 15, 16),
        b: kept(f, q.b, 51, 4),
        c: kept(f, q.c, 85, 2),
    }
}

/// An answer that needs no node: a constant, one of the operands, or a row of the table where all operands are terminals. With
/// none, some operand is a node.
pub fn shortcut(q: Question) -> Option<Diagram>
    ensures { Answers q result }
{
    match q.f {
        0 => return Some(Diagram::FALSE),
        255 => return Some(Diagram::TRUE),
        240 => return Some(q.a),
        204 => return Some(q.b),
        170 => return Some(q.c),
        _ => {}
    }
    if q.a.is_terminal() && q.b.is_terminal() && q.c.is_terminal() {
        let row = 4 * q.a.number() + 2 * q.b.number() + q.c.number();
        return Some(Diagram::new((q.f as u32 >> row) % 2));
    }
    None
}
