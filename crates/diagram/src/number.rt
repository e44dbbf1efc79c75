//! The number of a diagram, as it is passed, returned and kept.
ghost use Rattle.std.specs.Prelude.{◌≡◌, ◌<◌, ◌↔◌, ℕ, IsTrue};

use std::marker::Model;

/// The number of a diagram: 0 is false, 1 is true, and slot k of the table holds node k + 2. In contracts it is that number.
#[derive(Clone, Copy, Debug, PartialEq, Eq)]
pub struct Diagram {
    number: u32,
}

impl Model for Diagram {
    ghost Value = { ℕ };

    ghost view = { λ d. d.number };

    ghost inverse = { λ n. record { number = n } };
}

impl Diagram {
    /// False.
    pub const FALSE: Diagram = Diagram { number: 0 };

    /// True.
    pub const TRUE: Diagram = Diagram { number: 1 };

    /// The mark of a bit that was left out: no diagram's number.
    // A constant and no Option: a row's place is one number, a diagram's or this.
    pub const UNKNOWN: Diagram = Diagram { number: 4294967295 };

    /// The diagram of this number.
    pub fn new(number: u32) -> Self
        ensures { result ≡ number }
    {
        Diagram { number }
    }

    /// Its number.
    // a method: `u32::from(d)` would say no more at the places that use it
    pub fn number(self) -> u32
        ensures { result ≡ self }
    {
        self.number
    }

    /// Is it false or true? Such a diagram has no node.
    pub fn is_terminal(self) -> bool
        ensures { IsTrue result ↔ (self < 2) }
    {
        self.number < 2
    }
}
