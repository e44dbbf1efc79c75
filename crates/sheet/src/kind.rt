//! The kinds of entries, and the short table of kinds: for each kind its sort, its body's length, what its operands have to be
//! and how widths fit.
ghost use Rattle.std.specs.Prelude.{◌≡◌, slice_get};
ghost use Rattle.std.specs.Option.{option_map};
ghost use Rattle.meaning.specs.Kind.{rule_of};
ghost use Rattle.meaning.specs.Level.{bits_of};
ghost use Rattle.meaning.specs.Check.{is_formula};
ghost use Rattle.sheet.specs.Kind.{number_of, sort_as, need_as, fit_as, row_as, Decodes};

/// What an entry is: terms up to `Choose`, then formulas.
#[derive(Clone, Copy, Debug, PartialEq, Eq)]
pub enum Kind {
    Variable,
    Constant,
    BitNot,
    Negate,
    BitAnd,
    BitOr,
    BitXor,
    Add,
    Multiply,
    ShiftLeft,
    ShiftRight,
    Concat,
    Extract,
    ZeroExtend,
    SignExtend,
    Choose,
    True,
    False,
    Equal,
    AtMost,
    SignedAtMost,
    Not,
    And,
    Or,
    Exists,
    ForAll,
}

/// The number of the one kind whose sort is `Variable`: where only this is asked, no kind need be made of a number.
pub const VARIABLE_NUMBER: u8 = 1;

/// What sort of thing an entry is. A variable is a term too.
#[derive(Clone, Copy, Debug, PartialEq, Eq)]
pub enum Sort {
    Variable,
    Term,
    Formula,
}

impl Sort {
    /// Is it a formula's?
    pub fn is_formula(self) -> bool
        ensures { result ≡ is_formula (sort_as self) }
    {
        self == Sort::Formula
    }
}

/// What an operand has to be.
#[derive(Clone, Copy, Debug, PartialEq, Eq)]
pub enum Need {
    ATerm,
    AFormula,
    AVariable,
}

/// How the widths of an entry and its operands fit.
#[derive(Clone, Copy, Debug, PartialEq, Eq)]
pub enum Fit {
    /// nothing is asked
    Any,
    /// a constant: the value is below 2 to the width
    Below,
    /// every operand that is a term has the entry's own width
    Equal,
    /// the operands' widths add up to the entry's
    Sum,
    /// extract from u down to l: the width is u - l + 1, and u lies inside the operand
    Span,
    /// the operand isn't wider than the entry
    NoneWider,
    /// the operands' widths are one another's
    Alike,
}

/// A row of the table of kinds.
#[derive(Clone, Copy, Debug)]
pub struct Rule {
    pub sort: Sort,
    /// how long the body is, in bytes
    pub body: u8,
    /// what each operand has to be, in order
    pub operands: &'static [Need],
    pub widths: Fit,
}

// a variable; no other kind has its sort
const VARIABLE: Rule = Rule {
    sort: Sort::Variable,
    body: 0,
    operands: &[],
    widths: Fit::Any,
};

// constant
const CONSTANT: Rule = Rule {
    sort: Sort::Term,
    body: 4,
    operands: &[],
    widths: Fit::Below,
};

// bitwise not, negation
const UNARY: Rule = Rule {
    sort: Sort::Term,
    body: 2,
    operands: &[Need::ATerm],
    widths: Fit::Equal,
};

// bitwise and, or, exclusive or; add, multiply
const BINARY: Rule = Rule {
    sort: Sort::Term,
    body: 4,
    operands: &[Need::ATerm, Need::ATerm],
    widths: Fit::Equal,
};

// shift left, shift right with zeros
const SHIFT: Rule = Rule {
    sort: Sort::Term,
    body: 3,
    operands: &[Need::ATerm],
    widths: Fit::Equal,
};

// concat
const CONCAT: Rule = Rule {
    sort: Sort::Term,
    body: 4,
    operands: &[Need::ATerm, Need::ATerm],
    widths: Fit::Sum,
};

// extract
const EXTRACT: Rule = Rule {
    sort: Sort::Term,
    body: 4,
    operands: &[Need::ATerm],
    widths: Fit::Span,
};

// zero extend, sign extend
const EXTEND: Rule = Rule {
    sort: Sort::Term,
    body: 2,
    operands: &[Need::ATerm],
    widths: Fit::NoneWider,
};

// if-then-else
const CHOOSE: Rule = Rule {
    sort: Sort::Term,
    body: 6,
    operands: &[Need::AFormula, Need::ATerm, Need::ATerm],
    widths: Fit::Equal,
};

// true, false
const TRUTH: Rule = Rule {
    sort: Sort::Formula,
    body: 0,
    operands: &[],
    widths: Fit::Any,
};

// equal, unsigned at most, signed at most
const COMPARE: Rule = Rule {
    sort: Sort::Formula,
    body: 4,
    operands: &[Need::ATerm, Need::ATerm],
    widths: Fit::Alike,
};

// not
const NOT: Rule = Rule {
    sort: Sort::Formula,
    body: 2,
    operands: &[Need::AFormula],
    widths: Fit::Any,
};

// and, or
const JOIN: Rule = Rule {
    sort: Sort::Formula,
    body: 4,
    operands: &[Need::AFormula, Need::AFormula],
    widths: Fit::Any,
};

// exists, for all
const BIND: Rule = Rule {
    sort: Sort::Formula,
    body: 4,
    operands: &[Need::AVariable, Need::AFormula],
    widths: Fit::Any,
};

// The rows in the order of the enum's variants. The table is lent, so that reading a row doesn't build it.
const RULES: &[Rule; 26] = &[
    VARIABLE, CONSTANT, UNARY, UNARY, BINARY, BINARY, BINARY, BINARY, BINARY, SHIFT, SHIFT, CONCAT,
    EXTRACT, EXTEND, EXTEND, CHOOSE, TRUTH, TRUTH, COMPARE, COMPARE, COMPARE, NOT, JOIN, JOIN,
    BIND, BIND,
];

impl Kind {
    /// The kind with this number, or `None` where the table of kinds has no such number.
    // An Option and no TryFrom: there is one way to fail, and an error would say no more.
    #[tactic(auto, unfolding(meaning::specs::Kind::rule_of, meaning::specs::Kind::rules))]
    pub fn of(number: u8) -> Option<Kind>
        ensures { Decodes number result }
    {
        Some(match number {
            1 => Kind::Variable,
            2 => Kind::Constant,
            3 => Kind::BitNot,
            4 => Kind::Negate,
            5 => Kind::BitAnd,
            6 => Kind::BitOr,
            7 => Kind::BitXor,
            8 => Kind::Add,
            9 => Kind::Multiply,
            10 => Kind::ShiftLeft,
            11 => Kind::ShiftRight,
            12 => Kind::Concat,
            13 => Kind::Extract,
            14 => Kind::ZeroExtend,
            15 => Kind::SignExtend,
            16 => Kind::Choose,
            32 => Kind::True,
            33 => Kind::False,
            34 => Kind::Equal,
            35 => Kind::AtMost,
            36 => Kind::SignedAtMost,
            40 => Kind::Not,
            41 => Kind::And,
            42 => Kind::Or,
            48 => Kind::Exists,
            49 => Kind::ForAll,
            _ => return None,
        })
    }

    /// The kind's row of the table.
    #[tactic(auto, unfolding(meaning::specs::Kind::rule_of, meaning::specs::Kind::rules))]
    pub fn rule(self) -> Rule
        ensures { row_as self result ≡ rule_of (number_of self) }
    {
        RULES[self as usize]
    }

    /// What operand k has to be, or `None` where an entry of this kind has no operand k. A bound variable is operand 0.
    pub fn need(self, k: usize) -> Option<Need>
        ensures { option_map need_as result ≡ slice_get (rule_of (number_of self)).operands k }
    {
        self.rule().operands.get(k).copied()
    }

    // How the widths of an entry of this kind and its operands fit.
    pub(crate) fn fit(self) -> Fit
        ensures { fit_as result ≡ (rule_of (number_of self)).widths }
    {
        self.rule().widths
    }

    /// How many levels an entry of this kind and width brings: the width, if it is a variable.
    #[tactic(auto, unfolding(meaning::specs::Kind::rule_of, meaning::specs::Kind::rules))]
    pub fn bits(self, width: u32) -> u32
        ensures { result ≡ bits_of (rule_of (number_of self)).sort width }
    {
        match self {
            Kind::Variable => width,
            _ => 0,
        }
    }
}
