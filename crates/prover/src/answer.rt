//! What solve gives back.
ghost use Rattle.std.specs.Prelude.{◌≡◌};
ghost use Rattle.meaning.specs.Solve.{verdict_of};

use diagram::builder::NoRoom;
use diagram::number::Diagram;
use sheet::check;
use std::error::Error;
use std::fmt;

/// The verdict on a sheet's formula.
#[derive(Clone, Copy, Debug, PartialEq, Eq)]
pub enum Verdict {
    /// Some values of the free variables make it true.
    Sat,
    /// None do.
    Unsat,
    /// At this limit it can't be told.
    Unknown,
}

impl From<Verdict> for u32 {
    ghost use Rattle.prover.specs.Answer.{verdict_number};

    ghost from_gives = { λ verdict number. number ≡ verdict_number verdict };

    fn from(verdict: Verdict) -> u32 {
        match verdict {
            Verdict::Sat => 1,
            Verdict::Unsat => 2,
            Verdict::Unknown => 3,
        }
    }
}

impl fmt::Display for Verdict {
    ghost use Rattle.std.specs.Prelude.{Some};
    ghost use Rattle.meaning.specs.Program.{text, verdict_word};
    ghost use Rattle.prover.specs.Answer.{verdict_number};

    ghost output = { λ verdict. Some (text (verdict_word (verdict_number verdict))) };

    fn fmt<W: fmt::Write>(&self, f: &mut fmt::Formatter<W>) -> fmt::Result {
        f.write_str(self.word())
    }
}

impl Verdict {
    ghost use Rattle.meaning.specs.Program.{text, verdict_word};
    ghost use Rattle.prover.specs.Answer.{verdict_number};

    // The verdict's word: sat, unsat or unknown.
    fn word(self) -> &'static str
        ensures { result.now ≡ text (verdict_word (verdict_number self)) }
    {
        match self {
            Verdict::Sat => "sat",
            Verdict::Unsat => "unsat",
            Verdict::Unknown => "unknown",
        }
    }

    /// Sat when must isn't false, unsat when may is false, unknown otherwise.
    pub fn of(must: Diagram, may: Diagram) -> Self
        ensures { verdict_number result ≡ verdict_of must may }
    {
        if must != Diagram::FALSE {
            Verdict::Sat
        } else if may == Diagram::FALSE {
            Verdict::Unsat
        } else {
            Verdict::Unknown
        }
    }
}

/// Why there is no answer. All but `NoRoom` leave both buffers untouched.
#[derive(Clone, Copy, Debug, PartialEq, Eq)]
pub enum Refusal {
    /// 1 to 8: what is wrong with the sheet
    Sheet(check::Refusal),
    /// 9: the table's length is no multiple of 3, or above 3,145,728
    Table,
    /// 10: the work buffer has fewer than 8,192 numbers
    Work,
    /// 11: the steps need more nodes than the table has slots; both buffers are all zeros
    NoRoom,
}

impl From<check::Refusal> for Refusal {
    ghost use Rattle.prover.specs.declared.answer.Refusal.TheVariants as Cause;

    ghost from_gives = { λ refusal made. made ≡ Cause.Sheet refusal };

    fn from(refusal: check::Refusal) -> Refusal {
        Refusal::Sheet(refusal)
    }
}

impl From<NoRoom> for Refusal {
    ghost use Rattle.prover.specs.declared.answer.Refusal.TheVariants as Cause;

    ghost from_gives = { λ _ made. made ≡ Cause.NoRoom };

    fn from(_none: NoRoom) -> Refusal {
        Refusal::NoRoom
    }
}

impl From<Refusal> for u32 {
    ghost use Rattle.prover.specs.Answer.{number_of};

    ghost from_gives = { λ refusal number. number ≡ number_of refusal };

    fn from(refusal: Refusal) -> u32 {
        match refusal {
            Refusal::Sheet(cause) => cause.into(),
            Refusal::Table => 9,
            Refusal::Work => 10,
            Refusal::NoRoom => 11,
        }
    }
}

impl fmt::Display for Refusal {
    ghost use Rattle.std.specs.Prelude.{Some};
    ghost use Rattle.prover.specs.Answer.{text_of};

    ghost output = { λ refusal. Some (text_of refusal) };

    fn fmt<W: fmt::Write>(&self, f: &mut fmt::Formatter<W>) -> fmt::Result {
        match self {
            Refusal::Sheet(cause) => cause.fmt(f),
            Refusal::Table => f.write_str(
                "the table's length is no multiple of 3, or above 3,145,728",
            ),
            Refusal::Work => f.write_str("the work buffer has fewer than 8,192 numbers"),
            Refusal::NoRoom => f.write_str("the steps need more nodes than the table has slots"),
        }
    }
}

impl Error for Refusal {}

/// An answer: the verdict, the formula's must and may, and how many slots of the table are used.
#[derive(Clone, Copy, Debug, PartialEq, Eq)]
pub struct Solved {
    pub verdict: Verdict,
    pub must: Diagram,
    pub may: Diagram,
    pub used: u32,
}

/// The five numbers of an answer, as the C interface and the listing give them: 0 and the answer's, or the refusal's number and
/// zeros.
#[derive(Clone, Copy, Debug, PartialEq, Eq)]
pub struct Numbers {
    pub number: u32,
    pub verdict: u32,
    pub must: u32,
    pub may: u32,
    pub used: u32,
}

impl From<Result<Solved, Refusal>> for Numbers {
    ghost use Rattle.prover.specs.Answer.{answer_of};

    ghost from_gives = { λ answer numbers. numbers ≡ answer_of answer };

    fn from(answer: Result<Solved, Refusal>) -> Numbers {
        match answer {
            Ok(solved) => Numbers {
                number: 0,
                verdict: solved.verdict.into(),
                must: solved.must.number(),
                may: solved.may.number(),
                used: solved.used,
            },
            Err(refusal) => Numbers {
                number: refusal.into(),
                verdict: 0,
                must: 0,
                may: 0,
                used: 0,
            },
        }
    }
}
