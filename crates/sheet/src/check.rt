//! The check of a sheet: the first refusal among 1 to 8.
ghost use Rattle.std.specs.Prelude.{◌≡◌, ◌<◌, Some};
ghost use Rattle.meaning.specs.Sheet.{entries};
ghost use Rattle.meaning.specs.Check.{entries_refusal, meaning_refusal, check};
ghost use Rattle.sheet.specs.Entry.{refusal_at};
ghost use Rattle.sheet.specs.Answer.{number_of, text_of, outcome};

use crate::sheet::{Entry, Sheet};
use crate::widths::Suited;
use std::error::Error;
use std::fmt;

/// What is wrong with a sheet.
#[derive(Clone, Copy, Debug, PartialEq, Eq)]
pub enum Refusal {
    /// 1: fewer than 2 bytes, no entry, more than 256 entries, or fewer bytes than the table of contents takes
    Short,
    /// 2: a kind that isn't in the table, or a width that isn't allowed for its sort
    Kinds,
    /// 3: a body that doesn't begin where the one before it ends (the first: where the table of contents ends), or a sheet that
    /// doesn't end with the last body
    Places,
    /// 4: an operand that isn't below its entry, or isn't what it has to be
    Operands,
    /// 5: widths of an entry and its operands that don't fit, or an extract whose lower bit is above its upper
    Widths,
    /// 6: a constant too large for its width, or an extract that reaches beyond its operand
    Range,
    /// 7: variables of more than 128 bits together
    Levels,
    /// 8: a last entry that is a term
    Term,
}

/// A refusal's number, 1 to 8.
impl From<Refusal> for u32 {
    ghost from_gives = { λ refusal number. number ≡ number_of refusal };

    fn from(refusal: Refusal) -> u32 {
        match refusal {
            Refusal::Short => 1,
            Refusal::Kinds => 2,
            Refusal::Places => 3,
            Refusal::Operands => 4,
            Refusal::Widths => 5,
            Refusal::Range => 6,
            Refusal::Levels => 7,
            Refusal::Term => 8,
        }
    }
}

impl fmt::Display for Refusal {
    ghost output = { λ refusal. Some (text_of refusal) };

    fn fmt<W: fmt::Write>(&self, f: &mut fmt::Formatter<W>) -> fmt::Result {
        f.write_str(match self {
            Refusal::Short =>
                "the sheet is too short for its table of contents, or has no entry or too many",
            Refusal::Kinds => "a kind isn't in the table, or a width isn't allowed for it",
            Refusal::Places =>
                "the bodies don't lie back to back from the table of contents to the sheet's end",
            Refusal::Operands => "an operand isn't below its entry, or isn't what it has to be",
            Refusal::Widths =>
                "the widths of an entry and its operands don't fit, or an extract's lower bit is above its upper",
            Refusal::Range =>
                "a constant is too large for its width, or an extract reaches beyond its operand",
            Refusal::Levels => "the variables have more than 128 bits",
            Refusal::Term => "the last entry isn't a formula",
        })
    }
}

impl Error for Refusal {}

// The first of 4, 5 and 6 that an entry gives.
#[tactic(auto, unfolding(meaning::specs::Check::entry_refusal))]
fn entry_refusal(entry: Entry) -> Result<(), Refusal>
    ensures { outcome result ≡ refusal_at entry.entry.sheet.bytes.now entry.entry.index }
{
    if !entry.operands_fit() {
        return Err(Refusal::Operands);
    }
    let suited = Suited { own: entry };
    if !suited.widths_fit() {
        return Err(Refusal::Widths);
    }
    if !suited.in_range() {
        return Err(Refusal::Range);
    }
    Ok(())
}

// 4, 5 and 6 entry by entry.
#[tactic(auto, using(crate::proofs::Laws::Check::refused_begin, crate::proofs::Laws::Check::refused_more, crate::proofs::Laws::Check::refused_by))]
fn entries_refusal(sheet: Sheet) -> Result<(), Refusal>
    ensures { outcome result ≡
        entries_refusal (entries sheet.entry.bytes.now) 0 (entries sheet.entry.bytes.now) }
{
    for i in 0..sheet.count() {
        entry_refusal(sheet.entry(i))?;
    }
    Ok(())
}

// The most levels a sheet may have.
const MOST_LEVELS: u32 = 128;

// 4 to 8 of a sheet that is laid out.
#[tactic(auto, using(crate::proofs::Laws::Check::last_is), unfolding(meaning::specs::Check::meaning_refusal))]
fn meaning_refusal(sheet: Sheet) -> Result<(), Refusal>
    ensures { outcome result ≡ meaning_refusal (entries sheet.entry.bytes.now) }
{
    entries_refusal(sheet)?;
    if MOST_LEVELS < sheet.levels() {
        return Err(Refusal::Levels);
    }
    let last = sheet.sort(sheet.count() - 1);
    let formula = last.is_formula();
    if !formula {
        return Err(Refusal::Term);
    }
    Ok(())
}

/// The check, for any bytes: `Short`, `Kinds` and `Places` each over the whole sheet, then `Operands`, `Widths` and `Range`
/// entry by entry, then `Levels`, then `Term`. The error is the first of these that is there.
#[tactic(auto, using(crate::proofs::Laws::Check::check_first))]
pub fn check(s: &[u8]) -> Result<(), Refusal>
    ensures { outcome result ≡ check s.now }
{
    meaning_refusal(Sheet::new(s)?)
}
