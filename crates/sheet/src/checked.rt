//! A sheet that has passed the check, and its entries.
ghost use Rattle.std.specs.Prelude.{◌≡◌, ◌⊎◌, ◌<◌, ◌≤◌, IfOk, length};
ghost use Rattle.meaning.specs.Sheet.{count, operand, constant_of, amount, upper, lower};
ghost use Rattle.meaning.specs.Level.{level, levels, variable_bits};
ghost use Rattle.meaning.specs.Check.{check};
ghost use Rattle.sheet.specs.Laid.{IsEntry};
ghost use Rattle.sheet.specs.Answer.{outcome};

use crate::check::{Refusal, check};
use crate::kind::Kind;
use crate::sheet::Sheet;
use crate::{level, read};

// Fields and methods stand here as for `Sheet` and `Entry`: a checked entry that held an `Entry` would hold its sheet twice, and
// each field would be one name further away.
/// The bytes of a sheet that has passed the check.
#[derive(Clone, Copy)]
pub struct CheckedSheet<'a> {
    pub bytes: &'a [u8],
    pub ghost passed: { check bytes.now ≡ 0 },
}

/// Entry `index` of such a sheet. Its body is a part of the sheet itself.
#[derive(Clone, Copy)]
pub struct CheckedEntry<'a> {
    pub sheet: CheckedSheet<'a>,
    pub index: usize,
    pub kind: Kind,
    pub width: u32,
    pub body: &'a [u8],
    pub ghost is_entry: { IsEntry sheet.bytes.now index kind width body.now },
}

impl<'a> CheckedSheet<'a> {
    /// The sheet in these bytes, or the first refusal of the check, as `check` gives it.
    pub fn new(bytes: &'a [u8]) -> Result<CheckedSheet<'a>, Refusal>
        ensures refusal { outcome result ≡ check bytes.now }
        ensures bytes { IfOk result (λ sheet. sheet.bytes.now ≡ bytes.now) }
    {
        check(bytes)?;
        Ok(CheckedSheet { bytes })
    }

    // What is laid out and has kinds of the table.
    #[tactic(auto, using(crate::proofs::Laws::Check::checked_laid, crate::proofs::Laws::Check::checked_known))]
    fn laid_out(self) -> Sheet<'a>
        ensures { result.bytes.now ≡ self.entry.bytes.now }
    {
        Sheet { bytes: self.bytes }
    }

    /// How many entries there are.
    pub fn count(self) -> usize
        ensures value { result ≡ count self.entry.bytes.now }
        ensures some { 1 ≤ result }
        ensures few { result ≤ 256 }
    {
        self.laid_out().count()
    }

    /// Entry `index`.
    pub fn entry(self, index: usize) -> CheckedEntry<'a>
        requires { index < count self.bytes.now }
        ensures sheet { result.sheet.bytes.now ≡ self.entry.bytes.now }
        ensures index { result.index ≡ index }
    {
        let entry = self.laid_out().entry(index);
        CheckedEntry {
            sheet: self,
            index,
            kind: entry.kind,
            width: entry.width,
            body: entry.body,
        }
    }
}

impl<'a> CheckedEntry<'a> {
    ghost use Rattle.sheet.specs.Checked.{entry_as, all_of};

    /// How many operands the entry has; a bound variable is one.
    pub fn operand_count(self) -> usize
        ensures { result ≡ length (entry_as self.entry).rule.operands }
    {
        self.kind.rule().operands.len()
    }

    /// Operand k: an entry below this one.
    pub fn operand(self, k: usize) -> CheckedEntry<'a>
        requires { k < length (entry_as self).rule.operands }
        ensures sheet { result.sheet.bytes.now ≡ self.entry.sheet.bytes.now }
        ensures index { result.index ≡ operand (entry_as self.entry) k }
        ensures below { result.index < self.entry.index }
    {
        self.sheet.entry(read::operand(self.body, k))
    }

    /// A constant's value.
    pub fn constant(self) -> u32
        requires { self.kind ≡ Kind.Constant }
        ensures { result ≡ constant_of (entry_as self.entry) }
    {
        read::constant(self.body)
    }

    /// A shift's amount, as written.
    pub fn amount(self) -> u32
        requires { (self.kind ≡ Kind.ShiftLeft) ⊎ (self.kind ≡ Kind.ShiftRight) }
        ensures value { result ≡ amount (entry_as self.entry) }
        ensures small { result < 256 }
    {
        read::amount(self.body)
    }

    /// An extract's upper bit.
    #[tactic(auto, using(crate::proofs::Laws::Check::checked_laid, crate::proofs::Laws::Sheet::extract_long))]
    pub fn upper(self) -> u32
        requires { self.kind ≡ Kind.Extract }
        ensures value { result ≡ upper (entry_as self.entry) }
        ensures small { result < 256 }
    {
        read::upper(self.body)
    }

    /// An extract's lower bit.
    #[tactic(auto, using(crate::proofs::Laws::Check::checked_laid, crate::proofs::Laws::Sheet::extract_long))]
    pub fn lower(self) -> u32
        requires { self.kind ≡ Kind.Extract }
        ensures value { result ≡ lower (entry_as self.entry) }
        ensures small { result < 256 }
    {
        read::lower(self.body)
    }

    /// How many levels the entry brings: its width, if it is a variable, and 0 if it isn't.
    pub fn bits(self) -> u32
        ensures value { result ≡ variable_bits (entry_as self.entry) }
        ensures few { result ≤ 32 }
    {
        self.kind.bits(self.width)
    }

    /// The level of a bit of a variable.
    #[tactic(auto, using(crate::proofs::Laws::Check::checked_laid))]
    pub fn level(self, bit: u32) -> u32
        requires { bit < variable_bits (entry_as self) }
        ensures value { result ≡ level (all_of self.entry) self.entry.index bit }
        ensures below { result < levels (all_of self.entry) }
    {
        level::level(self.sheet.bytes, self.index, bit)
    }
}
