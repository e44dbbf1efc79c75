//! Refusal 4 of one entry.
ghost use Rattle.std.specs.Prelude.{◌≡◌, ◌<◌, length};
ghost use Rattle.meaning.specs.Sheet.{count, rule_at};
ghost use Rattle.meaning.specs.Check.{suits};
ghost use Rattle.sheet.specs.Kind.{sort_as, need_as};
ghost use Rattle.sheet.specs.Laid.{Laid};
ghost use Rattle.sheet.specs.Entry.{need_at, operand_fits_at, operands_fit_at};

use crate::kind::{Need, Sort};
use crate::read;
use crate::sheet::{Entry, Placed};

// Is an entry of this sort what an operand has to be? A variable is a term too.
fn suits(need: Need, sort: Sort) -> bool
    ensures { result ≡ suits (need_as need) (sort_as sort) }
{
    match need {
        Need::ATerm => !sort.is_formula(),
        Need::AFormula => sort.is_formula(),
        Need::AVariable => sort == Sort::Variable,
    }
}

/// 4: every operand of entry i is below it and what it has to be. An entry whose kind isn't in the table has no operand, and is
/// nothing that an operand has to be. Plain bytes, and no `Entry`: kinds and widths need not be those of a sheet that passes 2.
pub fn operands_fit(s: &[u8], i: usize) -> bool
    requires laid { Laid s.now }
    requires inside { i < count s.now }
    ensures { result ≡ operands_fit_at s.now i }
{
    match Placed::of(s, i) {
        Some(entry) => entry.operands_fit(),
        None => true,
    }
}

impl<'a> Placed<'a> {
    // Operand k is below the entry and what it has to be.
    fn operand_fits(self, k: usize) -> bool
        requires { k < length (rule_at self.bytes.now self.index).operands }
        ensures { result ≡ operand_fits_at self.entry.bytes.now self.entry.index k }
    {
        let j = read::operand(self.body, k);
        let below = j < self.index;
        if !below {
            return false;
        }
        match read::kind(self.bytes, j) {
            Some(other) => suits(self.kind.need(k).unwrap(), other.rule().sort),
            None => false,
        }
    }

    // Every operand is below the entry and what it has to be.
    #[tactic(auto, using(crate::proofs::Laws::Operands::fit_begin))]
    fn operands_fit(self) -> bool
        ensures { result ≡ operands_fit_at self.entry.bytes.now self.entry.index }
    {
        // a `for`: a chain (`all` over the places) proves only with a lemma on its runs, and is no plainer
        for k in 0..self.kind.rule().operands.len() {
            if !self.operand_fits(k) {
                return false;
            }
        }
        true
    }
}

impl<'a> Entry<'a> {
    /// How many operands the entry has; a bound variable is one.
    pub fn operand_count(self) -> usize
        ensures { result ≡ length (rule_at self.entry.sheet.bytes.now self.entry.index).operands }
    {
        self.kind.rule().operands.len()
    }

    /// What operand k has to be.
    pub fn need(self, k: usize) -> Need
        requires { k < length (rule_at self.sheet.bytes.now self.index).operands }
        ensures { need_as result ≡ need_at self.entry.sheet.bytes.now self.entry.index k }
    {
        self.kind.need(k).unwrap()
    }

    /// 4: every operand is below its entry and what it has to be.
    pub fn operands_fit(self) -> bool
        ensures { result ≡ operands_fit_at self.entry.sheet.bytes.now self.entry.index }
    {
        self.placed().operands_fit()
    }
}
