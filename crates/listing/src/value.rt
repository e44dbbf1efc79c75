//! The values of a sheet's variables, where an assignment's bytes say each level's bit.
ghost use Rattle.std.specs.Prelude.{◌≡◌, ◌<◌};
ghost use Rattle.meaning.specs.Number.{digit};
ghost use Rattle.meaning.specs.Sheet.{count, entries, entry_at};
ghost use Rattle.meaning.specs.Level.{level, value_of, variable_bits};
ghost use Rattle.meaning.specs.Value.{assignment};
ghost use Rattle.sheet.specs.Laid.{Laid};

use sheet::level::{bits_of, level};

/// A sheet that is laid out, and an assignment, one byte a level: the level's bit is 1 where the byte is 1. (`sheet::Sheet` would ask
/// for known kinds too, which a value doesn't need.)
#[derive(Clone, Copy)]
pub struct Values<'a> {
    pub sheet: &'a [u8],
    pub assignment: &'a [u8],
    pub ghost is_laid_out: { Laid sheet.now },
}

impl<'a> Values<'a> {
    // Bit b of variable entry i.
    fn bit(self, i: usize, b: u32) -> u32
        requires inside { i < count self.sheet.now }
        requires has_bit { b < variable_bits (entry_at self.sheet.now i) }
        ensures { result ≡ digit (assignment self.entry.assignment.now (level (entries self.entry.sheet.now) i b)) }
    {
        match self.assignment.get(level(self.sheet, i, b) as usize) {
            Some(1) => 1,
            _ => 0,
        }
    }

    /// The value of entry i, from its top bit down; 0 where it is no variable.
    #[tactic(auto, using(crate::proofs::Laws::Value::summed_more, crate::proofs::Laws::Value::summed_end))]
    pub fn value_of(self, i: usize) -> u32
        requires inside { i < count self.sheet.now }
        ensures { result ≡ value_of (entries self.entry.sheet.now) (assignment self.entry.assignment.now) i }
    {
        let mut value = 0u32;
        for b in (0..bits_of(self.sheet, i)).rev() {
            value = 2 * value + self.bit(i, b);
        }
        value
    }
}
