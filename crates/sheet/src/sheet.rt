//! A sheet that is laid out, and its entries: built once refusals 1, 2 and 3 are checked.
ghost use Rattle.std.specs.Prelude.{◌≡◌, ◌<◌, ◌≤◌, IfOk, IfSome, IfNone, get_or};
ghost use Rattle.meaning.specs.Kind.{no_rule};
ghost use Rattle.meaning.specs.Sheet.{count, record_at, rule_at, width_at, entries};
ghost use Rattle.meaning.specs.Level.{levels};
ghost use Rattle.sheet.specs.Kind.{number_of, sort_as};
ghost use Rattle.sheet.specs.Laid.{Laid, Known, IsEntry, contents_refusal};
ghost use Rattle.sheet.specs.Answer.{outcome};

use crate::check::Refusal;
use crate::contents::{kinds_fit, places_fit, short};
use crate::kind::{Kind, Sort};
use crate::{level, read};

/// The bytes of a sheet whose records and bodies lie where they should, with kinds of the table and widths that are allowed.
#[derive(Clone, Copy)]
pub struct Sheet<'a> {
    pub bytes: &'a [u8],
    pub ghost is_laid_out: { Laid bytes.now },
    pub ghost is_known: { Known bytes.now },
}

/// Entry `index` of such a sheet. Its body is a part of the sheet itself.
#[derive(Clone, Copy)]
pub struct Entry<'a> {
    pub sheet: Sheet<'a>,
    pub index: usize,
    pub kind: Kind,
    pub width: u32,
    pub body: &'a [u8],
    pub ghost is_entry: { IsEntry sheet.bytes.now index kind width body.now },
}

// Entry `index` of a sheet that is laid out, whose kind is in the table. Unlike for an `Entry`, the other entries may be of any
// kind, and no width need be allowed for its sort.
#[derive(Clone, Copy)]
pub(crate) struct Placed<'a> {
    pub bytes: &'a [u8],
    pub index: usize,
    pub kind: Kind,
    pub width: u32,
    pub body: &'a [u8],
    pub ghost is_laid_out: { Laid bytes.now },
    pub ghost is_entry: { IsEntry bytes.now index kind width body.now },
}

impl<'a> Placed<'a> {
    // Entry i of the sheet in these bytes, or `None` where the table has no such kind.
    pub(crate) fn of(s: &'a [u8], i: usize) -> Option<Placed<'a>>
        requires laid { Laid s.now }
        requires inside { i < count s.now }
        ensures none { IfNone result (rule_at s.now i ≡ no_rule) }
        ensures bytes { IfSome result (λ entry. entry.bytes.now ≡ s.now) }
        ensures index { IfSome result (λ entry. entry.index ≡ i) }
    {
        let kind = read::kind(s, i)?;
        Some(Placed {
            bytes: s,
            index: i,
            kind,
            width: read::width(s, i),
            body: read::body(s, i),
        })
    }
}

impl<'a> Entry<'a> {
    // The entry, without what its sheet says of the others.
    pub(crate) fn placed(self) -> Placed<'a>
        ensures bytes { result.bytes.now ≡ self.entry.sheet.bytes.now }
        ensures index { result.index ≡ self.entry.index }
    {
        Placed {
            bytes: self.sheet.bytes,
            index: self.index,
            kind: self.kind,
            width: self.width,
            body: self.body,
        }
    }
}

impl<'a> Sheet<'a> {
    /// The sheet in these bytes, or the first of refusals 1, 2 and 3: `Short`, `Kinds`, `Places`, each over the whole sheet.
    #[tactic(auto, using(crate::proofs::Laws::Check::contents_sized, crate::proofs::Laws::Check::contents_known, crate::proofs::Laws::Check::contents_laid), unfolding(crate::specs::Laid::contents_refusal))]
    pub fn new(bytes: &'a [u8]) -> Result<Sheet<'a>, Refusal>
        ensures refusal { outcome result ≡ contents_refusal bytes.now }
        ensures bytes { IfOk result (λ sheet. sheet.bytes.now ≡ bytes.now) }
    {
        if short(bytes) {
            return Err(Refusal::Short);
        }
        let n = read::count(bytes);
        if !kinds_fit(bytes, n) {
            return Err(Refusal::Kinds);
        }
        if !places_fit(bytes, n) {
            return Err(Refusal::Places);
        }
        Ok(Sheet { bytes })
    }

    /// How many entries there are.
    pub fn count(self) -> usize
        ensures value { result ≡ count self.entry.bytes.now }
        ensures some { 1 ≤ result }
        ensures few { result ≤ 256 }
    {
        read::count(self.bytes)
    }

    /// The kind of entry `index`.
    pub fn kind(self, index: usize) -> Kind
        requires { index < count self.bytes.now }
        ensures { number_of result ≡ get_or self.entry.bytes.now (record_at index) 0 }
    {
        read::kind(self.bytes, index).unwrap()
    }

    /// The sort of entry `index`.
    pub fn sort(self, index: usize) -> Sort
        requires { index < count self.bytes.now }
        ensures { sort_as result ≡ (rule_at self.entry.bytes.now index).sort }
    {
        self.kind(index).rule().sort
    }

    /// The width of entry `index`.
    pub fn width(self, index: usize) -> u32
        requires { index < count self.bytes.now }
        ensures value { result ≡ width_at self.entry.bytes.now index }
        ensures few { result ≤ 32 }
    {
        read::width(self.bytes, index)
    }

    /// Entry `index`.
    pub fn entry(self, index: usize) -> Entry<'a>
        requires { index < count self.bytes.now }
        ensures sheet { result.sheet.bytes.now ≡ self.entry.bytes.now }
        ensures index { result.index ≡ index }
    {
        Entry {
            sheet: self,
            index,
            kind: self.kind(index),
            width: self.width(index),
            body: read::body(self.bytes, index),
        }
    }

    /// How many levels there are.
    pub fn levels(self) -> u32
        ensures { result ≡ levels (entries self.entry.bytes.now) }
    {
        level::levels(self.bytes)
    }
}
