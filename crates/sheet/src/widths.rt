//! Refusals 5 and 6 of one entry whose operands fit.
ghost use Rattle.std.specs.Prelude.{◌≡◌, ◌&&◌, ◌+◌, ◌-◌, ◌^◌, ◌≤◌, ◌<◌, eqb, ltb, leb, length, get_or, true};
ghost use Rattle.meaning.specs.Sheet.{count, rule_at};
ghost use Rattle.sheet.specs.Kind.{fit_as};
ghost use Rattle.sheet.specs.Laid.{Laid};
ghost use Rattle.sheet.specs.Entry.{operands_fit_at, operand_width_at, own_width_at, own_widths_at, widths_fit_at, in_range_at};

use crate::kind::{Fit, Need};
use crate::read::{constant, lower, operand, upper, width};
use crate::sheet::{Entry, Placed};

/// An entry whose operands are below it and what they have to be.
#[derive(Clone, Copy)]
pub struct Suited<'a> {
    pub own: Entry<'a>,
    pub ghost fit: { operands_fit_at own.sheet.bytes.now own.index ≡ true },
}

// The same of an entry in any sheet that is laid out.
#[derive(Clone, Copy)]
struct Fitted<'a> {
    own: Placed<'a>,
    ghost fit: { operands_fit_at own.bytes.now own.index ≡ true },
}

// Extract's width is u − l + 1, and u isn't below l.
fn spans(b: &[u8], w: u32) -> bool
    requires { length b.now ≡ 4 }
    ensures { result ≡ (leb (get_or b.now 3 0) (get_or b.now 2 0)
        && eqb w (get_or b.now 2 0 - get_or b.now 3 0 + 1)) }
{
    let u = upper(b);
    let l = lower(b);
    l <= u && w == u - l + 1
}

// Is the value below 2^w?
fn below_power(value: u32, w: u32) -> bool
    requires { w ≤ 32 }
    ensures { result ≡ ltb value (2 ^ w) }
{
    let power = 1u64 << w;
    u64::from(value) < power
}

/// 5: the widths of entry i, whose operands fit, and of its operands fit. Nothing is asked where its kind isn't in the table.
/// Plain bytes, and no `Suited`, as for `operands_fit`.
pub fn widths_fit(s: &[u8], i: usize) -> bool
    requires laid { Laid s.now }
    requires inside { i < count s.now }
    requires fit { operands_fit_at s.now i ≡ true }
    ensures { result ≡ widths_fit_at s.now i }
{
    match Placed::of(s, i) {
        Some(own) => Fitted { own }.widths_fit(),
        None => true,
    }
}

/// 6: the constant that entry i is isn't too large, and an extract's u lies inside the operand; its operands fit.
/// Plain bytes, and no `Suited`, as for `operands_fit`.
pub fn in_range(s: &[u8], i: usize) -> bool
    requires laid { Laid s.now }
    requires inside { i < count s.now }
    requires fit { operands_fit_at s.now i ≡ true }
    ensures { result ≡ in_range_at s.now i }
{
    match Placed::of(s, i) {
        Some(own) => Fitted { own }.in_range(),
        None => true,
    }
}

impl<'a> Fitted<'a> {
    // The width of operand k.
    fn operand_width(self, k: usize) -> u32
        requires { k < length (rule_at self.own.bytes.now self.own.index).operands }
        ensures value { result ≡ operand_width_at self.entry.own.bytes.now self.entry.own.index k }
        ensures few { result ≤ 32 }
    {
        width(self.own.bytes, operand(self.own.body, k))
    }

    // Operand k, if it is a term, has the entry's own width.
    fn own_width(self, k: usize) -> bool
        requires { k < length (rule_at self.own.bytes.now self.own.index).operands }
        ensures { result ≡ own_width_at self.entry.own.bytes.now self.entry.own.index k }
    {
        self.own.kind.need(k) != Some(Need::ATerm) || self.operand_width(k) == self.own.width
    }

    // Every operand that is a term has the entry's own width.
    #[tactic(auto, using(crate::proofs::Laws::Widths::own_begin))]
    fn own_widths(self) -> bool
        ensures { result ≡ own_widths_at self.entry.own.bytes.now self.entry.own.index }
    {
        // a `for`: a chain (`all` over the places) proves only with a lemma on its runs, and is no plainer
        for k in 0..self.own.kind.rule().operands.len() {
            if !self.own_width(k) {
                return false;
            }
        }
        true
    }

    // The widths fit.
    fn widths_fit(self) -> bool
        ensures { result ≡ widths_fit_at self.entry.own.bytes.now self.entry.own.index }
    {
        let w = self.own.width;
        match self.own.kind.fit() {
            Fit::Any | Fit::Below => true,
            Fit::Equal => self.own_widths(),
            Fit::Sum => w == self.operand_width(0) + self.operand_width(1),
            Fit::Span => spans(self.own.body, w),
            Fit::NoneWider => self.operand_width(0) <= w,
            Fit::Alike => self.operand_width(0) == self.operand_width(1),
        }
    }

    // The constant isn't too large, and an extract's u lies inside the operand.
    fn in_range(self) -> bool
        ensures { result ≡ in_range_at self.entry.own.bytes.now self.entry.own.index }
    {
        let w = self.own.width;
        match self.own.kind.fit() {
            Fit::Below => below_power(constant(self.own.body), w),
            Fit::Span => {
                let first = self.operand_width(0);
                upper(self.own.body) < first
            }
            _ => true,
        }
    }
}

impl<'a> Entry<'a> {
    /// How the widths of the entry and its operands fit.
    pub fn fit(self) -> Fit
        ensures { fit_as result ≡ (rule_at self.entry.sheet.bytes.now self.entry.index).widths }
    {
        self.kind.fit()
    }
}

impl<'a> Suited<'a> {
    /// 5: the widths fit.
    pub fn widths_fit(self) -> bool
        ensures { result ≡ widths_fit_at self.entry.own.sheet.bytes.now self.entry.own.index }
    {
        let own = self.own.placed();
        Fitted { own }.widths_fit()
    }

    /// 6: the constant isn't too large, and an extract's u lies inside the operand.
    pub fn in_range(self) -> bool
        ensures { result ≡ in_range_at self.entry.own.sheet.bytes.now self.entry.own.index }
    {
        let own = self.own.placed();
        Fitted { own }.in_range()
    }
}
