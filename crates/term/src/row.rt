//! One term's value: a row of 32 places with its width. Each place is a diagram's number or the unknown mark.
ghost use Rattle.std.specs.Prelude.{◌≡◌, ◌++◌, map, ◌+◌, ◌-◌, ◌<◌, ◌≤◌, get_or, take, drop, replicate};
ghost use Rattle.std.proofs.Math.Seq.{paste};
ghost use Rattle.meaning.specs.Number.{bits, digit};

use diagram::number::Diagram;

/// A row: its width, and the numbers of its places, bit 0 first. The places from the width on are no part of it.
// An array with a width beside it: memory is fixed, and rows are handed on by value. That the width is at most 32 stays in
// clauses: as a ghost field it would ask more of those who call `low_part`.
#[derive(Clone, Copy)]
pub struct Row {
    pub bits: [u32; 32],
    pub width: usize,
}

impl Row {
    ghost use Rattle.term.specs.Row.{places};

    /// Every place holds the same number.
    pub fn filled(width: usize, number: Diagram) -> Row
        requires { width ≤ 32 }
        ensures width { result.width ≡ width }
        ensures places { places result ≡ replicate width number }
    {
        Row {
            bits: [number.number(); 32],
            width,
        }
    }

    /// A constant's bits are terminals.
    pub fn constant(width: usize, value: u32) -> Row
        requires { width ≤ 32 }
        ensures width { result.width ≡ width }
        ensures places { places result ≡ map digit (bits width value) }
    {
        let mut bits = [0u32; 32];
        let mut rest = value;
        for i in 0..width {
            bits[i] = rest % 2;
            rest /= 2;
        }
        Row { bits, width }
    }

    /// The diagram at place i.
    pub fn place(&self, i: usize) -> Diagram
        requires { i < 32 }
        ensures { result ≡ get_or self.now.bits i 0 }
    {
        Diagram::new(self.bits[i])
    }

    /// This row, with `count` places of `of` from `from` on put at `at`.
    pub fn placed(self, at: usize, of: Row, from: usize, count: usize) -> Row
        requires narrow { (self.width ≤ 32) × (of.width ≤ 32) }
        requires fits { at + count ≤ self.width }
        requires inside { from + count ≤ of.width }
        ensures width { result.width ≡ self.width }
        ensures places { places result ≡ paste (places self) at (drop from (places of)) count }
    {
        let width = self.width;
        let mut bits = self.bits;
        bits[at..at + count].copy_from_slice(&of.bits[from..from + count]);
        Row { bits, width }
    }

    /// Up by k places; the places below are false.
    pub fn shift_left(self, k: usize) -> Row
        requires narrow { self.width ≤ 32 }
        requires inside { k ≤ self.width }
        ensures width { result.width ≡ self.width }
        ensures places { places result ≡ replicate k 0 ++ take (self.width - k) (places self) }
    {
        Row::filled(self.width, Diagram::FALSE).placed(k, self, 0, self.width - k)
    }

    /// Down by k places; the places above are false.
    pub fn shift_right(self, k: usize) -> Row
        requires narrow { self.width ≤ 32 }
        requires inside { k ≤ self.width }
        ensures width { result.width ≡ self.width }
        ensures places { places result ≡ drop k (places self) ++ replicate k 0 }
    {
        Row::filled(self.width, Diagram::FALSE).placed(0, self, k, self.width - k)
    }

    /// This row above the other: it is the high part.
    pub fn concat(self, low: Row) -> Row
        requires { self.width + low.width ≤ 32 }
        ensures width { result.width ≡ self.width + low.width }
        ensures places { places result ≡ places low ++ places self }
    {
        let wide = low.zero_extend(self.width + low.width);
        wide.placed(low.width, self, 0, self.width)
    }

    /// The lowest `count` places.
    pub fn low_part(self, count: usize) -> Row
        requires { count ≤ self.width }
        ensures width { result.width ≡ count }
        ensures places { places result ≡ take count (places self) }
    {
        let bits = self.bits;
        Row { bits, width: count }
    }

    /// Places l to u.
    pub fn extract(self, u: usize, l: usize) -> Row
        requires narrow { self.width ≤ 32 }
        requires order { l ≤ u }
        requires inside { u < self.width }
        ensures width { result.width ≡ u - l + 1 }
        ensures places { places result ≡ take (u - l + 1) (drop l (places self)) }
    {
        let width = u - l + 1;
        Row::filled(width, Diagram::FALSE).placed(0, self, l, width)
    }

    // The new places on top are all `number`.
    fn extended(self, width: usize, number: Diagram) -> Row
        requires narrow { width ≤ 32 }
        requires inside { self.width ≤ width }
        ensures width { result.width ≡ width }
        ensures places { places result ≡ places self ++ replicate (width - self.width) number }
    {
        Row::filled(width, number).placed(0, self, 0, self.width)
    }

    /// The new places on top are false.
    pub fn zero_extend(self, width: usize) -> Row
        requires narrow { width ≤ 32 }
        requires inside { self.width ≤ width }
        ensures width { result.width ≡ width }
        ensures places { places result ≡ places self ++ replicate (width - self.width) 0 }
    {
        self.extended(width, Diagram::FALSE)
    }

    /// The new places on top are the top bit, with its mark.
    pub fn sign_extend(self, width: usize) -> Row
        requires narrow { width ≤ 32 }
        requires inside { self.width ≤ width }
        requires some { 1 ≤ self.width }
        ensures width { result.width ≡ width }
        ensures places { places result ≡ places self ++ replicate (width - self.width) (get_or (places self) (self.width - 1) 0) }
    {
        self.extended(width, self.place(self.width - 1))
    }
}
