//! The page that a listing is written on: each piece of text is appended to what stands there. And the same pieces put into a lent
//! buffer of any length, from a place in it on.
ghost use Rattle.std.specs.Prelude.{◌≡◌, ◌+◌, ◌≤◌, [], ◌++◌, length};
ghost use Rattle.listing.specs.Pieces.{digits, number_line, verdict_line};
ghost use Rattle.listing.specs.Written.{Written};

use arrayvec::ArrayVec;
use itoa::Buffer;
use std::marker::Model;

/// A page with room for N bytes.
#[derive(Drop)]
pub struct Page<const N: usize> {
    bytes: ArrayVec<u8, N>,
}

impl<const N: usize> Model for Page<N> {
    ghost use Rattle.std.specs.Prelude.{ℕ, List};

    ghost Value = { List ℕ };

    ghost view = { λ p. p.bytes.items };
}

impl<const N: usize> Page<N> {
    /// An empty page.
    pub fn new() -> Self
        ensures { result ≡ [] }
    {
        Page {
            bytes: ArrayVec::new(),
        }
    }

    /// What stands on the page.
    pub fn as_bytes(&self) -> &[u8]
        ensures { result.now ≡ self.now }
    {
        self.bytes.as_slice()
    }

    /// Some bytes.
    pub fn put(&mut self, text: &[u8])
        requires room { length self.old + length text.now ≤ N }
        ensures { self.new ≡ self.old ++ text.now }
    {
        self.bytes.try_extend_from_slice(text).unwrap()
    }

    /// A number in decimal, with no zeros in front.
    #[tactic(auto, using(crate::proofs::Laws::Decimal::decimal_digits))]
    pub fn put_decimal(&mut self, n: u32)
        requires room { length self.old + 10 ≤ N }
        ensures text { self.new ≡ self.old ++ digits n }
        ensures short { length self.new ≤ length self.old + 10 }
    {
        let mut buffer = Buffer::new();
        let digits = buffer.format(n).as_bytes();
        self.put(digits)
    }

    /// A word with its space, a number, the end of the line.
    #[tactic(auto, unfolding(crate::specs::Pieces::number_line))]
    pub fn put_line(&mut self, word: &[u8], n: u32)
        requires room { length self.old + length word.now + 11 ≤ N }
        ensures text { self.new ≡ self.old ++ number_line word.now n }
        ensures short { length self.new ≤ length self.old + length word.now + 11 }
    {
        self.put(word);
        self.put_decimal(n);
        self.put(b"\n")
    }

    /// The verdict's line: 1 is sat, 2 unsat, any other number unknown.
    // A number and no Verdict, since the clause `text` tells each number's line.
    #[tactic(auto, using(crate::proofs::Laws::Listing::verdict_sat, crate::proofs::Laws::Listing::verdict_unsat, crate::proofs::Laws::Listing::verdict_unknown))]
    pub fn put_verdict(&mut self, verdict: u32)
        requires room { length self.old + 16 ≤ N }
        ensures text { self.new ≡ self.old ++ verdict_line verdict }
        ensures short { length self.new ≤ length self.old + 16 }
    {
        match verdict {
            1 => self.put(b"verdict sat\n"),
            2 => self.put(b"verdict unsat\n"),
            _ => self.put(b"verdict unknown\n"),
        }
    }
}

/// Puts some bytes into a lent buffer, from `at` on, and gives the place behind them.
pub fn put(out: &mut [u8], at: usize, text: &[u8]) -> usize
    requires { at + length text.now ≤ length out.old }
    ensures { Written out.old at out.new result text.now }
{
    let end = at + text.len();
    out[at..end].copy_from_slice(text);
    end
}

/// Puts a number in decimal, with no zeros in front, and gives the place behind it.
pub fn put_decimal(out: &mut [u8], at: usize, n: u32) -> usize
    requires { at + 10 ≤ length out.old }
    ensures text { Written out.old at out.new result (digits n) }
    ensures short { result ≤ at + 10 }
{
    let mut page = Page::<10>::new();
    page.put_decimal(n);
    put(out, at, page.as_bytes())
}

/// Puts a word with its space, a number and the end of the line, and gives the place behind them.
// By pieces, and not by way of a page: the word has any length.
#[tactic(auto, unfolding(crate::specs::Pieces::number_line), using(crate::proofs::Laws::Written::written_then))]
pub fn put_line(out: &mut [u8], at: usize, word: &[u8], n: u32) -> usize
    requires { at + length word.now + 11 ≤ length out.old }
    ensures text { Written out.old at out.new result (number_line word.now n) }
    ensures short { result ≤ at + length word.now + 11 }
{
    let number = put(out, at, word);
    let end = put_decimal(out, number, n);
    put(out, end, b"\n")
}

/// Puts the verdict's line, 1 is sat, 2 unsat, any other number unknown, and gives the place behind it.
pub fn put_verdict(out: &mut [u8], at: usize, verdict: u32) -> usize
    requires { at + 16 ≤ length out.old }
    ensures text { Written out.old at out.new result (verdict_line verdict) }
    ensures short { result ≤ at + 16 }
{
    let mut page = Page::<16>::new();
    page.put_verdict(verdict);
    put(out, at, page.as_bytes())
}
