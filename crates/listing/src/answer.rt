//! The listing: the answer line alone on a refusal; on sat also the variables' values.
ghost use Rattle.std.specs.Prelude.{◌≡◌, ◌≤◌, length};
ghost use Rattle.meaning.specs.Sheet.{entries};
ghost use Rattle.meaning.specs.Check.{check};
ghost use Rattle.meaning.specs.Value.{assignment};
ghost use Rattle.meaning.specs.Program.{listed};

use crate::lines::put_entries;
use crate::text::Page;
use crate::value::Values;
use prover::answer::Numbers;

/// What the program prints: at most five lines of 82 bytes in all, then 256 lines of 34.
pub type Listing = Page<8786>;

/// The listing of these numbers. a says the witness of must, one byte a level.
// Numbers and no Result, since the clause `text` tells what is listed for any numbers; plain bytes, which need to be a checked sheet's
// only where the number is 0.
#[tactic(auto, using(sheet::proofs::Laws::Check::checked_laid, crate::proofs::Laws::Listing::listed_refused, crate::proofs::Laws::Listing::listed_judged, crate::proofs::Laws::Listing::listed_sat))]
pub fn listing(s: &[u8], n: Numbers, a: &[u8]) -> Listing
    requires passed { n.number ≡ 0 → check s.now ≡ 0 }
    ensures text { result ≡
        listed n.number n.verdict n.must n.may n.used (entries s.now) (assignment a.now) }
    ensures fits { length result ≤ 8786 }
{
    let mut page = Listing::new();
    page.put_line(b"answer ", n.number);
    if n.number != 0 {
        return page;
    }
    page.put_verdict(n.verdict);
    page.put_line(b"must ", n.must);
    page.put_line(b"may ", n.may);
    page.put_line(b"slots ", n.used);
    let sat = n.verdict == 1;
    if sat {
        let values = Values {
            sheet: s,
            assignment: a,
        };
        put_entries(values, &mut page);
    }
    page
}
