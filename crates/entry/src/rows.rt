//! The entries' values in a buffer, 32 numbers an entry: a term's places, or a formula's must and may in the first two. Plain words:
//! the buffer is the work buffer that a caller lends.
ghost use Rattle.std.specs.Prelude.{◌≡◌, ◌+◌, ◌*◌, ◌≤◌, get_or, length};
ghost use Rattle.entry.specs.Rows.{Reads, Keeps};

use diagram::number::Diagram;
use formula::pair::Pair;
use term::row::Row;

/// The value of entry o, whose width is this.
pub fn value_at(rows: &[u32], o: usize, width: usize) -> Row
    requires { 32 * o + 32 ≤ length rows.now }
    ensures { Reads rows.now o width result }
{
    let mut bits = [0; 32];
    bits.copy_from_slice(&rows[32 * o..32 * o + 32]);
    Row { bits, width }
}

/// The must and the may of entry o, a formula.
pub fn pair_at(rows: &[u32], o: usize) -> Pair
    requires { 32 * o + 32 ≤ length rows.now }
    ensures { result ≡ record { must = get_or rows.now (32 * o) 0; may = get_or rows.now (32 * o + 1) 0 } }
{
    Pair {
        must: Diagram::new(rows[32 * o]),
        may: Diagram::new(rows[32 * o + 1]),
    }
}

/// From now on the value of entry i.
pub fn keep(rows: &mut [u32], i: usize, value: &Row)
    requires { 32 * i + 32 ≤ length rows.old }
    ensures { Keeps rows.old i value.now rows.new }
{
    rows[32 * i..32 * i + 32].copy_from_slice(&value.bits);
}
