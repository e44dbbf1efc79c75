//! What is made of sums: negation and multiplication.
ghost use Rattle.std.specs.Prelude.{◌*◌, ◌≤◌};
ghost use Rattle.meaning.specs.Row as Definition;
ghost use Rattle.diagram.specs.State.{Ready};
ghost use Rattle.term.specs.Row.{BitKnown, RowKnown};
ghost use Rattle.term.specs.Add.{Addable, OnRow, OnRows, OnBit};

use crate::add::add;
use crate::bitwise;
use crate::bitwise::Operation;
use crate::row::Row;
use diagram::builder::{Builder, Made, NoRoom};
use diagram::count::Marks;
use diagram::number::Diagram;
use diagram::scratch::Scratch;
use diagram::table::Cell;

/// The negative of a row at the limit: the bitwise not, then add constant 1. `NoRoom` comes exactly where the steps need more
/// nodes than the table has slots. The marks are for 1,048,576 slots or more, those of the largest table.
pub fn negate(
    b: Builder,
    t: &mut [Cell],
    s: &mut Scratch,
    marks: &mut Marks,
    limit: u32,
    x: Row,
) -> Result<Made<Row>, NoRoom>
    requires addable { Addable t.old s.old b x x }
    ensures { OnRow (λ n. Definition.negate n limit) x t.old b t.new s.new result }
{
    let flipped = bitwise::work(b, t, s, Operation::Not, x, x)?;
    add(
        flipped.at,
        t,
        s,
        marks,
        limit,
        flipped.value,
        Row::constant(x.width, 1),
    )
}

// The row whose places below j are false and whose place k is x(k - j) and the bit y.
fn partial(
    b: Builder,
    t: &mut [Cell],
    s: &mut Scratch,
    j: usize,
    x: Row,
    y: Diagram,
) -> Result<Made<Row>, NoRoom>
    requires ready { Ready t.old s.old b }
    requires known { RowKnown b x × BitKnown b y }
    requires inside { j ≤ x.width }
    ensures { OnBit j x y t.old b t.new s.new result }
{
    let left = x.width - j;
    let low = x.low_part(left);
    let many = Row::filled(left, y);
    let made = bitwise::work(b, t, s, Operation::And, low, many)?;
    let zeros = Row::filled(x.width, Diagram::FALSE);
    let row = zeros.placed(j, made.value, 0, left);
    Ok(Made {
        at: made.at,
        value: row,
    })
}

/// The product of two rows of one width at the limit: start with zero; for each bit of `y`, 0 first, add its row. `NoRoom` comes
/// exactly where the steps need more nodes than the table has slots. The marks are for 1,048,576 slots or more, those of the
/// largest table.
pub fn multiply(
    b: Builder,
    t: &mut [Cell],
    s: &mut Scratch,
    marks: &mut Marks,
    limit: u32,
    x: Row,
    y: Row,
) -> Result<Made<Row>, NoRoom>
    requires addable { Addable t.old s.old b x y }
    ensures { OnRows (λ n. Definition.multiply n limit) x y t.old b t.new s.new result }
{
    let width = x.width;
    let mut at = b;
    let mut sum = Row::filled(width, Diagram::FALSE);
    for j in 0..width {
        let more = partial(at, t, s, j, x, y.place(j))?;
        let added = add(more.at, t, s, marks, limit, sum, more.value)?;
        at = added.at;
        sum = added.value;
    }
    Ok(Made { at, value: sum })
}
