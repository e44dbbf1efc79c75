//! What stands where in a sheet. Each function says which bytes have to be there.
//! They take plain bytes, as docs/PROMISES.md names them: the check calls some before there is a `Sheet`.
ghost use Rattle.std.specs.Prelude.{◌≡◌, ◌+◌, ◌*◌, ◌≤◌, ◌<◌, length, get_or, take, drop};
ghost use Rattle.meaning.specs.Number.{little};
ghost use Rattle.meaning.specs.Sheet.{pair_at, count, record_at, rule_at, width_at, place, body};
ghost use Rattle.sheet.specs.Kind.{Decodes};

use crate::kind::Kind;

// The two-byte number at a place.
fn pair_at(s: &[u8], at: usize) -> usize
    requires { at + 2 ≤ length s.now }
    ensures value { result ≡ pair_at at s.now }
    ensures small { result < 65536 }
{
    usize::from(u16::from_le_bytes([s[at], s[at + 1]]))
}

/// N, the number of entries.
pub fn count(s: &[u8]) -> usize
    requires { 2 ≤ length s.now }
    ensures { result ≡ count s.now }
{
    pair_at(s, 0)
}

/// The kind number of entry i, as written.
pub fn number(s: &[u8], i: usize) -> u8
    requires { record_at (i + 1) ≤ length s.now }
    ensures { result ≡ get_or s.now (record_at i) 0 }
{
    s[2 + 4 * i]
}

/// The kind of entry i, or `None` where the table of kinds has no such number.
pub fn kind(s: &[u8], i: usize) -> Option<Kind>
    requires { record_at (i + 1) ≤ length s.now }
    ensures { Decodes (get_or s.now (record_at i) 0) result }
{
    Kind::of(number(s, i))
}

/// The width of entry i.
pub fn width(s: &[u8], i: usize) -> u32
    requires { record_at (i + 1) ≤ length s.now }
    ensures value { result ≡ width_at s.now i }
    ensures small { result < 256 }
{
    u32::from(s[2 + 4 * i + 1])
}

/// Where entry i's body begins.
pub fn place(s: &[u8], i: usize) -> usize
    requires { record_at (i + 1) ≤ length s.now }
    ensures value { result ≡ place s.now i }
    ensures small { result < 65536 }
{
    pair_at(s, 2 + 4 * i + 2)
}

/// So many bytes from entry i's place on, as a part of the sheet itself.
pub fn part<'a>(s: &'a [u8], i: usize, many: usize) -> &'a [u8]
    requires i_in_bounds { record_at (i + 1) ≤ length s.now }
    requires many_in_bounds { place s.now i + many ≤ length s.now }
    ensures { result.now ≡ take many (drop (place s.now i) s.now) }
{
    let at = place(s, i);
    &s[at..at + many]
}

/// How long entry i's body is by its kind, in bytes; 0 where the table has no such kind.
pub fn body_length(s: &[u8], i: usize) -> usize
    requires { record_at (i + 1) ≤ length s.now }
    ensures value { result ≡ (rule_at s.now i).body }
    ensures small { result < 256 }
{
    match kind(s, i) {
        Some(kind) => usize::from(kind.rule().body),
        None => 0,
    }
}

/// Entry i's body, as a part of the sheet itself.
pub fn body<'a>(s: &'a [u8], i: usize) -> &'a [u8]
    requires i_in_bounds { record_at (i + 1) ≤ length s.now }
    requires body_in_bounds { place s.now i + (rule_at s.now i).body ≤ length s.now }
    ensures { result.now ≡ body s.now i }
{
    part(s, i, body_length(s, i))
}

/// Operand k of a body, an entry number.
pub fn operand(body: &[u8], k: usize) -> usize
    requires { 2 * k + 2 ≤ length body.now }
    ensures value { result ≡ pair_at (2 * k) body.now }
    ensures small { result < 65536 }
{
    pair_at(body, 2 * k)
}

/// A constant's value.
pub fn constant(body: &[u8]) -> u32
    requires { length body.now ≡ 4 }
    ensures { result ≡ little body.now }
{
    u32::from_le_bytes([body[0], body[1], body[2], body[3]])
}

/// A shift's amount, as written. An extract has u, its upper bit, at the same place.
pub fn amount(body: &[u8]) -> u32
    requires { 3 ≤ length body.now }
    ensures value { result ≡ get_or body.now 2 0 }
    ensures small { result < 256 }
{
    u32::from(body[2])
}

/// An extract's u.
pub fn upper(body: &[u8]) -> u32
    requires { 3 ≤ length body.now }
    ensures value { result ≡ get_or body.now 2 0 }
    ensures small { result < 256 }
{
    amount(body)
}

/// An extract's l.
pub fn lower(body: &[u8]) -> u32
    requires { 4 ≤ length body.now }
    ensures value { result ≡ get_or body.now 3 0 }
    ensures small { result < 256 }
{
    u32::from(body[3])
}
