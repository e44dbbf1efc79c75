//! Places in scratch. Any place would be right; a well mixed one is fast.
ghost use Rattle.std.specs.Prelude.{◌≡◌, ◌<◌, ◌≤◌};
ghost use Rattle.diagram.specs.Hash.{place_of};

/// The place of four numbers among `size`. The four factors add up to less than 2^32, so no sum wraps.
#[tactic(auto, unfolding(crate::specs::Hash::place_of))]
pub fn place(size: usize, a: u32, b: u32, c: u32, d: u32) -> usize
    requires { size ≤ 16777216 }
    ensures place { result ≡ place_of size a b c d }
    ensures inside { 0 < size → result < size }
{
    let sum = (a as u64) * 1540483477
        + (b as u64) * 1013904223
        + (c as u64) * 668265263
        + (d as u64) * 374761393;
    let h = sum % 4294967296;
    ((h * (size as u64)) / 4294967296) as usize
}
