// A place in a line.
ghost use Rattle.std.specs.Prelude.{◌≡◌, ◌<◌, ◌≤◌, length, Some};
ghost use Rattle.spots.specs.Spot.{Placed, from_to};

// The place's first byte, and the byte past its last.
#[derive(Clone, Copy)]
pub struct Spot {
    pub start: usize,
    pub stop: usize,
}

// The place from `a` up to `e`.
pub fn between(a: usize, e: usize) -> Spot
    ensures { result ≡ from_to a e }
{
    Spot { start: a, stop: e }
}

// The place from `a` up to `e` of a line, if bytes of it stand there.
pub fn spot_in(line: &[u8], a: usize, e: usize) -> Option<Spot>
    ensures placed { Placed (length line.now) result }
    ensures same { a < e → e ≤ length line.now → result ≡ Some (from_to a e) }
{
    if e <= a {
        return None;
    }
    if line.len() < e {
        return None;
    }
    Some(between(a, e))
}

// The sum of two places, where it is one.
pub fn plus(a: usize, b: usize) -> usize {
    std::num::wrapping_add_usize(a, b)
}
