//! Where the part of a seed begins and ends.
ghost use Rattle.std.specs.Prelude.{◌≡◌, get_or};

/// Where the pairs of the seed at place i begin, and 0 if there is no such place.
pub fn bound_at(bounds: &[u16], i: usize) -> usize
    ensures { result ≡ get_or bounds.now i 0 }
{
    if i < bounds.len() {
        bounds[i] as usize
    } else {
        0
    }
}
