//! The comparison of keys.
ghost use Rattle.std.specs.Prelude.{◌≡◌, ◌↔◌, IsTrue, length};

/// Whether two slices have the same bytes. If they are of one length every byte of both is looked at, and neither a
/// branch nor an index depends on one.
pub fn are_equal(one: &[u8], other: &[u8]) -> bool
    ensures { IsTrue result ↔ (one.now ≡ other.now) }
{
    one.len() == other.len() && differences(one, other) == 0
}

// The bits in which some byte differs from the one at its place.
fn differences(one: &[u8], other: &[u8]) -> u8
    requires { length one.now ≡ length other.now }
    ensures { (result ≡ 0) ↔ (one.now ≡ other.now) }
{
    let mut bits = 0;
    for (a, b) in one.iter().zip(other) {
        bits |= a ^ b;
    }
    bits
}
