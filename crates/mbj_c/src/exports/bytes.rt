//! A comparison of tags, and bytes that are cleared: calls without a manager.

ghost use Rattle.std.specs.Prelude.{◌≡◌, ◌≢◌, ◌↔◌, length, replicate};

use mbj_aes::are_equal;

/// Whether two tags have the same bytes: 1 exactly where they do, 0 exactly where they don't. Tags of two lengths differ. Every byte of
/// both is looked at if their lengths are equal, and neither a branch nor an index depends on one, but for what the caller does with
/// the result.
#[unsafe(no_mangle)]
pub extern "C" fn mbj_c_is_same_tag(one: &[u8], other: &[u8]) -> u32
    ensures same { (result ≡ 1) ↔ (one.now ≡ other.now) }
    ensures differs { (result ≡ 0) ↔ (one.now ≢ other.now) }
{
    are_equal(one, other) as u32
}

/// Fills the room with zeros. No compiler leaves the call out, since it doesn't see what stands in the library.
#[unsafe(no_mangle)]
pub extern "C" fn mbj_c_wipe(room: &mut [u8])
    ensures { room.new ≡ replicate (length room.old) 0 }
{
    room.fill(0);
}
