ghost use Rattle.std.specs.Prelude.{◌≡◌, ◌≤◌, length, take};
ghost use Rattle.mbj_types.specs.declared.limits.TheConstants.{MAX_TAG_BYTES};

use mbj_types::{MAX_TAG_BYTES, Tag};

/// The leftmost bytes of a whole tag, at most all of them.
pub(crate) fn cut(whole: &[u8], len: u8) -> Tag
    requires { length whole.now ≤ MAX_TAG_BYTES }
    ensures { result ≡ take len whole.now }
{
    let len = len as usize;
    let front = if len < whole.len() {
        &whole[..len]
    } else {
        whole
    };
    Tag::from_slice(front)
}
