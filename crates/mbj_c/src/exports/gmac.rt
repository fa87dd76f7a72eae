//! GMAC of data in parts: calls without a manager.

ghost use Rattle.std.specs.Prelude.{◌≡◌, ◌≢◌, ℕ, List, [], ◌++◌, length, take};
ghost use Rattle.mbj_c.specs.Codes.{code_of};
ghost use Rattle.mbj_c.specs.Direct.{data_ends, data_goes_on, gcm_accepts};
ghost use Rattle.mbj_direct.specs.Gmac.{HasTakenData, blank_gmac_state};
ghost use Rattle.mbj_types.specs.Aes.{aes};
ghost use Rattle.mbj_types.specs.Gcm.{gmac};

use crate::gmac_parts;
use crate::refusal::code;
use mbj_direct::GmacState;

/// Begins GMAC (SP 800-38D, 3.1) of data that comes in parts, in a state of the caller's. The state is plain bytes: a copy goes on by
/// itself, and one that isn't finished leaves nothing behind. Tags can be forged by what it holds. It needs no manager and takes no
/// memory.
///
/// Returns 0, or the code of a refusal: `KeyLength` and `IvLength` exactly where `mbj_gcm_seal` returns them. A refused call writes
/// nothing.
#[unsafe(no_mangle)]
pub extern "C" fn mbj_gmac_init(state: &mut GmacState, key: &[u8], iv: &[u8]) -> u32
    ensures answer { result ≡ code_of (gcm_accepts key.now iv.now) }
    ensures refused { result ≢ 0 → state.new ≡ state.old }
    ensures begun { result ≡ 0 → HasTakenData key.now iv.now [] state.new }
{
    code(gmac_parts::gmac_begin(state, key, iv))
}

/// Takes the next part of the data, of any length. However data is cut into parts, its tag is the same. It needs no manager and takes no
/// memory.
///
/// Returns 0, or the code of a refusal: `NoState` exactly where the state wasn't begun, or was finished. A refused call writes nothing. A
/// state that was written by other than these calls is refused, or gives any tag.
#[unsafe(no_mangle)]
pub extern "C" fn mbj_gmac_update(state: &mut GmacState, part: &[u8]) -> u32
    ensures answer { result ≡ code_of (data_goes_on state.old) }
    ensures refused { result ≢ 0 → state.new ≡ state.old }
    ensures taken { result ≡ 0 → (key iv aad : List ℕ) → HasTakenData key iv aad state.old
        → HasTakenData key iv (aad ++ part.now) state.new }
{
    code(gmac_parts::gmac_update(state, part))
}

/// Ends the data, and fills `tag` with the first bytes of its tag, as many as it has. Nothing is compared. The state becomes all zero
/// bytes, which are no state. It needs no manager and takes no memory.
///
/// Returns 0, or the code of a refusal: `NoState` as `mbj_gmac_update` does; else `TagLength` exactly where `tag` hasn't 1 to 16 bytes. A
/// refused call writes nothing.
#[unsafe(no_mangle)]
pub extern "C" fn mbj_gmac_finish(state: &mut GmacState, tag: &mut [u8]) -> u32
    ensures answer { result ≡ code_of (data_ends state.old (length tag.old)) }
    ensures refused { result ≢ 0 → state.new ≡ state.old }
    ensures refused_tag { result ≢ 0 → tag.new ≡ tag.old }
    ensures cleared { result ≡ 0 → state.new ≡ blank_gmac_state }
    ensures tag { result ≡ 0 → (key iv aad : List ℕ) → HasTakenData key iv aad state.old
        → tag.new ≡ take (length tag.old) (gmac (aes key) iv aad) }
{
    code(gmac_parts::gmac_finish(state, tag))
}
