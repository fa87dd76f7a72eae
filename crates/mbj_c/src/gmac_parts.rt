//! GMAC of data in parts: each call looks at what C gives first.

ghost use Rattle.std.specs.Prelude.{◌≡◌, ℕ, List, [], ◌++◌, length, take, OnErr, OnOk};
ghost use Rattle.mbj_types.specs.Aes.{aes};
ghost use Rattle.mbj_types.specs.Gcm.{gmac};
ghost use Rattle.mbj_direct.specs.Gmac.{HasTakenData, blank_gmac_state};
ghost use Rattle.mbj_c.specs.Direct.{data_ends, data_goes_on, gcm_accepts};

use crate::direct::gcm_takes;
use crate::refusal::Refusal;
use mbj_direct::GmacState;
use mbj_types::limits::gcm;

/// Begins GMAC of data in parts.
pub(crate) fn gmac_begin(state: &mut GmacState, key: &[u8], iv: &[u8]) -> Result<(), Refusal>
    ensures answer { result ≡ gcm_accepts key.now iv.now }
    ensures refused { OnErr result (state.new ≡ state.old) }
    ensures begun { OnOk result (HasTakenData key.now iv.now [] state.new) }
{
    gcm_takes(key, iv)?;
    *state = GmacState::begin(key, iv);
    Ok(())
}

/// Takes the next part of the data.
pub(crate) fn gmac_update(state: &mut GmacState, part: &[u8]) -> Result<(), Refusal>
    ensures answer { result ≡ data_goes_on state.old }
    ensures refused { OnErr result (state.new ≡ state.old) }
    ensures taken { OnOk result ((key iv aad : List ℕ) → HasTakenData key iv aad state.old
        → HasTakenData key iv (aad ++ part.now) state.new) }
{
    if !state.is_state() {
        return Err(Refusal::NoState);
    }
    state.update(part);
    Ok(())
}

/// Ends the data, and fills the room of its tag.
pub(crate) fn gmac_finish(state: &mut GmacState, tag: &mut [u8]) -> Result<(), Refusal>
    ensures answer { result ≡ data_ends state.old (length tag.old) }
    ensures refused { OnErr result (state.new ≡ state.old) }
    ensures refused_tag { OnErr result (tag.new ≡ tag.old) }
    ensures cleared { OnOk result (state.new ≡ blank_gmac_state) }
    ensures tag { OnOk result ((key iv aad : List ℕ) → HasTakenData key iv aad state.old
        → tag.new ≡ take (length tag.old) (gmac (aes key) iv aad)) }
{
    if !state.is_state() {
        return Err(Refusal::NoState);
    }
    if !gcm::takes_tag(tag.len()) {
        return Err(Refusal::TagLength);
    }
    let whole = state.finish();
    tag.copy_from_slice(&whole[..tag.len()]);
    Ok(())
}
