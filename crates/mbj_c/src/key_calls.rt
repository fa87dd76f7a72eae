//! The calls of handles of key sessions, which the exports make.
ghost use Rattle.std.specs.Prelude.{◌≡◌, IfOk, IfSome, None, OnErr, OnOk, Some, is_some};
ghost use Rattle.mbj_c.specs.Inside.Answers.{IsAnswerTo};
ghost use Rattle.mbj_c.specs.KeySets.{IsSetOf, IsUsing, KnowsAll, bytes_each, set_refusal, share_refusal, use_refusal, uses_refusal};

use crate::handle::Handle;
use crate::key_handle::KeysHandle;
use crate::key_set::{KeySet, RawBytes};
use crate::ranged::RangedManager;
use crate::refusal::Refusal;
use crate::sessions::Sessions;
use std::alloc::{AllocError, Global};

/// A set on the heap.
fn boxed(alloc: Global, set: KeySet) -> Result<Box<KeySet>, AllocError>
    ensures { IfOk result (λ b. b.value ≡ set) }
{
    Ok(Box::new(alloc, set)?)
}

/// Whether the handle has a set, which stays.
fn has_set(alloc: Global, handle: &mut KeysHandle) -> bool
    ensures has { result ≡ is_some handle.old.keys }
    ensures same { handle.new.keys ≡ handle.old.keys }
{
    match handle.take(alloc) {
        Some(set) => {
            handle.put(set);
            true
        }
        None => false,
    }
}

/// Makes a set of these keys, if the handle has none.
pub(crate) fn make(
    alloc: Global,
    handle: &mut KeysHandle,
    keys: &[RawBytes<'_>],
) -> Result<(), Refusal>
    ensures answer { IsAnswerTo (set_refusal handle.old.keys (bytes_each keys.now)) result }
    ensures made { OnOk result (IsSetOf (bytes_each keys.now) handle.new.keys) }
    ensures unchanged { OnErr result (handle.new.keys ≡ handle.old.keys) }
{
    if has_set(alloc, handle) {
        return Err(Refusal::HasKeys);
    }
    let set = KeySet::new(alloc, keys)?;
    handle.put(boxed(alloc, set)?);
    Ok(())
}

/// Frees the handle's set, if it has one.
pub(crate) fn free(alloc: Global, handle: &mut KeysHandle) -> bool
    ensures freed { result ≡ is_some handle.old.keys }
    ensures empty { handle.new.keys ≡ None }
{
    handle.take(alloc).is_some()
}

/// Puts the set into a handle that has none, for another owner.
fn put_shared(alloc: Global, set: &KeySet, handle: &mut KeysHandle) -> Result<(), Refusal>
    ensures answer { IsAnswerTo (share_refusal (Some set.now) handle.old.keys) result }
    ensures shared { OnOk result (handle.new.keys ≡ Some set.now) }
    ensures unchanged { OnErr result (handle.new.keys ≡ handle.old.keys) }
{
    if has_set(alloc, handle) {
        return Err(Refusal::HasKeys);
    }
    let set = set.share()?;
    handle.put(boxed(alloc, set)?);
    Ok(())
}

/// Puts the set of one handle into another one, too, if that has none.
pub(crate) fn share(
    alloc: Global,
    from: &mut KeysHandle,
    to: &mut KeysHandle,
) -> Result<(), Refusal>
    ensures answer { IsAnswerTo (share_refusal from.old.keys to.old.keys) result }
    ensures same { from.new.keys ≡ from.old.keys }
    ensures shared { OnOk result (to.new.keys ≡ from.old.keys) }
    ensures unchanged { OnErr result (to.new.keys ≡ to.old.keys) }
{
    let Some(set) = from.take(alloc) else {
        return Err(Refusal::NoKeys);
    };
    let answer = put_shared(alloc, &set, to);
    from.put(set);
    answer
}

/// The sessions of the handle's set, each learnt.
fn learnt(alloc: Global, handle: &mut KeysHandle) -> Result<Sessions, Refusal>
    ensures answer { IsAnswerTo (uses_refusal handle.old.keys) result }
    ensures same { handle.new.keys ≡ handle.old.keys }
    ensures all { IfOk result (λ notes. IfSome handle.old.keys (λ set. KnowsAll set notes)) }
{
    let Some(set) = handle.take(alloc) else {
        return Err(Refusal::NoKeys);
    };
    let sessions = Sessions::learn(alloc, &set);
    handle.put(set);
    Ok(sessions?)
}

/// Has the manager use the handle's set from now on, in place of the one that it used.
fn use_in(
    alloc: Global,
    manager: &mut RangedManager,
    handle: &mut KeysHandle,
) -> Result<(), Refusal>
    ensures answer { IsAnswerTo (use_refusal (Some manager.old) handle.old.keys) result }
    ensures used { OnOk result (IsUsing (Some manager.old) handle.old.keys (Some manager.new)) }
    ensures unchanged { OnErr result (manager.new ≡ manager.old) }
    ensures same { handle.new.keys ≡ handle.old.keys }
{
    let sessions = learnt(alloc, handle)?;
    manager.use_sessions(sessions);
    Ok(())
}

/// Has the manager of one handle use the set of another from now on, in place of the one that it used.
pub(crate) fn use_keys(
    alloc: Global,
    handle: &mut Handle,
    keys: &mut KeysHandle,
) -> Result<(), Refusal>
    ensures answer { IsAnswerTo (use_refusal handle.old.manager keys.old.keys) result }
    ensures used { OnOk result (IsUsing handle.old.manager keys.old.keys handle.new.manager) }
    ensures unchanged { OnErr result (handle.new.manager ≡ handle.old.manager) }
    ensures same { keys.new.keys ≡ keys.old.keys }
{
    let Some(mut manager) = handle.take(alloc) else {
        return Err(Refusal::NoManager);
    };
    let answer = use_in(alloc, &mut manager, keys);
    handle.put(manager);
    answer
}
