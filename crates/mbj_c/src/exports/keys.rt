//! Sets of key sessions.

ghost use Rattle.std.specs.Prelude.{◌≡◌, ◌≢◌, None, is_some};
ghost use Rattle.mbj_c.specs.Codes.{code_by, refusal_code};
ghost use Rattle.mbj_c.specs.Filling.{made};
ghost use Rattle.mbj_c.specs.KeySets.{IsSetOf, IsUsing, bytes_each, set_refusal, share_refusal, use_refusal};
ghost use Rattle.mbj_c.specs.declared.refusal.Refusal.TheVariants.{Memory};

use crate::handle::Handle;
use crate::key_calls;
use crate::key_handle::KeysHandle;
use crate::key_set::RawBytes;
use crate::refusal::code;
use std::alloc::Global;

/// Makes a set of key sessions, numbered from 0 in the order of the keys, which are copied. None is expanded.
///
/// Returns 0, or the code of a refusal: `HasKeys` exactly where the handle has a set already; else `TooManyKeys` exactly where there
/// are more than 256 keys; else `KeyLength` exactly where one has neither 16, 24 nor 32 bytes; else `Memory` for want of memory. A
/// refused call changes nothing.
#[unsafe(no_mangle)]
pub extern "C" fn mbj_keys_new(alloc: Global, handle: &mut KeysHandle, keys: &[RawBytes<'_>]) -> u32
    ensures want_of_memory { result ≡ refusal_code Memory → set_refusal handle.old.keys (bytes_each keys.now) ≡ None }
    ensures answer { result ≢ refusal_code Memory → result ≡ code_by (set_refusal handle.old.keys (bytes_each keys.now)) }
    ensures made { result ≡ 0 → IsSetOf (bytes_each keys.now) handle.new.keys }
    ensures unchanged { result ≢ 0 → handle.new.keys ≡ handle.old.keys }
{
    code(key_calls::make(alloc, handle, keys))
}

/// Frees the handle's set of key sessions, and the memory of the set itself if no other handle and no manager has it. Returns
/// false exactly where there is none.
#[unsafe(no_mangle)]
pub extern "C" fn mbj_keys_free(alloc: Global, handle: &mut KeysHandle) -> bool
    ensures freed { result ≡ is_some handle.old.keys }
    ensures empty { handle.new.keys ≡ None }
{
    key_calls::free(alloc, handle)
}

/// Puts the set of one handle into another one, too: one for each thread. No key is copied.
///
/// Returns 0, or the code of a refusal: `NoKeys` exactly where `from` has no set; else `HasKeys` exactly where `to` has one; else
/// `Memory` for want of memory. A refused call changes nothing.
#[unsafe(no_mangle)]
pub extern "C" fn mbj_keys_share(alloc: Global, from: &mut KeysHandle, to: &mut KeysHandle) -> u32
    ensures want_of_memory { result ≡ refusal_code Memory → share_refusal from.old.keys to.old.keys ≡ None }
    ensures answer { result ≢ refusal_code Memory → result ≡ code_by (share_refusal from.old.keys to.old.keys) }
    ensures shared { result ≡ 0 → to.new.keys ≡ from.old.keys }
    ensures unchanged { result ≢ 0 → to.new.keys ≡ to.old.keys }
    ensures same { from.new.keys ≡ from.old.keys }
{
    code(key_calls::share(alloc, from, to))
}

/// Has the manager use the set of key sessions from now on, in place of the one that it used. Each key is expanded that no manager of
/// the set had expanded before. A job that names a session of the set and has its key as its own is submitted with that session, and
/// takes its schedule if it needs one; no result depends on that. The manager keeps the set until it uses another one or is freed.
///
/// Returns 0, or the code of a refusal: `NoManager` exactly where the handle has no manager; else `NoKeys` exactly where the other one
/// has no set; else `Memory` for want of memory. A refused call changes nothing.
#[unsafe(no_mangle)]
pub extern "C" fn mbj_c_use_keys(alloc: Global, handle: &mut Handle, keys: &mut KeysHandle) -> u32
    ensures want_of_memory { result ≡ refusal_code Memory → use_refusal handle.old.manager keys.old.keys ≡ None }
    ensures answer { result ≢ refusal_code Memory → result ≡ code_by (use_refusal handle.old.manager keys.old.keys) }
    ensures used { result ≡ 0 → IsUsing handle.old.manager keys.old.keys handle.new.manager }
    ensures unchanged { result ≢ 0 → handle.new.manager ≡ handle.old.manager }
    ensures same { keys.new.keys ≡ keys.old.keys }
{
    code(key_calls::use_keys(alloc, handle, keys))
}
