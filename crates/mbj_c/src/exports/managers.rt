//! A manager behind a handle: making it, freeing it, and what is counted.

ghost use Rattle.std.specs.Prelude.{◌≡◌, ◌≢◌, None, Ok, is_some};
ghost use Rattle.mbj_c.specs.Codes.{code_of, refusal_code};
ghost use Rattle.mbj_c.specs.Counts.{IsCounted, queue_size};
ghost use Rattle.mbj_c.specs.Filling.{made};
ghost use Rattle.mbj_c.specs.declared.refusal.Refusal.TheVariants.{Memory};

use crate::calls;
use crate::counts::Counts;
use crate::handle::Handle;
use crate::ranged::Keeping;
use crate::refusal::code;
use crate::version::VERSION;
use std::alloc::Global;

/// Returns the library's version. A program compares it with that of the header that it was compiled with.
#[unsafe(no_mangle)]
pub extern "C" fn mbj_c_version() -> u32
    ensures { result ≡ VERSION }
{
    VERSION
}

/// Makes a manager. Returns 0, or the code of a refusal: `HasManager` exactly where the handle has one already, else
/// `Memory` for want of memory.
///
/// ```
/// let mut handle = Handle::empty(alloc);
/// expect_number(rt, mbj_c_new(alloc, &mut handle), 0);
/// handle
/// ```
#[unsafe(no_mangle)]
pub extern "C" fn mbj_c_new(alloc: Global, handle: &mut Handle) -> u32
    ensures want_of_memory { result ≡ refusal_code Memory → (made handle.old.manager).0 ≡ Ok tt }
    ensures unchanged { result ≡ refusal_code Memory → handle.new.manager ≡ handle.old.manager }
    ensures answer { result ≢ refusal_code Memory → result ≡ code_of (made handle.old.manager).0 }
    ensures state { result ≢ refusal_code Memory → handle.new.manager ≡ (made handle.old.manager).1 }
{
    code(calls::make(alloc, handle, Keeping::Short))
}

/// Makes a manager as `mbj_c_new` does, whose cells keep more memory of the jobs that were given back: at most `KEPT_BYTES` for each field of
/// the job, if those of `mbj_c_new` keep `SMALL_BYTES`. Returns what `mbj_c_new` does.
#[unsafe(no_mangle)]
pub extern "C" fn mbj_c_new_keeping(alloc: Global, handle: &mut Handle) -> u32
    ensures want_of_memory { result ≡ refusal_code Memory → (made handle.old.manager).0 ≡ Ok tt }
    ensures unchanged { result ≡ refusal_code Memory → handle.new.manager ≡ handle.old.manager }
    ensures answer { result ≢ refusal_code Memory → result ≡ code_of (made handle.old.manager).0 }
    ensures state { result ≢ refusal_code Memory → handle.new.manager ≡ (made handle.old.manager).1 }
{
    code(calls::make(alloc, handle, Keeping::Long))
}

/// Makes a manager as `mbj_c_new` does, whose cells keep no memory of the jobs that were given back. Returns what `mbj_c_new` does.
#[unsafe(no_mangle)]
pub extern "C" fn mbj_c_new_keeping_none(alloc: Global, handle: &mut Handle) -> u32
    ensures want_of_memory { result ≡ refusal_code Memory → (made handle.old.manager).0 ≡ Ok tt }
    ensures unchanged { result ≡ refusal_code Memory → handle.new.manager ≡ handle.old.manager }
    ensures answer { result ≢ refusal_code Memory → result ≡ code_of (made handle.old.manager).0 }
    ensures state { result ≢ refusal_code Memory → handle.new.manager ≡ (made handle.old.manager).1 }
{
    code(calls::make(alloc, handle, Keeping::Nothing))
}

/// How many bytes of memory the manager keeps for jobs to come: 0 if there is no manager.
#[unsafe(no_mangle)]
pub extern "C" fn mbj_c_held_bytes(alloc: Global, handle: &mut Handle) -> usize
    ensures same { handle.new.manager ≡ handle.old.manager }
{
    calls::held(alloc, handle)
}

/// Frees the memory that the manager keeps for jobs to come.
#[unsafe(no_mangle)]
pub extern "C" fn mbj_c_trim(alloc: Global, handle: &mut Handle)
    ensures same { handle.new.manager ≡ handle.old.manager }
{
    calls::trim(alloc, handle);
}

/// Frees the manager with all its jobs. Returns false exactly where there is none.
#[unsafe(no_mangle)]
pub extern "C" fn mbj_c_free(alloc: Global, handle: &mut Handle) -> bool
    ensures freed { result ≡ is_some handle.old.manager }
    ensures empty { handle.new.manager ≡ None }
{
    handle.take(alloc).is_some()
}

/// How many jobs are submitted and not given back, at most `CELLS` of `mbj_ring`: 0 if there is no manager.
#[unsafe(no_mangle)]
pub extern "C" fn mbj_c_queue_size(alloc: Global, handle: &mut Handle) -> u32
    ensures size { result ≡ queue_size handle.old.manager }
    ensures same { handle.new.manager ≡ handle.old.manager }
{
    calls::queue_size(alloc, handle)
}

/// Tells what is counted of the lanes of a kind, whose code is its place in `Kind::ALL`, from 0 on. Returns false exactly
/// if there is no manager or no such kind; `out` then stays as it was.
#[unsafe(no_mangle)]
pub extern "C" fn mbj_c_count(
    alloc: Global,
    handle: &mut Handle,
    kind: u32,
    out: &mut Counts,
) -> bool
    ensures counted { IsCounted handle.old.manager kind result out.old out.new }
    ensures same { handle.new.manager ≡ handle.old.manager }
{
    calls::count(alloc, handle, kind, out)
}
