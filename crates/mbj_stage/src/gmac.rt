//! GMAC of a packet's hash range.

ghost use Rattle.std.specs.Prelude.{◌≡◌, ◌<◌, ◌≤◌, [], ◌∷◌, None, length};
ghost use Rattle.mbj_types.specs.declared.limits.gcm.TheConstants.{MAX_IV_BYTES};
ghost use Rattle.mbj_types.specs.Aes.{aes};
ghost use Rattle.mbj_types.specs.Auths.{class_of};
ghost use Rattle.mbj_types.specs.Gcm.{gmac};
ghost use Rattle.mbj_types.specs.Verdict.{verdict_at};
ghost use Rattle.mbj_types.specs.Result.{tag_over};
ghost use Rattle.mbj_aes.specs.Bytes.{IsKeySize};
ghost use Rattle.mbj_stage.specs.declared.stage.Step.TheVariants as step;
ghost use Rattle.mbj_stage.specs.Steps.{auth_steps};

use crate::tag::cut;
use mbj_aes::Schedule;
use mbj_gcm::seal;
use mbj_types::{Job, Tag};

/// GMAC over bytes (SP 800-38D, 3.1), by a job's authentication key and IV: GCM's tag over them as additional data, with no text.
fn gmac(job: &Job, bytes: &[u8]) -> [u8; 16]
    requires key { IsKeySize (length job.now.auth_key) }
    requires iv_some { 0 < length job.now.iv }
    requires iv_most { length job.now.iv ≤ MAX_IV_BYTES }
    ensures { result ≡ gmac (aes job.now.auth_key) job.now.iv bytes.now }
{
    let key = Schedule::expand(job.auth_key.as_slice());
    seal(&key, job.iv.as_slice(), bytes, &mut [])
}

/// The GMAC of an accepted job over its packet's hash range, cut to the job's length.
pub(crate) fn run(job: &Job, packet: &[u8]) -> Tag
    requires step { auth_steps (class_of job.now.auth) ≡ step.Gmac ∷ [] }
    requires accepted { verdict_at job.now (length packet.now) ≡ None }
    ensures { result ≡ tag_over job.now packet.now }
{
    let start = job.hash_off as usize;
    let end = start + job.hash_len as usize;
    cut(&gmac(job, &packet[start..end]), job.tag_len)
}
