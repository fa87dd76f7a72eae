//! GCM on the cipher range of a packet.

ghost use Rattle.std.specs.Prelude.{◌≡◌, ◌<◌, ◌≤◌, [], ◌∷◌, None, length};
ghost use Rattle.mbj_types.specs.declared.limits.gcm.TheConstants.{MAX_IV_BYTES};
ghost use Rattle.mbj_types.specs.Verdict.{verdict_at};
ghost use Rattle.mbj_types.specs.Result.{ciphered, tag_over};
ghost use Rattle.mbj_keys.specs.Schedules.{IsScheduleOf};
ghost use Rattle.mbj_stage.specs.declared.stage.Step.TheVariants as step;
ghost use Rattle.mbj_stage.specs.Steps.{cipher_steps};
ghost use Rattle.mbj_stage.specs.Inside.Texts.{gcm_by};

use crate::tag::cut;
use mbj_aes::Schedule;
use mbj_gcm::{seal, unseal};
use mbj_types::{Dir, Job, Tag};

/// GCM on a text by the schedule of a job's key, its IV, additional data and direction: the text changes, and the whole tag is returned.
#[tactic(auto, using(crate::proofs::Schedules::enciphers))]
fn gcm(job: &Job, key: &Schedule, text: &mut [u8]) -> [u8; 16]
    requires key { IsScheduleOf job.now.key key.now }
    requires iv_some { 0 < length job.now.iv }
    requires iv_most { length job.now.iv ≤ MAX_IV_BYTES }
    ensures text { text.new ≡ (gcm_by job.now text.old).0 }
    ensures tag { result ≡ (gcm_by job.now text.old).1 }
{
    match job.dir {
        Dir::Enc => seal(key, job.iv.as_slice(), job.aad.as_slice(), text),
        Dir::Dec => unseal(key, job.iv.as_slice(), job.aad.as_slice(), text),
    }
}

/// Does cipher and authentication of an accepted GCM job on its packet: the cipher range changes, and nothing else.
/// Returns the tag, cut to the job's length.
pub(crate) fn run(job: &Job, key: &Schedule, packet: &mut [u8]) -> Tag
    requires key { IsScheduleOf job.now.key key.now }
    requires step { cipher_steps job.now.cipher ≡ step.Gcm ∷ [] }
    requires accepted { verdict_at job.now (length packet.old) ≡ None }
    ensures packet { packet.new ≡ ciphered job.now packet.old }
    ensures tag { result ≡ tag_over job.now packet.old }
{
    let start = job.cipher_off as usize;
    let end = start + job.cipher_len as usize;
    let whole = gcm(job, key, &mut packet[start..end]);
    cut(&whole, job.tag_len)
}
