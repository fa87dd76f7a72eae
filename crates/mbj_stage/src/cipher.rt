//! CBC decryption and CTR on the cipher range of a packet.

ghost use Rattle.std.specs.Prelude.{◌≡◌, ◌%◌, ◌⊎◌, [], ◌∷◌, None, length};
ghost use Rattle.mbj_types.specs.Verdict.{verdict_at};
ghost use Rattle.mbj_types.specs.Result.{ciphered};
ghost use Rattle.mbj_types.specs.declared.job.Cipher.TheVariants as cipher;
ghost use Rattle.mbj_types.specs.declared.job.Dir.TheVariants as dir;
ghost use Rattle.mbj_keys.specs.Schedules.{IsScheduleOf};
ghost use Rattle.mbj_stage.specs.declared.stage.Stage.TheVariants as stage;
ghost use Rattle.mbj_stage.specs.declared.stage.Step.TheVariants as step;
ghost use Rattle.mbj_stage.specs.Steps.{cipher_stage, cipher_steps};
ghost use Rattle.mbj_stage.specs.Inside.Texts.{other_text};

use mbj_aes::Schedule;
use mbj_types::{BLOCK_BYTES, Cipher, Job};

/// The IV of a CBC job, a block.
pub(crate) fn iv_block(iv: &[u8]) -> [u8; 16]
    requires { length iv.now ≡ 16 }
    ensures { result ≡ iv.now }
{
    let mut block = [0; BLOCK_BYTES];
    block.copy_from_slice(&iv[..BLOCK_BYTES]);
    block
}

/// Decrypts a text in CBC, by the schedule of a job's key and its IV.
#[tactic(auto, using(crate::proofs::Schedules::deciphers))]
fn decrypt(job: &Job, key: &Schedule, text: &mut [u8])
    requires dec { job.now.dir ≡ dir.Dec }
    requires key { IsScheduleOf job.now.key key.now }
    requires iv { length job.now.iv ≡ 16 }
    requires whole { length text.old % 16 ≡ 0 }
    ensures { text.new ≡ other_text cipher.Cbc job.now.dir job.now text.old }
{
    let iv = iv_block(job.iv.as_slice());
    mbj_cbc::decrypt_in_place(key, &iv, text);
}

/// CTR on a text, by the schedule of a job's key and its IV.
#[tactic(auto, using(crate::proofs::Schedules::enciphers))]
fn ctr(job: &Job, key: &Schedule, text: &mut [u8])
    requires key { IsScheduleOf job.now.key key.now }
    requires iv { (length job.now.iv ≡ 12) ⊎ (length job.now.iv ≡ 16) }
    ensures { text.new ≡ other_text cipher.Ctr job.now.dir job.now text.old }
{
    mbj_ctr::apply(key, job.iv.as_slice(), text);
}

/// Does the cipher of an accepted job on its packet, if it is done at once: the cipher range changes, and nothing else.
pub(crate) fn run(job: &Job, key: &Schedule, packet: &mut [u8])
    requires key { IsScheduleOf job.now.key key.now }
    requires step { cipher_steps job.now.cipher ≡ step.Cipher ∷ [] }
    requires now { cipher_stage job.now ≡ stage.Now }
    requires accepted { verdict_at job.now (length packet.old) ≡ None }
    ensures { packet.new ≡ ciphered job.now packet.old }
{
    let start = job.cipher_off as usize;
    let end = start + job.cipher_len as usize;
    match job.cipher {
        Cipher::Cbc => decrypt(job, key, &mut packet[start..end]),
        Cipher::Ctr => ctr(job, key, &mut packet[start..end]),
        Cipher::Null | Cipher::Gcm | Cipher::Ccm => unreachable!(),
    }
}
