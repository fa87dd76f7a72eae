ghost use Rattle.std.specs.Prelude.{◌≡◌, [], MatchResult, Ok, OnOk, drop, map};
ghost use Rattle.mbj_types.specs.declared.job.Job.{Job};
ghost use Rattle.mbj_text.specs.Inside.Reading.{Fails, Gives, fields_from, job_of, job_with};
ghost use Rattle.mbj_text.specs.Spelling.{Values, forms};

use crate::fault::LineFault;
use crate::fields::Fields;
use crate::key::CipherKey;
use crate::split::Split;
use mbj_types::{Auth, Bytes, Cipher, Dir, Job, Order};
use std::alloc::Global;

/// How many fields a job line has.
const FIELDS: usize = 14;

/// The first fields of a job line, up to those of the authentication.
#[derive(Drop)]
struct CipherFields {
    cipher: Cipher,
    dir: Dir,
    order: Order,
    key: CipherKey,
    iv: Bytes,
    cipher_off: u32,
    cipher_len: u32,
}

/// The other fields of a job line.
#[derive(Drop)]
struct AuthFields {
    auth: Auth,
    auth_key: Bytes,
    aad: Bytes,
    hash_off: u32,
    hash_len: u32,
    tag_len: u8,
    packet: Bytes,
}

/// The job that a line spells behind sessions with these keys, or the field that is the line's fault.
#[tactic(auto, using(crate::proofs::Cutting::cut_bound), unfolding(crate::specs::Inside::Reading::job_of))]
pub(crate) fn read_job(alloc: Global, line: &[u8], keys: &[Vec<u8>]) -> Result<Job, LineFault>
    ensures { Gives result (job_of (map (λ k. k.items) keys.now) line.now) }
{
    if Split::new(line, b' ').count() != FIELDS {
        return Err(LineFault::Field(0));
    }
    job_from(Fields::of(alloc, line), keys)
}

/// The job that the fields spell.
fn job_from(mut fields: Fields<'_>, keys: &[Vec<u8>]) -> Result<Job, LineFault>
    requires { fields.taken ≡ 0 }
    ensures { Gives result (fields_from (forms (map (λ k. k.items) keys.now)) fields.entry (λ vs. Ok (job_with vs))) }
{
    let front = cipher_fields(&mut fields, keys)?;
    let back = auth_fields(&mut fields)?;
    let CipherKey { key, session } = front.key;
    Ok(Job {
        cipher: front.cipher,
        dir: front.dir,
        order: front.order,
        key,
        iv: front.iv,
        cipher_off: front.cipher_off,
        cipher_len: front.cipher_len,
        auth: back.auth,
        auth_key: back.auth_key,
        aad: back.aad,
        hash_off: back.hash_off,
        hash_len: back.hash_len,
        tag_len: back.tag_len,
        packet: back.packet,
        session,
    })
}

fn cipher_fields(fields: &mut Fields<'_>, keys: &[Vec<u8>]) -> Result<CipherFields, LineFault>
    requires { fields.old.taken ≡ 0 }
    ensures value { let read = fields_from (forms (map (λ k. k.items) keys.now)) fields.old (λ vs. Ok (job_with vs)) in
        MatchResult result
        (λ f. read ≡ fields_from (drop 7 (forms [])) fields.new (λ vs. Ok (job_with
        (f.cipher, (f.dir, (f.order, (f.key, (f.iv, (f.cipher_off, (f.cipher_len, vs))))))))))
        (λ fault. Fails fault read) }
    ensures counted { OnOk result (fields.new.taken ≡ 7) }
{
    Ok(CipherFields {
        cipher: fields.read()?,
        dir: fields.read()?,
        order: fields.read()?,
        key: fields.read_cipher_key(keys)?,
        iv: fields.read()?,
        cipher_off: fields.read()?,
        cipher_len: fields.read()?,
    })
}

fn auth_fields(fields: &mut Fields<'_>) -> Result<AuthFields, LineFault>
    requires { fields.old.taken ≡ 7 }
    ensures { (make : Values (drop 7 (forms [])) → Job) → MatchResult result
        (λ f. fields_from (drop 7 (forms [])) fields.old (λ vs. Ok (make vs))
        ≡ Ok (make (f.auth, (f.auth_key, (f.aad, (f.hash_off, (f.hash_len, (f.tag_len, (f.packet, tt)))))))))
        (λ fault. Fails fault (fields_from (drop 7 (forms [])) fields.old (λ vs. Ok (make vs)))) }
{
    Ok(AuthFields {
        auth: fields.read()?,
        auth_key: fields.read()?,
        aad: fields.read()?,
        hash_off: fields.read()?,
        hash_len: fields.read()?,
        tag_len: fields.read()?,
        packet: fields.read()?,
    })
}
