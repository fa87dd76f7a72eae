ghost use Rattle.std.specs.Prelude.{◌≡◌, [], ◌∷◌, Option, length};
ghost use Rattle.std.specs.Option.{option_to_list};
ghost use Rattle.mbj_types.specs.Auths.{class_of};
ghost use Rattle.mbj_stage.specs.Steps.{by_key, ccm_kind, ccm_steps, cipher_stage, auth_stage, cipher_steps, auth_steps, ordered, stage_at, steps_of, steps_by, steps_in};

use mbj_types::{Auth, AuthClass, Cipher, Dir, Job, Kind, Order, Reason};

/// What comes next in the course of a job.
#[derive(Clone, Copy, Debug, PartialEq, Eq)]
pub enum Stage {
    /// A stage that `Course::run_now` does at once.
    Now,
    /// A stage that is done in the lanes of this kind.
    Lane(Kind),
    /// No stage is left.
    Finished,
}

/// A stage of a job by the work that it does.
#[derive(Clone, Copy)]
pub(crate) enum Step {
    /// The cipher, which is CBC or CTR.
    Cipher,
    /// The authentication, which is an HMAC, a digest or a CMAC.
    Auth,
    /// GCM, which is cipher and authentication together.
    Gcm,
    /// CCM's MAC over the plaintext.
    CcmMac,
    /// CCM's text, and the mask of its tag.
    CcmText,
    /// GMAC.
    Gmac,
}

/// The steps of a job that are left, in their order.
#[derive(Clone, Copy)]
pub(crate) enum Steps {
    Done,
    One(Step),
    Two(Step, Step),
}

/// The step of a cipher alone: CCM has steps of its own.
fn cipher_step(cipher: Cipher) -> Option<Step>
    ensures { option_to_list result ≡ cipher_steps cipher }
{
    match cipher {
        Cipher::Null | Cipher::Ccm => None,
        Cipher::Cbc | Cipher::Ctr => Some(Step::Cipher),
        Cipher::Gcm => Some(Step::Gcm),
    }
}

fn auth_step(auth: Auth) -> Option<Step>
    ensures { option_to_list result ≡ auth_steps (class_of auth) }
{
    match auth.class() {
        AuthClass::Null | AuthClass::Gcm | AuthClass::Ccm => None,
        AuthClass::Hmac(_) | AuthClass::Cmac(_) | AuthClass::Plain(_) | AuthClass::States(_) => {
            Some(Step::Auth)
        }
        AuthClass::Gmac => Some(Step::Gmac),
    }
}

/// The steps of CCM: a text that is sealed is authenticated before it is ciphered, and one that is opened is deciphered first.
fn ccm_steps(dir: Dir) -> Steps
    ensures { steps_in result ≡ ccm_steps dir }
{
    match dir {
        Dir::Enc => Steps::Two(Step::CcmMac, Step::CcmText),
        Dir::Dec => Steps::Two(Step::CcmText, Step::CcmMac),
    }
}

/// The steps of a job's cipher and its authentication, in its order.
fn ordered_steps(job: &Job) -> Steps
    ensures { steps_in result ≡ ordered job.now.order (cipher_steps job.now.cipher) (auth_steps (class_of job.now.auth)) }
{
    match (cipher_step(job.cipher), auth_step(job.auth)) {
        (None, None) => Steps::Done,
        (Some(step), None) | (None, Some(step)) => Steps::One(step),
        (Some(cipher), Some(auth)) => match job.order {
            Order::CipherHash => Steps::Two(cipher, auth),
            Order::HashCipher => Steps::Two(auth, cipher),
        },
    }
}

/// The steps of an accepted job.
fn all_steps(job: &Job) -> Steps
    ensures { steps_in result ≡ steps_of job.now }
{
    match job.cipher {
        Cipher::Null | Cipher::Cbc | Cipher::Ctr | Cipher::Gcm => ordered_steps(job),
        Cipher::Ccm => ccm_steps(job.dir),
    }
}

/// The steps of a job that is refused for this reason, or for none. A refused job has none.
pub(crate) fn steps_by(reason: Option<Reason>, job: &Job) -> Steps
    ensures { steps_in result ≡ steps_by reason job.now }
{
    match reason {
        None => all_steps(job),
        Some(_) => Steps::Done,
    }
}

/// One of three kinds by the length of a job's key, in bytes: 16, 24 or 32.
fn by_key(job: &Job, of_16: Kind, of_24: Kind, of_32: Kind) -> Kind
    ensures { result ≡ by_key (length job.now.key) of_16 of_24 of_32 }
{
    match job.key.as_slice().len() {
        16 => of_16,
        24 => of_24,
        _ => of_32,
    }
}

fn cipher_stage(job: &Job) -> Stage
    ensures { result ≡ cipher_stage job.now }
{
    match job.cipher {
        Cipher::Cbc => match job.dir {
            Dir::Enc => Stage::Lane(by_key(job, Kind::Cbc128, Kind::Cbc192, Kind::Cbc256)),
            Dir::Dec => Stage::Now,
        },
        Cipher::Null | Cipher::Ctr | Cipher::Gcm | Cipher::Ccm => Stage::Now,
    }
}

fn auth_stage(job: &Job) -> Stage
    ensures { result ≡ auth_stage job.now }
{
    match job.auth.class() {
        AuthClass::Hmac(hash) | AuthClass::Plain(hash) | AuthClass::States(hash) => {
            Stage::Lane(hash.kind())
        }
        AuthClass::Cmac(key) => Stage::Lane(key.kind()),
        AuthClass::Null | AuthClass::Gcm | AuthClass::Ccm | AuthClass::Gmac => Stage::Now,
    }
}

/// When a step of a job is done.
pub(crate) fn stage_of_step(step: Step, job: &Job) -> Stage
    ensures { result ≡ stage_at job.now (step ∷ []) }
{
    match step {
        Step::Cipher => cipher_stage(job),
        Step::Auth => auth_stage(job),
        Step::Gcm | Step::CcmText | Step::Gmac => Stage::Now,
        Step::CcmMac => Stage::Lane(by_key(job, Kind::Ccm128, Kind::Ccm192, Kind::Ccm256)),
    }
}
