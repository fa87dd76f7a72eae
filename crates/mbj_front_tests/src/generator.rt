ghost use Rattle.std.specs.Prelude.{◌≡◌};
ghost use Rattle.mbj_gen.specs.Generator.{byte};

use mbj_gen::Generator;
use mbj_types::{Bytes, Job};
use std::alloc::{AllocError, Global};
use std::process::Abort;
use std::test::Fail;

/// Adds the length and the first four bytes in hex.
fn show_bytes(alloc: Global, text: &mut String, bytes: &Bytes) -> Result<(), AllocError> {
    let bytes = bytes.as_slice();
    if bytes.is_empty() {
        return text.push_str(" -");
    }
    let first = hex::encode(alloc, &bytes[..bytes.len().min(4)])?;
    write!(text, " {}:{first}", bytes.len())
}

/// Adds the fields of the cipher, in the order of a job file.
fn show_cipher(alloc: Global, text: &mut String, job: &Job) -> Result<(), AllocError> {
    write!(text, "{:?} {:?} {:?}", job.cipher, job.dir, job.order)?;
    show_bytes(alloc, text, &job.key)?;
    show_bytes(alloc, text, &job.iv)?;
    write!(text, " {} {}", job.cipher_off, job.cipher_len)
}

/// Adds the other fields.
fn show_auth(alloc: Global, text: &mut String, job: &Job) -> Result<(), AllocError> {
    write!(text, " {:?}", job.auth)?;
    show_bytes(alloc, text, &job.auth_key)?;
    show_bytes(alloc, text, &job.aad)?;
    write!(text, " {} {} {}", job.hash_off, job.hash_len, job.tag_len)?;
    show_bytes(alloc, text, &job.packet)
}

/// The fields of a job.
pub(crate) fn shown(alloc: Global, job: &Job) -> Result<String, AllocError> {
    let mut text = String::new(alloc);
    show_cipher(alloc, &mut text, job)?;
    show_auth(alloc, &mut text, job)?;
    Ok(text)
}

/// Seeds, and what the first jobs of each are, computed by a program of their own from the description of the draws.
const SEEDS: [(u64, &[&str]); 3] = [(0, &FROM_0), (1, &FROM_1), (7, &FROM_7)];

const FROM_0: [&str; 3] = [
    "Null Enc CipherHash - - 0 0 HmacSha512 98:8f145b7b - 0 105 64 112:2ff3cb1f",
    "Cbc Dec HashCipher 16:9b1ed450 16:c59d5e34 0 224 HmacSha1 59:4a4162ac - 0 224 20 224:6e7e84a5",
    "Null Enc HashCipher - - 0 0 Cmac128 16:8291af3f - 0 216 16 224:3de8e640",
];

const FROM_1: [&str; 9] = [
    "Cbc Enc HashCipher 32:808d10d6 16:2f044e39 0 48 Cmac128 16:0098f95b - 0 33 16 48:803558fa",
    "Null Enc CipherHash - - 0 0 Null - - 0 0 1 80:b268ab92",
    "Null Enc HashCipher - - 0 0 Null - - 0 0 1 512:0af92d8b",
    "Cbc Dec HashCipher 16:90314434 16:a5dcfcf6 0 464 Null - - 0 0 0 464:cdf721c2",
    "Cbc Enc CipherHash 32:8680b2ad 16:bf0f01ae 0 480 Null - - 0 0 0 480:d6d0a0f2",
    "Gcm Dec HashCipher 24:8bf8067c 12:6af38049 0 362 Gcm - 30:89105431 0 0 16 368:a3b19929",
    "Null Dec CipherHash - - 0 0 HmacSha256 218:74c71ca6 - 0 146 32 160:f8a0b998",
    "Null Dec CipherHash - - 0 0 HmacSha224 248:fda6ceae - 0 52 28 64:3e50a4e9",
    "Ctr Dec HashCipher 32:18b7e7eb 12:0cec078e 0 128 HmacSha384 247:99733955 - 0 121 48 128:21549853",
];

const FROM_7: [&str; 3] = [
    "Ctr Enc CipherHash 32:236752fb 12:14611732 0 86 HmacSha384 17:a9397010 - 0 96 48 96:3c4e529f",
    "Cbc Dec HashCipher 24:8ab61b58 16:21e33170 0 224 HmacSha1 103:35b3d543 - 0 218 20 224:d52d1b75",
    "Gcm Dec HashCipher 32:07042b05 12:540d9c38 0 254 Gcm - 43:9c54f009 0 0 16 256:45504c90",
];

/// Whether the next job of a generator is this one.
fn makes(alloc: Global, generator: &mut Generator, job: &str) -> Result<bool, AllocError> {
    let made = generator.job(alloc)?;
    let shown = shown(alloc, &made)?;
    Ok(shown.as_str() == job)
}

/// The first jobs of the seed are these.
fn check_jobs<R: Abort>(rt: &R, alloc: Global, seed: u64, jobs: &[&str]) -> Result<(), AllocError> {
    let mut generator = Generator::new(seed);
    for job in jobs {
        assert!(rt; makes(alloc, &mut generator, *job)?, "seed {seed}: {job}");
    }
    Ok(())
}

#[test]
fn seeds_make_their_jobs(rt: HostRuntime) -> Result<(), Fail> {
    the_first_draw_from_zero_is_20();
    for (seed, jobs) in &SEEDS {
        check_jobs(&rt, rt.alloc(), *seed, *jobs)?;
    }
    Ok(())
}

/// The first draw from 0 is 20, and leaves this state.
fn the_first_draw_from_zero_is_20()
    ensures { byte 0 ≡ (20, 1442695040888963407) }
{}
