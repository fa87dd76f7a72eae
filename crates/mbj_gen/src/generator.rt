ghost use Rattle.std.specs.Prelude.{◌≡◌, ◌≤◌, ◌==◌, ◌%◌, ℕ, IfOk, OnErr, OnOk, if◌then◌else◌};
ghost use Rattle.mbj_types.specs.Auths.{class_of};
ghost use Rattle.mbj_gen.specs.Generator.{with_auth_part, bare, byte, cipher_length, with_cipher_part, draws as drawn, with_hash_part, hmac_keyed, iv_length, job, keyed, recipe_of, with_aad};

use crate::draws::Draws;
use mbj_types::{Auth, AuthClass, BLOCK_BYTES, Cipher, Dir, Job, Order};
use std::alloc::{AllocError, Global};
use std::marker::Model;

/// Makes jobs from a seed, one after another: the same seed makes the same jobs.
///
/// Contracts see its state, from which the next job is drawn.
///
/// ```
/// let mut generator = Generator::new(seed);
/// for job in jobs {
///     assert!(rt; makes(alloc, &mut generator, *job)?, "seed {seed}: {job}");
/// }
/// ```
#[derive(Debug, Drop)]
pub struct Generator {
    state: u64,
}

impl Model for Generator {
    ghost use Rattle.std.specs.Prelude.{ℕ};

    ghost Value = { ℕ };

    ghost view = { λ g. g.state };
}

/// The length of GMAC's keys, in bytes.
const GMAC_KEY_BYTES: usize = 16;

/// The length of the shorter IVs, in bytes.
const SHORT_IV_BYTES: usize = 12;

/// The most blocks that a packet has.
const MOST_BLOCKS: u8 = 32;

/// Additional authenticated data has fewer bytes.
const AAD_BYTES: u8 = 64;

/// The ciphers and authentications of jobs, and the length of their tags in bytes. The last asks for a tag that it
/// can't have, and is refused.
const RECIPES: [(Cipher, Auth, u8); 16] = [
    (Cipher::Null, Auth::HmacSha1, 20),
    (Cipher::Null, Auth::HmacSha224, 28),
    (Cipher::Null, Auth::HmacSha256, 32),
    (Cipher::Null, Auth::HmacSha384, 48),
    (Cipher::Null, Auth::HmacSha512, 64),
    (Cipher::Null, Auth::Cmac128, 16),
    (Cipher::Null, Auth::Cmac256, 16),
    (Cipher::Cbc, Auth::Null, 0),
    (Cipher::Ctr, Auth::Null, 0),
    (Cipher::Gcm, Auth::Gcm, 16),
    (Cipher::Cbc, Auth::HmacSha1, 20),
    (Cipher::Cbc, Auth::HmacSha256, 32),
    (Cipher::Cbc, Auth::Cmac128, 16),
    (Cipher::Ctr, Auth::HmacSha512, 64),
    (Cipher::Ctr, Auth::HmacSha384, 48),
    (Cipher::Null, Auth::Null, 1),
];

fn recipe_of(draw: u8) -> (Cipher, Auth, u8)
    ensures { result ≡ recipe_of draw }
{
    RECIPES[draw as usize % RECIPES.len()]
}

fn dir_of(draw: u8) -> Dir
    ensures { result ≡ (if draw % 2 == 0 then Dir.Enc else Dir.Dec) }
{
    if draw % 2 == 0 { Dir::Enc } else { Dir::Dec }
}

fn order_of(draw: u8) -> Order
    ensures { result ≡ (if draw % 2 == 0 then Order.CipherHash else Order.HashCipher) }
{
    if draw % 2 == 0 {
        Order::CipherHash
    } else {
        Order::HashCipher
    }
}

/// The length of an IV, in bytes.
fn iv_length(draws: &mut Draws, cipher: Cipher) -> usize
    ensures value { result ≡ (iv_length cipher draws.old.state).0 }
    ensures state { draws.new.state ≡ (iv_length cipher draws.old.state).1 }
{
    match cipher {
        Cipher::Null => 0,
        Cipher::Cbc => BLOCK_BYTES,
        Cipher::Ctr => {
            if draws.byte() % 2 == 0 {
                BLOCK_BYTES
            } else {
                SHORT_IV_BYTES
            }
        }
        Cipher::Gcm | Cipher::Ccm => SHORT_IV_BYTES,
    }
}

/// The length of the range that is ciphered, of a packet of `length` bytes.
fn cipher_length(draws: &mut Draws, cipher: Cipher, length: u32) -> u32
    requires { 16 ≤ length }
    ensures value { result ≡ (cipher_length cipher length draws.old.state).0 }
    ensures state { draws.new.state ≡ (cipher_length cipher length draws.old.state).1 }
{
    match cipher {
        Cipher::Null => 0,
        Cipher::Cbc => length,
        Cipher::Ctr | Cipher::Gcm | Cipher::Ccm => draws.shortened(length),
    }
}

/// Draws the key, the IV and the range of a job with a cipher, whose packet has `length` bytes.
#[tactic(auto, unfolding(crate::specs::Generator::keyed))]
fn draw_key(draws: &mut Draws, alloc: Global, length: u32, job: &mut Job) -> Result<(), AllocError>
    requires { 16 ≤ length }
    ensures { OnOk result ((job.new ≡ (keyed length job.old draws.old.state).0)
        × (draws.new.state ≡ (keyed length job.old draws.old.state).1)) }
{
    let key_bytes = 16 + 8 * (draws.byte() % 3) as usize;
    job.key = draws.bytes(alloc, key_bytes)?;
    let iv_bytes = iv_length(draws, job.cipher);
    job.iv = draws.bytes(alloc, iv_bytes)?;
    job.cipher_len = cipher_length(draws, job.cipher, length);
    Ok(())
}

/// Draws what the job's cipher needs.
fn draw_cipher(
    draws: &mut Draws,
    alloc: Global,
    length: u32,
    job: &mut Job,
) -> Result<(), AllocError>
    requires { 16 ≤ length }
    ensures { OnOk result ((job.new ≡ (with_cipher_part job.old.cipher length job.old draws.old.state).0)
        × (draws.new.state ≡ (with_cipher_part job.old.cipher length job.old draws.old.state).1)) }
{
    match job.cipher {
        Cipher::Null => Ok(()),
        Cipher::Cbc | Cipher::Ctr | Cipher::Gcm | Cipher::Ccm => {
            draw_key(draws, alloc, length, job)
        }
    }
}

/// Draws a key of `key_bytes` bytes and a range for a job whose authentication has a range of its own.
#[tactic(auto, unfolding(crate::specs::Generator::with_hash_part))]
fn draw_hash(
    draws: &mut Draws,
    alloc: Global,
    key_bytes: usize,
    length: u32,
    job: &mut Job,
) -> Result<(), AllocError>
    requires { 16 ≤ length }
    ensures { OnOk result ((job.new ≡ (with_hash_part key_bytes length job.old draws.old.state).0)
        × (draws.new.state ≡ (with_hash_part key_bytes length job.old draws.old.state).1)) }
{
    job.auth_key = draws.bytes(alloc, key_bytes)?;
    job.hash_len = draws.shortened(length);
    Ok(())
}

/// Draws the additional authenticated data of a job with GCM or CCM.
fn draw_aad(draws: &mut Draws, alloc: Global, job: &mut Job) -> Result<(), AllocError>
    ensures { OnOk result ((job.new ≡ (with_aad job.old draws.old.state).0)
        × (draws.new.state ≡ (with_aad job.old draws.old.state).1)) }
{
    let aad_bytes = (draws.byte() % AAD_BYTES) as usize;
    job.aad = draws.bytes(alloc, aad_bytes)?;
    Ok(())
}

/// Draws the key's length, the key and the range of a job with an HMAC.
fn draw_hmac(draws: &mut Draws, alloc: Global, length: u32, job: &mut Job) -> Result<(), AllocError>
    requires { 16 ≤ length }
    ensures { OnOk result ((job.new ≡ (hmac_keyed length job.old draws.old.state).0)
        × (draws.new.state ≡ (hmac_keyed length job.old draws.old.state).1)) }
{
    let key_bytes = draws.byte() as usize;
    draw_hash(draws, alloc, key_bytes, length, job)
}

/// Draws what the job's authentication needs.
fn draw_auth(draws: &mut Draws, alloc: Global, length: u32, job: &mut Job) -> Result<(), AllocError>
    requires { 16 ≤ length }
    ensures { OnOk result (let drawn = with_auth_part (class_of job.old.auth) length job.old draws.old.state in
        (job.new ≡ drawn.0) × (draws.new.state ≡ drawn.1)) }
{
    match job.auth.class() {
        AuthClass::Null => Ok(()),
        AuthClass::Hmac(_) => draw_hmac(draws, alloc, length, job),
        AuthClass::Cmac(key) => draw_hash(draws, alloc, key.bytes(), length, job),
        AuthClass::Gcm | AuthClass::Ccm => draw_aad(draws, alloc, job),
        AuthClass::Plain(_) => draw_hash(draws, alloc, 0, length, job),
        AuthClass::Gmac => draw_hash(draws, alloc, GMAC_KEY_BYTES, length, job),
        AuthClass::States(hash) => draw_hash(draws, alloc, 2 * hash.state_bytes(), length, job),
    }
}

/// Draws a job without its keys, its IV, its ranges and its packet.
#[tactic(auto, unfolding(crate::specs::Generator::bare))]
fn draw_bare(draws: &mut Draws, alloc: Global) -> Job
    ensures value { result ≡ (bare draws.old.state).0 }
    ensures state { draws.new.state ≡ (bare draws.old.state).1 }
{
    let (cipher, auth, tag_len) = recipe_of(draws.byte());
    let dir = dir_of(draws.byte());
    let order = order_of(draws.byte());
    Job {
        cipher,
        dir,
        order,
        auth,
        tag_len,
        ..Job::blank(alloc)
    }
}

/// Draws the parts of a job whose packet has `length` bytes: what its cipher and its authentication need, and the packet.
fn draw_parts(
    draws: &mut Draws,
    alloc: Global,
    length: u32,
    job: &mut Job,
) -> Result<(), AllocError>
    requires { 16 ≤ length }
    ensures { OnOk result (
        let ciphered = with_cipher_part job.old.cipher length job.old draws.old.state in
        let authenticated = with_auth_part (class_of ciphered.0.auth) length ciphered.0 ciphered.1 in
        let packet = drawn byte length authenticated.1 in
        (job.new ≡ record authenticated.0 { packet = packet.0 }) × (draws.new.state ≡ packet.1)) }
{
    draw_cipher(draws, alloc, length, job)?;
    draw_auth(draws, alloc, length, job)?;
    job.packet = draws.bytes(alloc, length as usize)?;
    Ok(())
}

/// Draws a job. After `AllocError` the state is unspecified.
#[tactic(auto, unfolding(crate::specs::Generator::job))]
fn draw_job(draws: &mut Draws, alloc: Global) -> Result<Job, AllocError>
    ensures { IfOk result (λ j. (j ≡ (job draws.old.state).0) × (draws.new.state ≡ (job draws.old.state).1)) }
{
    let mut job = draw_bare(draws, alloc);
    let blocks = 1 + (draws.byte() % MOST_BLOCKS) as u32;
    let length = BLOCK_BYTES as u32 * blocks;
    draw_parts(draws, alloc, length, &mut job)?;
    Ok(job)
}

impl Generator {
    /// The generator whose jobs are made from this seed. It takes no memory.
    pub fn new(seed: u64) -> Generator
        ensures { result ≡ seed }
    {
        Generator { state: seed }
    }

    /// Makes the next job.
    ///
    /// Returns `AllocError` for want of memory; the generator is then as before the call.
    pub fn job(&mut self, alloc: Global) -> Result<Job, AllocError>
        ensures made { IfOk result (λ j. j ≡ (job self.old).0) }
        ensures state { OnOk result (self.new ≡ (job self.old).1) }
        ensures unmade { OnErr result (self.new ≡ self.old) }
    {
        let mut draws = Draws { state: self.state };
        let job = draw_job(&mut draws, alloc)?;
        self.state = draws.state;
        Ok(job)
    }
}
