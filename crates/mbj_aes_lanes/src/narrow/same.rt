//! Blocks under one key, at most as many as there are lanes.
ghost use Rattle.std.specs.Prelude.{◌≡◌, ◌≤◌, length, map};
ghost use Rattle.std.specs.List.{All};
ghost use Rattle.mbj_types.specs.Aes.{encipher, decipher};

use crate::narrow::text_key::{DecryptionKey, TextKey};
use mbj_aes::Schedule;
use mbj_types::AES_LANES;

/// Encrypts at most `AES_LANES` blocks under one key: CIPHER (FIPS 197, 5.1). It takes no memory. Many blocks under one key are better
/// served by a `TextKey`, since each call of this one lays the round keys out.
///
/// ```
/// places.fill(plaintext.to_be_bytes());
/// encrypt_same(key, places);
/// for place in places.iter() {
///     expect(rt, "encrypted", *place, ciphertext.to_be_bytes());
/// }
/// decrypt_same(key, places);
/// for place in places.iter() {
///     expect(rt, "decrypted", *place, plaintext.to_be_bytes());
/// }
/// ```
pub fn encrypt_same(key: &Schedule, blocks: &mut [[u8; 16]])
    requires { length blocks.old ≤ AES_LANES }
    ensures each { blocks.new ≡ map (encipher key.now) blocks.old }
    ensures lengths { All (λ b. length b ≡ 16) blocks.new }
{
    TextKey::new(key).encrypt(blocks);
}

/// Decrypts at most `AES_LANES` blocks by one key: INVCIPHER (FIPS 197, 5.3). It takes no memory. Many blocks by one key are better served
/// by a `DecryptionKey`. Only tests use it.
pub fn decrypt_same(key: &Schedule, blocks: &mut [[u8; 16]])
    requires { length blocks.old ≤ AES_LANES }
    ensures each { blocks.new ≡ map (decipher key.now) blocks.old }
    ensures lengths { All (λ b. length b ≡ 16) blocks.new }
{
    DecryptionKey::new(key).decrypt(blocks);
}
