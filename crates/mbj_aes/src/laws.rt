ghost use Rattle.std.specs.Prelude.{◌≡◌, ℕ, ◌<◌, ◌≤◌, slice_index};
ghost use Rattle.mbj_types.specs.Aes.{aes, aes_inverse, times, power, sub_byte, inv_sub_byte};
ghost use Rattle.mbj_aes.specs.Laws.{Undoes, KeepsBlocks};
ghost use Rattle.mbj_aes.specs.Tower.{by_halves, from_tower, from_decryption, element, linear_part};
ghost use Rattle.mbj_aes.specs.declared.tables.TheConstants.{TO_TOWER_LOW, TO_TOWER_HIGH, INVERSES, SCALED_INVERSES, SUB_PLAIN_FIRST, SUB_PLAIN_SECOND, TO_DECRYPTION_LOW, TO_DECRYPTION_HIGH, INV_SUB_PLAIN_FIRST, INV_SUB_PLAIN_SECOND};
ghost use Rattle.mbj_aes.specs.Examples.{plaintext, key_128, key_192, key_256, ciphertext_128, ciphertext_192, ciphertext_256};

/// A law: under each key, decryption brings back each block that was encrypted, and encryption each block that
/// was decrypted.
#[tactic(auto, using(crate::proofs::AesLaws::decryption_undoes, crate::proofs::AesLaws::encryption_undoes))]
pub fn each_undoes_the_other()
    ensures decryption { Undoes aes_inverse aes }
    ensures encryption { Undoes aes aes_inverse }
{}

/// A law: under each key, encryption and decryption make a block of 16 bytes of each such block.
#[tactic(auto, using(crate::proofs::AesLaws::encryption_keeps, crate::proofs::AesLaws::decryption_keeps))]
pub fn blocks_stay_blocks()
    ensures encryption { KeepsBlocks aes }
    ensures decryption { KeepsBlocks aes_inverse }
{}

/// A law: the definitions give the examples of FIPS 197, of 5.1.1 and of appendix C.
#[tactic(auto, unfolding(mbj_types::specs::Aes::times, mbj_types::specs::Aes::power, mbj_types::specs::Aes::sub_byte))]
pub fn examples_of_the_standard()
    ensures sub_byte_00 { sub_byte 0x00 ≡ 0x63 }
    ensures sub_byte_53 { sub_byte 0x53 ≡ 0xed }
    ensures inv_sub_byte_63 { inv_sub_byte 0x63 ≡ 0x00 }
    ensures inv_sub_byte_ed { inv_sub_byte 0xed ≡ 0x53 }

    ensures aes_128 { aes key_128 plaintext ≡ ciphertext_128 }
    ensures aes_192 { aes key_192 plaintext ≡ ciphertext_192 }
    ensures aes_256 { aes key_256 plaintext ≡ ciphertext_256 }
    ensures aes_128_inverse { aes_inverse key_128 ciphertext_128 ≡ plaintext }
    ensures aes_192_inverse { aes_inverse key_192 ciphertext_192 ≡ plaintext }
    ensures aes_256_inverse { aes_inverse key_256 ciphertext_256 ≡ plaintext }
{}

/// A law: the tables are what their comments say. Half a byte stands for an element of the subfield of 16 elements; the other clauses
/// speak of all such halves, of those but 0, or of all bytes.
pub fn tables_are_of_the_field()
    ensures subfield { (n : ℕ) → n < 16 → power (element n) 16 ≡ element n }
    ensures tower { (n : ℕ) → n < 16 → from_tower n ≡ times 0x12 (element n) }
    ensures to_tower { (x : ℕ) → x < 256 → from_tower (by_halves TO_TOWER_LOW TO_TOWER_HIGH x) ≡ x }
    ensures inverses { (n : ℕ) → 1 ≤ n → n < 16 → times (element n) (element (slice_index INVERSES n)) ≡ 1 }
    ensures scaled { (n : ℕ) → 1 ≤ n → n < 16 → times (element n) (element (slice_index SCALED_INVERSES n)) ≡ 0xe1 }

    ensures first { (n : ℕ) → 1 ≤ n → n < 16 → times (element n) (slice_index INV_SUB_PLAIN_FIRST n) ≡ 0x1f }
    ensures second { (n : ℕ) → 1 ≤ n → n < 16 → times (element n) (slice_index INV_SUB_PLAIN_SECOND n) ≡ 0x1e }
    ensures sub_first { (n : ℕ) → n < 16 → slice_index SUB_PLAIN_FIRST n ≡ linear_part (slice_index INV_SUB_PLAIN_FIRST n) }
    ensures sub_second { (n : ℕ) → n < 16 → slice_index SUB_PLAIN_SECOND n ≡ linear_part (slice_index INV_SUB_PLAIN_SECOND n) }

    ensures decryption { (x : ℕ) → x < 256 → from_decryption x ≡ linear_part (from_tower x) }
    ensures to_decryption { (x : ℕ) → x < 256 → from_decryption (by_halves TO_DECRYPTION_LOW TO_DECRYPTION_HIGH x) ≡ x }
{}
