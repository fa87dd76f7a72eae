ghost use Rattle.std.specs.Prelude.{◌≡◌};
ghost use Rattle.mbj_types.specs.Aes.{is_key_size};

/// Whether AES has keys of this many bytes: 16, 24 or 32 (FIPS 197, 5).
pub fn is_key_size(len: usize) -> bool
    ensures { result ≡ is_key_size len }
{
    len == 16 || len == 24 || len == 32
}
