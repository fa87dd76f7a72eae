//! The subkeys of CMAC (SP 800-38B, 6.1).
ghost use Rattle.std.specs.Prelude.{◌≡◌};
ghost use Rattle.mbj_types.specs.Aes.{encipher};
ghost use Rattle.mbj_types.specs.Cmac.{first_subkey, second_subkey};

use mbj_aes::Schedule;
use mbj_cmac::{doubled, first_subkey};

/// The subkeys of a key of CMAC, which are as secret as the key.
#[derive(Clone, Copy)]
pub struct Subkeys {
    /// K1, for a message whose last block is whole.
    pub first: [u8; 16],
    /// K2, for any other message.
    pub second: [u8; 16],
}

/// The subkeys of a key: K1 is the enciphered zero block doubled, and K2 is K1 doubled (SP 800-38B, 6.1). It takes no memory.
pub fn cmac_subkeys(key: &Schedule) -> Subkeys
    ensures first { result.first ≡ first_subkey (encipher key.now) }
    ensures second { result.second ≡ second_subkey (encipher key.now) }
{
    let first = first_subkey(key);
    Subkeys {
        first,
        second: doubled(&first),
    }
}
