//! The calls that hand the packet of a course out in an entry of each kernel, and that take it back.
//!
//! Before it is handed out, a packet is in the course and the stage in that kernel's lanes is next. The entry has at least one
//! round left. The course with the entry's end leads to the same result as before. A call takes no memory. An entry that is taken
//! back has no round left and a packet as long as the one that went out; that of CCM has a nonce and additional data as long as
//! those that went out too. That stage is done then.

ghost use Rattle.std.specs.Prelude.{◌≡◌};
ghost use Rattle.mbj_types.specs.declared.kind.Kind.TheVariants as kind;
ghost use Rattle.mbj_lane.specs.Rounds.{end_of};
ghost use Rattle.mbj_cbc.specs.Rounds.{round as cbc_round, rest_of as cbc_rest};
ghost use Rattle.mbj_cmac.specs.Rounds.{round as cmac_round, rest_of as cmac_rest};
ghost use Rattle.mbj_hmac.specs.Rounds.{round as hmac_round, rest_of as hmac_rest};
ghost use Rattle.mbj_ccm.specs.Rounds.{round as ccm_round, rest_of as ccm_rest};
ghost use Rattle.mbj_hmac.specs.Hashings.{sha1_hashing, sha256_hashing, sha512_hashing};
ghost use Rattle.mbj_stage.specs.Handing.{IsHandedOut, IsNext, IsOut, taken_back};
ghost use Rattle.mbj_stage.specs.Ends.{cbc_end, ccm_end, cmac_end, hmac_end};

use crate::course::Course;
use crate::job_kernel::JobKernel;
use mbj_cbc::{CbcEntry, CbcKernel};
use mbj_ccm::{CcmEntry, CcmKernel};
use mbj_cmac::{CmacEntry, CmacKernel};
use mbj_hmac::{Hmac1Entry, Hmac1Kernel, Hmac256Entry, Hmac256Kernel, Hmac512Entry, Hmac512Kernel};

impl Course {
    /// Hands the packet out in an entry of CBC encryption with a key of 128 bits.
    pub fn hand_out_cbc128(&mut self) -> CbcEntry<10>
        requires { IsNext kind.Cbc128 self.old }
        ensures { IsHandedOut kind.Cbc128 result.rest (cbc_end (end_of cbc_round cbc_rest result)) self.new self.old }
    {
        CbcKernel::<10>::hand_out(self)
    }

    /// Takes an entry of CBC encryption with a key of 128 bits back.
    pub fn take_back_cbc128(&mut self, entry: CbcEntry<10>)
        requires out { IsOut kind.Cbc128 (cbc_end entry) self.old }
        requires done { entry.rest ≡ 0 }
        ensures { self.new ≡ taken_back (cbc_end entry) self.old }
    {
        CbcKernel::<10>::take_back(self, entry);
    }

    /// Hands the packet out in an entry of CBC encryption with a key of 192 bits.
    pub fn hand_out_cbc192(&mut self) -> CbcEntry<12>
        requires { IsNext kind.Cbc192 self.old }
        ensures { IsHandedOut kind.Cbc192 result.rest (cbc_end (end_of cbc_round cbc_rest result)) self.new self.old }
    {
        CbcKernel::<12>::hand_out(self)
    }

    /// Takes an entry of CBC encryption with a key of 192 bits back.
    pub fn take_back_cbc192(&mut self, entry: CbcEntry<12>)
        requires out { IsOut kind.Cbc192 (cbc_end entry) self.old }
        requires done { entry.rest ≡ 0 }
        ensures { self.new ≡ taken_back (cbc_end entry) self.old }
    {
        CbcKernel::<12>::take_back(self, entry);
    }

    /// Hands the packet out in an entry of CBC encryption with a key of 256 bits.
    pub fn hand_out_cbc256(&mut self) -> CbcEntry<14>
        requires { IsNext kind.Cbc256 self.old }
        ensures { IsHandedOut kind.Cbc256 result.rest (cbc_end (end_of cbc_round cbc_rest result)) self.new self.old }
    {
        CbcKernel::<14>::hand_out(self)
    }

    /// Takes an entry of CBC encryption with a key of 256 bits back.
    pub fn take_back_cbc256(&mut self, entry: CbcEntry<14>)
        requires out { IsOut kind.Cbc256 (cbc_end entry) self.old }
        requires done { entry.rest ≡ 0 }
        ensures { self.new ≡ taken_back (cbc_end entry) self.old }
    {
        CbcKernel::<14>::take_back(self, entry);
    }

    /// Hands the packet out in an entry of CMAC with a key of 128 bits.
    pub fn hand_out_cmac128(&mut self) -> CmacEntry<10>
        requires { IsNext kind.Cmac128 self.old }
        ensures { IsHandedOut kind.Cmac128 result.rest (cmac_end (end_of cmac_round cmac_rest result)) self.new self.old }
    {
        CmacKernel::<10>::hand_out(self)
    }

    /// Takes an entry of CMAC with a key of 128 bits back.
    pub fn take_back_cmac128(&mut self, entry: CmacEntry<10>)
        requires out { IsOut kind.Cmac128 (cmac_end entry) self.old }
        requires done { entry.rest ≡ 0 }
        ensures { self.new ≡ taken_back (cmac_end entry) self.old }
    {
        CmacKernel::<10>::take_back(self, entry);
    }

    /// Hands the packet out in an entry of CMAC with a key of 256 bits.
    pub fn hand_out_cmac256(&mut self) -> CmacEntry<14>
        requires { IsNext kind.Cmac256 self.old }
        ensures { IsHandedOut kind.Cmac256 result.rest (cmac_end (end_of cmac_round cmac_rest result)) self.new self.old }
    {
        CmacKernel::<14>::hand_out(self)
    }

    /// Takes an entry of CMAC with a key of 256 bits back.
    pub fn take_back_cmac256(&mut self, entry: CmacEntry<14>)
        requires out { IsOut kind.Cmac256 (cmac_end entry) self.old }
        requires done { entry.rest ≡ 0 }
        ensures { self.new ≡ taken_back (cmac_end entry) self.old }
    {
        CmacKernel::<14>::take_back(self, entry);
    }

    /// Hands the packet out in an entry of a digest by SHA-1, or of HMAC with it.
    pub fn hand_out_hmac_sha1(&mut self) -> Hmac1Entry
        requires { IsNext kind.HmacSha1 self.old }
        ensures { IsHandedOut kind.HmacSha1 result.rest (hmac_end sha1_hashing (end_of (hmac_round sha1_hashing) hmac_rest result))
            self.new self.old }
    {
        Hmac1Kernel::hand_out(self)
    }

    /// Takes an entry of a digest by SHA-1 back, or of HMAC with it.
    pub fn take_back_hmac_sha1(&mut self, entry: Hmac1Entry)
        requires out { IsOut kind.HmacSha1 (hmac_end sha1_hashing entry) self.old }
        requires done { entry.rest ≡ 0 }
        ensures { self.new ≡ taken_back (hmac_end sha1_hashing entry) self.old }
    {
        Hmac1Kernel::take_back(self, entry);
    }

    /// Hands the packet out in an entry of a digest by SHA-224 or SHA-256, or of HMAC with one of them.
    pub fn hand_out_hmac_sha256(&mut self) -> Hmac256Entry
        requires { IsNext kind.HmacSha256 self.old }
        ensures { IsHandedOut kind.HmacSha256 result.rest (hmac_end sha256_hashing (end_of (hmac_round sha256_hashing) hmac_rest result))
            self.new self.old }
    {
        Hmac256Kernel::hand_out(self)
    }

    /// Takes an entry of a digest by SHA-224 or SHA-256 back, or of HMAC with one of them.
    pub fn take_back_hmac_sha256(&mut self, entry: Hmac256Entry)
        requires out { IsOut kind.HmacSha256 (hmac_end sha256_hashing entry) self.old }
        requires done { entry.rest ≡ 0 }
        ensures { self.new ≡ taken_back (hmac_end sha256_hashing entry) self.old }
    {
        Hmac256Kernel::take_back(self, entry);
    }

    /// Hands the packet out in an entry of a digest by SHA-384 or SHA-512, or of HMAC with one of them.
    pub fn hand_out_hmac_sha512(&mut self) -> Hmac512Entry
        requires { IsNext kind.HmacSha512 self.old }
        ensures { IsHandedOut kind.HmacSha512 result.rest (hmac_end sha512_hashing (end_of (hmac_round sha512_hashing) hmac_rest result))
            self.new self.old }
    {
        Hmac512Kernel::hand_out(self)
    }

    /// Takes an entry of a digest by SHA-384 or SHA-512 back, or of HMAC with one of them.
    pub fn take_back_hmac_sha512(&mut self, entry: Hmac512Entry)
        requires out { IsOut kind.HmacSha512 (hmac_end sha512_hashing entry) self.old }
        requires done { entry.rest ≡ 0 }
        ensures { self.new ≡ taken_back (hmac_end sha512_hashing entry) self.old }
    {
        Hmac512Kernel::take_back(self, entry);
    }

    /// Hands packet, nonce and additional data out in an entry of CCM's MAC with a key of 128 bits.
    pub fn hand_out_ccm128(&mut self) -> CcmEntry<10>
        requires { IsNext kind.Ccm128 self.old }
        ensures { IsHandedOut kind.Ccm128 result.rest (ccm_end (end_of ccm_round ccm_rest result)) self.new self.old }
    {
        CcmKernel::<10>::hand_out(self)
    }

    /// Takes an entry of CCM's MAC with a key of 128 bits back.
    pub fn take_back_ccm128(&mut self, entry: CcmEntry<10>)
        requires out { IsOut kind.Ccm128 (ccm_end entry) self.old }
        requires done { entry.rest ≡ 0 }
        ensures { self.new ≡ taken_back (ccm_end entry) self.old }
    {
        CcmKernel::<10>::take_back(self, entry);
    }

    /// Hands packet, nonce and additional data out in an entry of CCM's MAC with a key of 192 bits.
    pub fn hand_out_ccm192(&mut self) -> CcmEntry<12>
        requires { IsNext kind.Ccm192 self.old }
        ensures { IsHandedOut kind.Ccm192 result.rest (ccm_end (end_of ccm_round ccm_rest result)) self.new self.old }
    {
        CcmKernel::<12>::hand_out(self)
    }

    /// Takes an entry of CCM's MAC with a key of 192 bits back.
    pub fn take_back_ccm192(&mut self, entry: CcmEntry<12>)
        requires out { IsOut kind.Ccm192 (ccm_end entry) self.old }
        requires done { entry.rest ≡ 0 }
        ensures { self.new ≡ taken_back (ccm_end entry) self.old }
    {
        CcmKernel::<12>::take_back(self, entry);
    }

    /// Hands packet, nonce and additional data out in an entry of CCM's MAC with a key of 256 bits.
    pub fn hand_out_ccm256(&mut self) -> CcmEntry<14>
        requires { IsNext kind.Ccm256 self.old }
        ensures { IsHandedOut kind.Ccm256 result.rest (ccm_end (end_of ccm_round ccm_rest result)) self.new self.old }
    {
        CcmKernel::<14>::hand_out(self)
    }

    /// Takes an entry of CCM's MAC with a key of 256 bits back.
    pub fn take_back_ccm256(&mut self, entry: CcmEntry<14>)
        requires out { IsOut kind.Ccm256 (ccm_end entry) self.old }
        requires done { entry.rest ≡ 0 }
        ensures { self.new ≡ taken_back (ccm_end entry) self.old }
    {
        CcmKernel::<14>::take_back(self, entry);
    }
}
