ghost use Rattle.std.specs.Prelude.{◌≡◌, length};
ghost use Rattle.mbj_types.specs.Auths.{class_of};
ghost use Rattle.mbj_types.specs.Rounds.{auth_rounds, cbc_rounds, ccm_rounds, cmac_rounds};
ghost use Rattle.mbj_types.specs.declared.kind.Kind.TheVariants as kind;
ghost use Rattle.mbj_types.specs.declared.kind.TheConstants.{AES_LANES, SHA1_LANES, SHA256_LANES, SHA512_LANES};
ghost use Rattle.mbj_types.specs.declared.job.Job.{Job};
ghost use Rattle.mbj_types.specs.Result.{result_of};
ghost use Rattle.mbj_stage.specs.CourseState.{CourseState};
ghost use Rattle.mbj_stage.specs.Handing.{OwesTheSame};
ghost use Rattle.mbj_stage.specs.Families.{IsServed};

use crate::job_kernel::JobKernel;
use mbj_cbc::CbcKernel;
use mbj_ccm::CcmKernel;
use mbj_cmac::CmacKernel;
use mbj_hmac::{HmacKernel, Sha1Lanes, Sha256Lanes, Sha512Lanes};
use mbj_lane::Kernel;

/// A law: the packet of a result is as long as the packet of its job, whether the job is accepted or refused.
pub fn results_keep_length()
    ensures { (j : Job) → length (result_of j).packet ≡ length j.packet }
{}

/// A law: a course whose packet is out in a lane leads to the same result as before, with what the lane's entry ends with.
pub fn a_course_owes_the_same_while_it_is_out()
    ensures { (c : CourseState) → OwesTheSame c }
{}

/// A law: which kernel serves each kind, over how many lanes, and how many rounds a job of the kind takes. The kernels of AES
/// are those for keys of 10, 12 and 14 rounds (FIPS 197, 5).
pub fn each_kind_has_its_kernel()
    ensures cbc128 { IsServed kind.Cbc128 ⟦<CbcKernel<10> as JobKernel>⟧.kind ⟦<CbcKernel<10> as Kernel>⟧.LANES AES_LANES (λ j. cbc_rounds j.cipher_len) }
    ensures cbc192 { IsServed kind.Cbc192 ⟦<CbcKernel<12> as JobKernel>⟧.kind ⟦<CbcKernel<12> as Kernel>⟧.LANES AES_LANES (λ j. cbc_rounds j.cipher_len) }
    ensures cbc256 { IsServed kind.Cbc256 ⟦<CbcKernel<14> as JobKernel>⟧.kind ⟦<CbcKernel<14> as Kernel>⟧.LANES AES_LANES (λ j. cbc_rounds j.cipher_len) }
    ensures cmac128 { IsServed kind.Cmac128 ⟦<CmacKernel<10> as JobKernel>⟧.kind ⟦<CmacKernel<10> as Kernel>⟧.LANES AES_LANES (λ j. cmac_rounds j.hash_len) }
    ensures cmac256 { IsServed kind.Cmac256 ⟦<CmacKernel<14> as JobKernel>⟧.kind ⟦<CmacKernel<14> as Kernel>⟧.LANES AES_LANES (λ j. cmac_rounds j.hash_len) }
    ensures hmac_sha1 { IsServed kind.HmacSha1 ⟦<HmacKernel<Sha1Lanes> as JobKernel>⟧.kind ⟦<HmacKernel<Sha1Lanes> as Kernel>⟧.LANES SHA1_LANES (λ j. auth_rounds (class_of j.auth) 64 j.hash_len) }
    ensures hmac_sha256 { IsServed kind.HmacSha256 ⟦<HmacKernel<Sha256Lanes> as JobKernel>⟧.kind ⟦<HmacKernel<Sha256Lanes> as Kernel>⟧.LANES SHA256_LANES (λ j. auth_rounds (class_of j.auth) 64 j.hash_len) }
    ensures hmac_sha512 { IsServed kind.HmacSha512 ⟦<HmacKernel<Sha512Lanes> as JobKernel>⟧.kind ⟦<HmacKernel<Sha512Lanes> as Kernel>⟧.LANES SHA512_LANES (λ j. auth_rounds (class_of j.auth) 128 j.hash_len) }
    ensures ccm128 { IsServed kind.Ccm128 ⟦<CcmKernel<10> as JobKernel>⟧.kind ⟦<CcmKernel<10> as Kernel>⟧.LANES AES_LANES (λ j. ccm_rounds (length j.aad) j.cipher_len) }
    ensures ccm192 { IsServed kind.Ccm192 ⟦<CcmKernel<12> as JobKernel>⟧.kind ⟦<CcmKernel<12> as Kernel>⟧.LANES AES_LANES (λ j. ccm_rounds (length j.aad) j.cipher_len) }
    ensures ccm256 { IsServed kind.Ccm256 ⟦<CcmKernel<14> as JobKernel>⟧.kind ⟦<CcmKernel<14> as Kernel>⟧.LANES AES_LANES (λ j. ccm_rounds (length j.aad) j.cipher_len) }
{}
