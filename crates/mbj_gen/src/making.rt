ghost use Rattle.std.specs.Prelude.{◌≡◌, IfOk};
ghost use Rattle.mbj_gen.specs.Generator.{draws, job};

use crate::generator::Generator;
use mbj_types::Job;
use std::alloc::{AllocError, Global};

/// Makes `count` jobs from a seed.
///
/// Returns `AllocError` for want of memory.
#[tactic(auto, unfolding(crate::specs::Generator::draws))]
pub fn make_jobs(alloc: Global, seed: u64, count: u32) -> Result<Vec<Job>, AllocError>
    ensures { IfOk result (λ jobs. jobs.items ≡ (draws job count seed).0) }
{
    let mut generator = Generator::new(seed);
    let mut jobs = Vec::with_capacity(alloc, count as usize)?;
    for _ in 0..count {
        let job = generator.job(alloc)?;
        jobs.push_reserved(job);
    }
    Ok(jobs)
}
