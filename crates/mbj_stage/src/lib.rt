//! The course of one job: its cipher and its authentication, one after another, in the job's order.
#![tactic(auto)]

mod begin;
mod ccm;
mod cipher;
mod course;
mod entries;
mod gcm;
mod gmac;
mod job_kernel;
mod keyed;
mod lanes;
mod laws;
mod lengths;
mod stage;
mod tag;

pub use course::Course;
pub use job_kernel::{HashKind, JobKernel};
pub use laws::{
    a_course_owes_the_same_while_it_is_out, each_kind_has_its_kernel, results_keep_length,
};
pub use stage::Stage;
