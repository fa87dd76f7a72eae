ghost use Rattle.mbj_types.specs.Result.{result_of};

use crate::front::SharedFront;
use crate::results::Results;
use crate::seat::PartySeat;
use mbj_types::{Done, Job};

/// The result of a job is that of the standards.
pub struct Standard;

impl Results<Job, Done> for Standard {
    ghost owed = { result_of };
}

/// The front of the job manager.
pub type Front = SharedFront<Job, Done, Standard>;

/// A seat of that front.
pub type Seat = PartySeat<Job, Done>;
