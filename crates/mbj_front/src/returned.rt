ghost use Rattle.std.specs.Prelude.{◌≡◌};

use std::marker::Model;

/// A result, and the job that it is of where that goes back with it. Contracts see the result alone: what is left of the job is memory,
/// which so goes home to the submitter that took it.
#[derive(Drop)]
pub struct Returned<J, D> {
    made: D,
    job: Option<J>,
}

impl<J, D> Model for Returned<J, D> {
    ghost Value = { D };

    ghost view = { λ r. r.made };
}

impl<J, D> Returned<J, D> {
    /// A result, and the job that it is of if that comes back with it.
    pub fn new(made: D, job: Option<J>) -> Returned<J, D>
        ensures { result ≡ made }
    {
        Returned { made, job }
    }

    /// The result, and the job if that came back.
    pub fn into_parts(self) -> (D, Option<J>)
        ensures { result.0 ≡ self }
    {
        let Returned { made, job } = self;
        (made, job)
    }
}

impl<J: Drop, D> Returned<J, D> {
    /// The result; the job is dropped.
    pub fn into_result(self) -> D
        ensures { result ≡ self }
    {
        let Returned { made, .. } = self;
        made
    }
}
