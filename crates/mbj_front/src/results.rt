/// Which result a job has. A front needs nothing else of jobs and results, and never looks inside one.
pub trait Results<J, D> {
    // The result of a job.
    ghost owed: { J → D };
}
