//! What is done with jobs.

/// What is done with each job, in whichever thread.
pub trait Work {
    /// What it is done with.
    type Job;

    /// What it comes to.
    type Out;

    /// What it asks of its caller.
    ghost needs: { Self → Self.Job → Type 0 };

    /// What it guarantees its caller of the result.
    ghost gives: { Self → Self.Job → Self.Out → Type 0 };

    /// Does it with this job.
    fn run(&self, job: Self::Job) -> Self::Out
        requires { needs self.now job }
        ensures { gives self.now job result };
}
