//! The open batches of a log's desks.
ghost use Rattle.std.specs.Prelude.{◌≡◌, None, Some};
ghost use Rattle.ride_model.specs.Text.{IsOneOrTwo};
ghost use Rattle.log_audit.specs.inner.OpenBatches.{batch_of, with_batch};

use batch_commit::Batch;

/// The open batch of each desk, where it has one.
#[derive(Drop)]
pub(crate) struct OpenBatches {
    pub(crate) first: Option<Batch>,
    pub(crate) second: Option<Batch>,
}

impl OpenBatches {
    pub(crate) fn none() -> OpenBatches
        ensures { result ≡ record { first = None; second = None } }
    {
        OpenBatches {
            first: None,
            second: None,
        }
    }

    /// Takes a desk's batch out.
    pub(crate) fn take(&mut self, desk: u8) -> Option<Batch>
        requires { IsOneOrTwo desk }
        ensures batch { result ≡ batch_of self.old desk }
        ensures left { self.new ≡ with_batch desk None self.old }
    {
        if desk == 1 {
            self.first.take()
        } else {
            self.second.take()
        }
    }

    /// Puts a desk's batch in.
    pub(crate) fn put(&mut self, desk: u8, batch: Batch)
        requires { IsOneOrTwo desk }
        ensures { self.new ≡ with_batch desk (Some batch) self.old }
    {
        if desk == 1 {
            self.first = Some(batch);
        } else {
            self.second = Some(batch);
        }
    }
}
