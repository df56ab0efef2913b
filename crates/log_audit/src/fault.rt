//! What is wrong with an entry, and what was due in its place.
ghost use Rattle.std.specs.Prelude.{◌≡◌, None, Some};

use crate::Why;
use batch_commit::Batch;

/// The first word that an entry does not meet. Where its reply, its batch or its outcomes are wrong, the board has made the entry that
/// was due; where its seats or its prices are, the batch is here that it was to commit.
#[derive(Drop)]
pub(crate) struct Fault {
    pub(crate) why: Why,
    pub(crate) batch: Option<Batch>,
}

impl Fault {
    pub(crate) fn of(why: Why) -> Fault
        ensures { result ≡ record { why = why; batch = None } }
    {
        Fault { why, batch: None }
    }

    pub(crate) fn with_batch(why: Why, batch: Batch) -> Fault
        ensures { result ≡ record { why = why; batch = Some batch } }
    {
        Fault {
            why,
            batch: Some(batch),
        }
    }
}
