//! What a desk gets that asks for a batch.

use batch_commit::Batch;

/// What a desk gets that asks for a batch.
#[derive(Drop)]
pub enum Opening {
    Batch(Batch),
    /// No batch is to come yet: as many were opened as asked for, and a feed has not ended.
    Idle,
    /// No batch is to come: as many were opened as asked for, and all feeds have ended.
    Ended,
}
