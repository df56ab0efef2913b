ghost use Rattle.std.specs.Prelude.{ℕ, List};

/// A value that keeps the history of what was done to it.
/// The members are for contracts alone: no code reads them.
pub trait Chronicle: Drop {
    /// The type of what the value began as. The lock makes no value of it.
    type Root;

    /// One event of the history.
    type Item;

    /// What the value began as, which no turn may change.
    ghost root: { Self → Self.Root };

    /// The events so far, the oldest first.
    ghost history: { Self → List Self.Item };

    /// The number of the pass that made an event.
    ghost maker: { Self.Item → ℕ };
}
