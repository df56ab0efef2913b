//! Short lists of ids.
ghost use Rattle.std.specs.Prelude.{◌≡◌, ◌<◌, ◌≤◌, [], ◌∷◌, ◌++◌, length};
ghost use Rattle.ride_model.specs.declared.limits.TheConstants.{MOST_RIDES};

use arrayvec::ArrayVec;
use std::marker::Model;

/// A list of at most 16 ids.
#[derive(Drop)]
pub struct Ids {
    items: ArrayVec<u64, 16>,
}

impl Model for Ids {
    ghost use Rattle.std.specs.Prelude.{ℕ, List};

    ghost Value = { List ℕ };

    ghost view = { λ ids. ids.items.items };
}

impl Ids {
    /// No ids.
    pub fn new() -> Ids
        ensures { result ≡ [] }
    {
        Ids {
            items: ArrayVec::new(),
        }
    }

    /// Adds an id at the end.
    pub fn push(&mut self, id: u64)
        requires { length self.old < MOST_RIDES }
        ensures { self.new ≡ self.old ++ id ∷ [] }
    {
        self.items.push(id);
    }

    /// The ids, in order.
    #[inline]
    pub fn items(&self) -> &[u64]
        ensures items { result.now ≡ self.now }
        ensures at_most_16 { length self.now ≤ MOST_RIDES }
    {
        self.items.as_slice()
    }

    /// An equal list.
    pub fn copy(&self) -> Ids
        ensures { result ≡ self.now }
    {
        let ids = self.items.as_slice();
        let mut items = ArrayVec::new();
        for id in ids {
            items.push(*id);
        }
        Ids { items }
    }
}
