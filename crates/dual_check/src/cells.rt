//! The cells of a grid, 8 bytes each.
ghost use Rattle.std.specs.Prelude.{◌≡◌, ◌<◌, ◌^◌, ◌-◌, None, Some, unwrap_or};

use std::marker::Model;

// What stands in a cell without an amount.
const NOTHING: u64 = u64::MAX;

/// An amount, or none.
#[derive(Clone, Copy, PartialEq, Eq)]
pub struct Cell {
    amount: u64,
}

impl Model for Cell {
    ghost use Rattle.std.specs.Prelude.{ℕ, Option};
    ghost use Rattle.dual_check.specs.inner.Stored.{amount_in, stored};

    ghost Value = { Option ℕ };

    ghost view = { λ cell. amount_in cell.amount };

    ghost inverse = { λ amount. record { amount = stored amount } };
}

impl Cell {
    /// A cell without an amount.
    pub fn empty() -> Cell
        ensures { result ≡ None }
    {
        Cell { amount: NOTHING }
    }

    /// A cell with an amount.
    pub fn of(amount: u64) -> Cell
        requires { amount < 2 ^ 42 }
        ensures { result ≡ Some amount }
    {
        Cell { amount }
    }

    /// The amount, if any.
    #[inline(always)]
    pub fn amount(self) -> Option<u64>
        ensures { result ≡ self }
    {
        if self.amount == NOTHING {
            None
        } else {
            Some(self.amount)
        }
    }

    /// The amount, or the greatest number where there is none.
    #[inline(always)]
    pub(crate) fn amount_or_most(self) -> u64
        ensures { result ≡ unwrap_or self (2 ^ 64 - 1) }
    {
        self.amount
    }
}
