//! Prices and payments as lists of numbers.
ghost use Rattle.std.specs.Prelude.{◌≡◌, ◌≤◌, ◌+◌, ◌*◌, ◌^◌, length, sum, All, IsTrue, MatchBool, ◌↔◌};
ghost use Rattle.dual_check.specs.declared.grids.TheConstants.{WIDEST_GRID};

/// Whether each price is at most the penalty.
pub fn are_capped(prices: &[u64], penalty: u64) -> bool
    ensures { IsTrue result ↔ All (λ price. price ≤ penalty) prices.now }
{
    prices.iter().all(|price| *price <= penalty)
}

/// The sum of at most 8,000 amounts.
pub fn total(amounts: &[u64]) -> u128
    requires { length amounts.now ≤ WIDEST_GRID }
    ensures total { result ≡ sum amounts.now }
    ensures limit { result ≤ WIDEST_GRID * 2 ^ 64 }
{
    let mut total = 0;
    for amount in amounts {
        total += u128::from(*amount);
    }
    total
}
