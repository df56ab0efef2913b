//! Pairs of places that were found, and the cheaper of two.
ghost use Rattle.std.specs.Prelude.{◌≡◌, ◌⊎◌, option_map};
ghost use Rattle.ride_model.specs.Road.{lesser};
ghost use Rattle.slack_tables.specs.declared.found.Found.{Found};
ghost use Rattle.slack_tables.specs.inner.Search.{cost_found};

/// A pair of places and what it costs.
#[derive(Clone, Copy, PartialEq, Eq, Default)]
pub struct Found {
    pub i: u32,
    pub j: u32,
    pub cost: u64,
}

/// A pair of places with a cost, where it has one.
#[inline(always)]
pub fn found_at(i: u32, j: u32, cost: Option<u64>) -> Option<Found>
    ensures { result ≡ option_map (λ cost. record { i = i; j = j; cost = cost }) cost }
{
    let cost = cost?;
    Some(Found { i, j, cost })
}

/// The cheaper of two pairs, the first where they cost the same.
#[inline(always)]
pub fn cheaper(first: Option<Found>, second: Option<Found>) -> Option<Found>
    ensures cost { cost_found result ≡ lesser (cost_found first) (cost_found second) }
    ensures one { (result ≡ first) ⊎ (result ≡ second) }
{
    match (first, second) {
        (Some(a), Some(b)) => Some(if b.cost < a.cost { b } else { a }),
        (None, second) => second,
        (first, None) => first,
    }
}
