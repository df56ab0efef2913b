//! How far a hierarchy is made.
ghost use Rattle.std.specs.Prelude.{◌≡◌, IfOk};
ghost use Rattle.adaptive_roads.specs.inner.Made.{IsMadeOf};

use crate::contraction::Contraction;
use crate::made::Made;
use crate::road_hierarchy::Hierarchy;
use ride_model::{Network, NoMemory};
use road_times::Roads;
use std::alloc::Global;
use std::marker::Model;

/// A network that is contracted, as far as it is.
#[derive(Drop)]
pub(crate) struct Contracting {
    network: Network,
    contraction: Contraction,
}

impl Model for Contracting {
    ghost use Rattle.adaptive_roads.specs.inner.Made.{MadeOf, IsMadeOf};

    ghost Value = { MadeOf };

    ghost view = { λ c. record { roads = c.network; hierarchy = c.contraction } };

    ghost invariant = { λ c. IsMadeOf c.network c.contraction };
}

/// How far a hierarchy is made that is kept elsewhere once it is there.
#[derive(Drop)]
pub(crate) enum Making {
    NotBegun,
    Contracting(Contracting),
    Over,
}

/// What a piece of work has led to.
#[derive(Drop)]
pub(crate) enum Progress {
    /// More is to be contracted.
    More(Contracting),
    Made(Made),
    /// The map does not contract.
    Never,
}

/// Looks at so many links more of a map's contraction, and makes the hierarchy once no more is to be contracted.
pub(crate) fn contract_more(
    alloc: Global,
    roads: &Roads,
    making: Making,
    links: u64,
) -> Result<Progress, NoMemory> {
    match making {
        Making::NotBegun => contracted(alloc, uncontracted(alloc, roads)?, links),
        Making::Contracting(contracting) => contracted(alloc, contracting, links),
        Making::Over => Ok(Progress::Never),
    }
}

// A map of which nothing is contracted.
fn uncontracted(alloc: Global, roads: &Roads) -> Result<Contracting, NoMemory> {
    let network = roads.network(alloc)?;
    let contraction = Contraction::new(alloc, &network)?;
    Ok(Contracting {
        network,
        contraction,
    })
}

// A contraction in which so many more links were looked at, or the hierarchy once no more is to be contracted.
fn contracted(alloc: Global, contracting: Contracting, links: u64) -> Result<Progress, NoMemory> {
    let Contracting {
        network,
        mut contraction,
    } = contracting;
    if contraction.contract_some(links)? {
        return Ok(Progress::More(Contracting {
            network,
            contraction,
        }));
    }
    match Hierarchy::new(alloc, contraction)? {
        Some(hierarchy) => Ok(Progress::Made(Made::new(network, hierarchy))),
        None => Ok(Progress::Never),
    }
}
