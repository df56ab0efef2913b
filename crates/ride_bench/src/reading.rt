//! The reading of a map.
use crate::stopwatch::Stopwatch;
use anyhow::{Result, bail};
use gr_reader::read_map;
use ride_ports::{FileShelf, Shelf};
use std::alloc::Global;
use std::rt::{Clock, Files};

/// How many nodes and arcs a map has, and the microseconds that its reading took.
#[derive(Clone, Copy)]
struct Size {
    nodes: u32,
    arcs: usize,
    micros: u128,
}

/// Reads a map file.
fn read<R: Clock + Files + AllocGlobal>(rt: &R, alloc: Global, name: String) -> Result<Size>
where
    R::File: Send,
{
    let watch = Stopwatch::start(rt);
    let mut shelf = FileShelf::new(rt);
    let Ok(mut source) = shelf.bring(name) else {
        bail!("no such file");
    };
    let map = read_map(alloc, &mut source);
    let micros = watch.elapsed(rt).as_micros();
    shelf.give_back(source);
    let map = map?;
    Ok(Size {
        nodes: map.nodes(),
        arcs: map.arcs().len(),
        micros,
    })
}

/// Times the reading of a map file.
pub fn time_map<R: Clock + Print + Files + AllocGlobal>(
    rt: &R,
    alloc: Global,
    name: String,
) -> Result<()>
where
    R::File: Send,
{
    let size = read(rt, alloc, name)?;
    println!(rt; "nodes {} arcs {}", size.nodes, size.arcs)?;
    Ok(println!(rt; "{} microseconds", size.micros)?)
}
