//! The lines of a map.
ghost use Rattle.std.specs.Prelude.{◌≡◌, ◌<◌, ◌+◌, ◌-◌, ◌^◌, ◌==◌, ◌||◌, ◌++◌, ◌∷◌, [], ℕ, List, length, take, min, nat_lt, if◌then◌else◌, option_map, Some, None, IfOk, IfErr, OnOk};
ghost use Rattle.line_text.specs.Fields.{is_over_long, numbers_of, words_of};
ghost use Rattle.gr_reader.specs.MapText.{checked_arc, checked_problem, problem_of};
ghost use Rattle.gr_reader.specs.inner.Reading.{IsArcAmong, IsProblem};

use crate::MapError;
use line_text::{Fields, LineParser, words_of};
use ride_model::limits::{LONGEST_ARC, MOST_ARCS, MOST_NODES};
use ride_model::{Network, RoadArc};
use std::alloc::Global;

/// What a problem line says.
#[derive(Clone, Copy)]
pub struct Problem {
    pub nodes: u32,
    pub arcs: u32,
}

/// What the lines so far said.
#[derive(Drop)]
pub struct MapLines {
    pub problem: Option<Problem>,
    /// The arcs, but no more than the problem says.
    pub arcs: Vec<RoadArc>,
    /// How many arc lines there were.
    pub found: u64,
}

impl MapLines {
    ghost use Rattle.ride_model.specs.Road.{IsRoadMap};
    ghost use Rattle.gr_reader.specs.declared.errors.MapError.TheVariants.{NoMemory};
    ghost use Rattle.gr_reader.specs.MapText.{MapSoFar, after_words, arc_line, map_of, problem_line};
    ghost use Rattle.gr_reader.specs.inner.Reading.{Gives, Holds};

    /// No lines.
    pub fn new(alloc: Global) -> MapLines
        ensures { Holds result (record { problem = None; arcs = [] }) }
    {
        MapLines {
            problem: None,
            arcs: Vec::new(alloc),
            found: 0,
        }
    }

    /// Takes what the line of this number says.
    fn words(&mut self, number: u64, words: Option<Fields<'_>>) -> Result<(), MapError>
        ensures { (so_far : MapSoFar) → Holds self.old so_far → length so_far.arcs < number →
            Gives result self.new number (after_words number so_far words.entry) }
    {
        let Some(mut fields) = words else {
            return Err(MapError::BadLine(number));
        };
        let Some(word) = fields.next_field() else {
            return Ok(());
        };
        if word == b"a".as_slice() {
            return self.arc_line(number, &mut fields);
        }
        if word == b"p".as_slice() {
            return self.problem_line(number, &mut fields);
        }
        Err(MapError::BadLine(number))
    }

    /// Takes the fields after `p`.
    fn problem_line(&mut self, number: u64, fields: &mut Fields<'_>) -> Result<(), MapError>
        ensures { (so_far : MapSoFar) → Holds self.old so_far → length so_far.arcs < number →
            Gives result self.new number (problem_line number
            so_far.problem so_far.arcs fields.old) }
    {
        if self.problem.is_some() {
            return Err(MapError::SecondProblem(number));
        }
        let problem = read_problem(number, fields)?;
        let Ok(arcs) = Vec::with_capacity(*self.arcs.allocator(), problem.arcs as usize) else {
            return Err(MapError::NoMemory);
        };
        self.problem = Some(problem);
        self.arcs = arcs;
        Ok(())
    }

    /// Takes the fields after `a`.
    fn arc_line(&mut self, number: u64, fields: &mut Fields<'_>) -> Result<(), MapError>
        ensures { (so_far : MapSoFar) → Holds self.old so_far → length so_far.arcs < number →
            Gives result self.new number (arc_line number so_far.problem so_far.arcs fields.old) }
    {
        let Some(problem) = self.problem else {
            return Err(MapError::NoProblem);
        };
        let arc = read_arc(number, problem.nodes, fields)?;
        self.add(problem.arcs, arc)
    }

    /// Adds an arc, and keeps it where fewer than `most` stand before it.
    fn add(&mut self, most: u32, arc: RoadArc) -> Result<(), MapError>
        ensures problem { self.new.problem ≡ self.old.problem }
        ensures arcs { OnOk result (self.new.arcs.items ≡
            (if nat_lt self.old.found most then self.old.arcs.items ++ arc
            ∷ [] else self.old.arcs.items)) }
        ensures found { OnOk result (self.new.found ≡ min (self.old.found + 1) (2 ^ 64 - 1)) }
        ensures err { IfErr result (λ e. e ≡ NoMemory) }
    {
        if self.found < u64::from(most) {
            let Ok(()) = self.arcs.push(arc) else {
                return Err(MapError::NoMemory);
            };
        }
        self.found = self.found.saturating_add(1);
        Ok(())
    }

    /// The map, after the last line.
    pub fn finish(self) -> Result<Network, MapError>
        requires { (so_far : MapSoFar) × Holds self so_far }
        ensures { (so_far : MapSoFar) → Holds self so_far → result ≡ map_of so_far }
    {
        let Some(problem) = self.problem else {
            return Err(MapError::NoProblem);
        };
        let said = u64::from(problem.arcs);
        if self.found != said {
            return Err(MapError::ArcCount {
                said,
                found: self.found,
            });
        }
        Ok(Network::new(problem.nodes, self.arcs))
    }
}

impl LineParser for MapLines {
    type Refusal = MapError;

    ghost use Rattle.gr_reader.specs.inner.Reading.{HasTaken, Refuses};

    ghost takes = { λ _ lines now. HasTaken lines now };

    ghost refuses = { λ _ lines e. Refuses lines e };

    fn line(&mut self, number: u64, line: &[u8], over: bool) -> Result<(), MapError> {
        self.words(number, words_of(b'c', line, over))
    }
}

/// Reads the fields after `p`.
fn read_problem(number: u64, fields: &mut Fields<'_>) -> Result<Problem, MapError>
    ensures value { result ≡ problem_of number fields.old }
    ensures within { IfOk result IsProblem }
{
    let Some((nodes, arcs)) = problem_numbers(fields) else {
        return Err(MapError::BadLine(number));
    };
    if nodes == 0 {
        return Err(MapError::BadLine(number));
    }
    if nodes > MOST_NODES || arcs > MOST_ARCS {
        return Err(MapError::TooLarge(number));
    }
    Ok(Problem {
        nodes: nodes as u32,
        arcs: arcs as u32,
    })
}

/// The numbers of nodes and arcs.
fn problem_numbers(fields: &mut Fields<'_>) -> Option<(u64, u64)>
    ensures { (number : ℕ) → problem_of number fields.old
        ≡ checked_problem number (option_map (λ read. read.0 ∷ read.1 ∷ []) result) }
{
    if fields.next_field()? != b"sp".as_slice() {
        return None;
    }
    match fields.numbers::<2>()?.as_slice() {
        [nodes, arcs] => Some((*nodes, *arcs)),
        _ => None,
    }
}

/// Reads the fields after `a`.
fn read_arc(number: u64, nodes: u32, fields: &mut Fields<'_>) -> Result<RoadArc, MapError>
    ensures value { result ≡ checked_arc number nodes (numbers_of fields.old) }
    ensures within { IfOk result (IsArcAmong nodes) }
{
    let Some((tail, head, seconds)) = arc_numbers(fields) else {
        return Err(MapError::BadLine(number));
    };
    if is_out(nodes, tail) || is_out(nodes, head) {
        return Err(MapError::NodeOut(number));
    }
    if seconds > LONGEST_ARC {
        return Err(MapError::WeightOut(number));
    }
    Ok(RoadArc {
        tail: tail as u32,
        head: head as u32,
        seconds: seconds as u32,
    })
}

/// The numbers of an arc's two nodes and of its seconds.
fn arc_numbers(fields: &mut Fields<'_>) -> Option<(u64, u64, u64)>
    ensures { (number most : ℕ) → checked_arc number most (numbers_of fields.old)
        ≡ checked_arc number most (option_map (λ read. read.0 ∷ read.1 ∷ read.2 ∷ []) result) }
{
    match fields.numbers::<3>()?.as_slice() {
        [tail, head, seconds] => Some((*tail, *head, *seconds)),
        _ => None,
    }
}

/// Whether there is no node of this number.
#[inline]
fn is_out(nodes: u32, node: u64) -> bool
    ensures { result ≡ (node == 0 || nat_lt nodes node) }
{
    node == 0 || node > u64::from(nodes)
}
