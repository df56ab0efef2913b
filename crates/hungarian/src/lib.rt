//! Least pairings of the rows and columns of a grid, with prices that prove them least.
//!
//! The Hungarian method (Kuhn, "The Hungarian method for the assignment problem", 1955; Munkres, "Algorithms for the
//! assignment and transportation problems", 1957) in the form of Jonker and Volgenant, "A shortest augmenting path
//! algorithm for dense and sparse linear assignment problems", 1987. Rows are added one at a time. Each is the root of
//! a search for a shortest path over reduced costs, which ends at a free column or at a row that is left out at the
//! penalty. Prices and payments only grow, so all numbers are unsigned.
#![tactic(auto)]

mod batch;
mod costs;
mod duals;
mod matches;
mod relaxing;
mod search;
mod seating;
mod solving;

pub use batch::solve;
pub use seating::{pay_at, prices_by};
pub use solving::solve_grid;
