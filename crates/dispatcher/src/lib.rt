//! The top call: what the program does with the words after its name, files by a shelf, and one sink.
#![tactic(auto)]

mod answering;
mod files;
mod handing;
mod refusals;
mod runs;
mod serving;
mod sources;
mod status;
mod stop;
mod top;
mod verdicts;

pub use answering::answer;
pub use files::{TextNames, Texts, bring_texts};
pub use handing::{bring, give_back};
pub use runs::{ahead, audit, book, drill, league, replay, serve};
pub use serving::{Crew, Feeds};
pub use status::Status;
pub use stop::Stop;
pub use top::{WORDS_REFUSED, run};
pub use verdicts::say_found;
