//! What both programs share: how they read their words, and what they say on standard error of words that are refused, of a run that was
//! not whole, and of a session that cannot be live. No clause speaks of what is said there.
mod calls;
mod faults;
mod messages;
mod options;
mod overheard;
mod programs;
mod shown;
mod texts;
mod verdicts;

pub use calls::command_words;
pub use messages::tell;
pub use overheard::Overheard;
pub use programs::Program;
