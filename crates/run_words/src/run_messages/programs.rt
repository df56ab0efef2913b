//! The programs, by which what is said is told apart.

/// A program, whose name stands before what it says.
#[derive(Clone, Copy, PartialEq, Eq)]
pub enum Program {
    Dispatch,
    Resume,
}

impl Program {
    /// Returns its name.
    pub(crate) fn name(self) -> &'static str {
        match self {
            Program::Dispatch => "ride_dispatch",
            Program::Resume => "ride_resume",
        }
    }

    /// Returns the place of its first word: a resumption takes the name that it is called by for one.
    pub(crate) fn first_word(self) -> usize {
        match self {
            Program::Dispatch => 1,
            Program::Resume => 0,
        }
    }

    /// Returns the word that says what is asked of it: of a dispatch it is the first of its words, and a resumption is one by its name.
    pub(crate) fn word(self, words: &[String]) -> &str {
        match (self, words.get(0)) {
            (Program::Resume, _) => "resume",
            (Program::Dispatch, Some(word)) => word.as_str(),
            (Program::Dispatch, None) => "",
        }
    }
}
