//! The words that a run begins with.
ghost use Rattle.std.specs.Prelude.{◌≡◌};
ghost use Rattle.run_words.specs.Words.{word_of};

/// What a run may be asked for.
#[derive(Clone, Copy)]
pub enum Word {
    Replay,
    Ahead,
    Audit,
    Serve,
    Drill,
    Book,
    League,
}

/// What is told of a word: its name, its options with their values, and what it does.
#[derive(Clone, Copy)]
pub struct Usage {
    pub name: &'static str,
    pub options: &'static str,
    pub does: &'static str,
}

/// What is told of a session that goes on from its log.
pub const RESUMPTION: Usage = Usage {
    name: "ride_resume",
    options: "--map MAP --fleet FLEET --log LOG --riders FEED --drivers FEED --workers 1..16",
    does: "goes on with the session of a log, which it writes anew with what comes then",
};

impl Word {
    /// All words, in the order in which they are told.
    pub const ALL: [Word; 7] = [
        Word::Replay,
        Word::Ahead,
        Word::Audit,
        Word::Serve,
        Word::Drill,
        Word::Book,
        Word::League,
    ];

    /// Returns the word of a name.
    pub fn named(name: &str) -> Option<Word>
        ensures { result ≡ word_of name.now }
    {
        match name {
            "replay" => Some(Word::Replay),
            "ahead" => Some(Word::Ahead),
            "audit" => Some(Word::Audit),
            "serve" => Some(Word::Serve),
            "drill" => Some(Word::Drill),
            "book" => Some(Word::Book),
            "league" => Some(Word::League),
            _ => None,
        }
    }

    /// Returns what is told of it.
    pub fn usage(self) -> Usage {
        match self {
            Word::Replay => told(
                "replay",
                "--map MAP --fleet FLEET --feed FEED",
                "answers a feed line by line and writes the log",
            ),
            Word::Ahead => told(
                "ahead",
                "--map MAP --fleet FLEET --feed FEED --reach 1..1000000",
                "writes where to send idle vehicles, in place of the log of a replay",
            ),
            Word::Audit => told(
                "audit",
                "--map MAP --fleet FLEET --log LOG",
                "says whether each line of a log is right",
            ),
            Word::Serve => told(
                "serve",
                "--map MAP --fleet FLEET --riders FEED --drivers FEED --workers 1..16 --desks 1..2",
                "answers riders and drivers at once and writes the log as it happens",
            ),
            Word::Drill => told(
                "drill",
                "--side 2..100 --vehicles 0..1000 --requests 0..16000 --seed 0..2147483647",
                "plays a day of a city that it draws, and writes a line of it",
            ),
            Word::Book => told(
                "book",
                "--feed FEED",
                "makes a plain feed of one in which riders book ahead",
            ),
            Word::League => told(
                "league",
                "--map MAP --fleet FLEET --second FLEET --feed FEED",
                "plays two companies that share their requests",
            ),
        }
    }
}

const fn told(name: &'static str, options: &'static str, does: &'static str) -> Usage {
    Usage {
        name,
        options,
        does,
    }
}
