//! What a line asks for.
ghost use Rattle.std.specs.Prelude.{◌≡◌};
ghost use Rattle.command_lines.specs.Commands.{verb_of};

/// What a line asks for, by its first field.
#[derive(Clone, Copy)]
pub enum Verb {
    Request,
    Cancel,
    At,
    Done,
    On,
    Off,
    Clock,
    Batch,
}

/// The verb of a first field.
pub fn verb_of(word: &[u8]) -> Option<Verb>
    ensures { result ≡ verb_of word.now }
{
    if word == b"request".as_slice() {
        return Some(Verb::Request);
    }
    if word == b"cancel".as_slice() {
        return Some(Verb::Cancel);
    }
    if word == b"at".as_slice() {
        return Some(Verb::At);
    }
    if word == b"done".as_slice() {
        return Some(Verb::Done);
    }
    if word == b"on".as_slice() {
        return Some(Verb::On);
    }
    if word == b"off".as_slice() {
        return Some(Verb::Off);
    }
    if word == b"clock".as_slice() {
        return Some(Verb::Clock);
    }
    if word == b"batch".as_slice() {
        return Some(Verb::Batch);
    }
    None
}
