//! The words that tell events.
ghost use Rattle.std.specs.Prelude.{◌≡◌};
ghost use Rattle.trip_log.specs.inner.Reads.{kind_of};

/// What the first word after the actor says.
#[derive(Clone, Copy)]
pub(crate) enum Kind {
    End,
    Cut,
    Bad,
    Open,
    Commit,
    Abandon,
}

/// What a word says that no command begins with.
pub(crate) fn kind_of(word: &[u8]) -> Option<Kind>
    ensures { result ≡ kind_of word.now }
{
    if word == b"end".as_slice() {
        return Some(Kind::End);
    }
    if word == b"cut".as_slice() {
        return Some(Kind::Cut);
    }
    if word == b"bad".as_slice() {
        return Some(Kind::Bad);
    }
    if word == b"open".as_slice() {
        return Some(Kind::Open);
    }
    if word == b"commit".as_slice() {
        return Some(Kind::Commit);
    }
    if word == b"abandon".as_slice() {
        return Some(Kind::Abandon);
    }
    None
}
