//! What kept a session's loops from running whole.
ghost use Rattle.std.specs.Prelude.{◌≡◌};
ghost use Rattle.live_sessions.specs.inner.Actors.{either, nothing_wanting};
ghost use Rattle.live_sessions.specs.inner.Stages.{is_cut_short, ran_of};

use crate::actors::Answers;
use ride_ports::{Failed, Ran};
use session_loops::Scribed;

/// What kept a session from running whole, which began with entries of which some were broken off or none was.
pub(crate) fn ran_of(answers: &Answers, sink_failed: bool, broken_off: bool) -> Ran
    ensures { result ≡ ran_of answers.now sink_failed broken_off }
{
    let log = Ran {
        sink_failed,
        no_memory: is_cut_short(&answers.scribed) | broken_off,
        source_failed: false,
        too_long: false,
    };
    either(
        either(answers.riders, answers.drivers),
        either(answers.desks, log),
    )
}

// Whether a scribe ended for want of memory.
fn is_cut_short(scribed: &Result<Scribed, Failed>) -> bool
    ensures { result ≡ is_cut_short scribed.now }
{
    match scribed {
        Ok(scribed) => !scribed.whole,
        Err(_) => false,
    }
}

/// How an actor runs that has nothing to do.
pub(crate) fn nothing_wanting() -> Ran
    ensures { result ≡ nothing_wanting }
{
    Ran {
        sink_failed: false,
        no_memory: false,
        source_failed: false,
        too_long: false,
    }
}

/// What kept either of two from running whole.
pub(crate) fn either(one: Ran, other: Ran) -> Ran
    ensures { result ≡ either one other }
{
    Ran {
        sink_failed: one.sink_failed | other.sink_failed,
        no_memory: one.no_memory | other.no_memory,
        source_failed: one.source_failed | other.source_failed,
        too_long: one.too_long | other.too_long,
    }
}
