//! What feeds and desks tell a board: commands, and that they have ended.
ghost use Rattle.std.specs.Prelude.{◌≡◌, ◌<◌, ◌≤◌, ◌+◌, [], ◌++◌, ◌∷◌, length, vec_len, vec_capacity, IfOk, OnOk, OnErr, IsErr, IsFalse};
ghost use Rattle.ride_model.specs.declared.command.Actor.TheVariants.{Feed};
ghost use Rattle.ride_model.specs.declared.entry.Event.TheVariants.{Finish};
ghost use Rattle.ride_model.specs.State.{has_ended};
ghost use Rattle.ride_model.specs.Step.{step};
ghost use Rattle.ride_model.specs.Legal.{IsNumbered, IsLegalEvent};
ghost use Rattle.ride_model.specs.History.{fed_commands};
ghost use Rattle.ride_model.specs.Text.{IsSpelledCommand};
ghost use Rattle.ride_model.specs.inner.Limits.{most_commands};
ghost use Rattle.board_core.specs.inner.Opening.{IsRequest};
ghost use Rattle.board_core.specs.Recorded.{Recorded, state_of, end_entry};
ghost use Rattle.board_core.specs.inner.Recorded.{fed_entry};

use crate::Board;
use ride_model::{Actor, Command, Ending, Entry, Event, NoMemory, Reply};

impl<'r> Board<'r> {
    /// Answers a feed's command by the rules of dispatch, and appends it with its reply.
    pub fn apply(&mut self, feed: u8, command: &Command) -> Result<Reply, NoMemory>
        requires feed { IsNumbered self.old.feeds feed }
        requires not_ended { IsFalse (has_ended (state_of self.old) (Feed feed)) }
        requires few { length (fed_commands feed self.old.history) < most_commands }
        requires spelled { IsSpelledCommand self.old.start.settings.log command.now }
        ensures reply { IfOk result (λ reply. reply
            ≡ (step (state_of self.old) command.now).reply) }
        ensures entry { OnOk result (self.new.history
            ≡ self.old.history ++ fed_entry (state_of self.old) feed command.now ∷ []) }
        ensures no_memory { OnErr result (self.new ≡ self.old) }
        ensures others { self.new ≡ record self.old {
          history = self.new.history;
          spare = self.new.spare;
        } }
        ensures spare { self.old.spare ≤ self.new.spare + 1 }
        ensures reserved { IsErr result → 1 ≤ self.old.spare → IsRequest command.now }
    {
        let left = self.spare.saturating_sub(1);
        self.history
            .reserve(left as usize + 1 + self.kept.places_kept())?;
        let reply = self.service.answer(&mut self.setup, command)?;
        let event = Event::Fed {
            command: *command,
            reply: reply.copy(),
        };
        append(&mut self.history, Actor::Feed(feed), event);
        self.spare = left;
        Ok(reply)
    }

    /// Ends an actor. Takes no memory.
    pub fn end(&mut self, actor: Actor, ending: Ending)
        requires { IsLegalEvent self.old.feeds self.old.desks
            (state_of self.old) actor (Finish ending) }
        ensures entry { self.new.history ≡ self.old.history ++ end_entry actor ending ∷ [] }
        ensures others { self.new ≡ record self.old {
          history = self.new.history;
          spare = self.new.spare;
        } }
        ensures spare { self.old.spare ≤ self.new.spare }
    {
        self.kept.end(actor, ending);
        append(&mut self.history, actor, Event::Finish { ending });
    }
}

/// Appends an entry for which there is room.
pub(crate) fn append(history: &mut Vec<Entry>, actor: Actor, event: Event)
    requires { vec_len history.old < vec_capacity history.old }
    ensures items { history.new.items
        ≡ history.old.items ++ (record { actor = actor; event = event }) ∷ [] }
    ensures capacity { vec_capacity history.old ≤ vec_capacity history.new }
{
    let _pushed = history.push(Entry { actor, event });
}
