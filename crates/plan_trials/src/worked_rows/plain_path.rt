//! The plain path: its text, byte by byte.
#![tactic(auto, unfolding(ride_model::specs::Text::text_of))]

ghost use Rattle.std.specs.Prelude.{◌≡◌, ℕ, List, [], ◌∷◌, codes};
ghost use Rattle.ride_model.specs.declared.command.Command.TheVariants.{Request, Ask};
ghost use Rattle.ride_model.specs.Text.{text_of, line_of, command_fields};
ghost use Rattle.ride_model.specs.Legal.{IsLegal, replay};
ghost use Rattle.ride_model.specs.History.{IsFinished, IsDirect, fed_commands, confirmed_total, away_total};
ghost use Rattle.ride_model.specs.Promises.{KeepsPromises, KeepsState};
ghost use Rattle.plan_trials.specs.worked_rows.PlainPath.{plain_path, plain_text, text_line, start, cut_feed, given_up, overloaded};

/// The text of the plain path's history is its log, to the byte.
pub fn plain_path_text()
    ensures { text_of 1 1 1 plain_path ≡ plain_text }
{}

/// The plain path's history is legal from the start of its fleet.
pub fn plain_path_is_legal()
    ensures { IsLegal 1 1 start plain_path }
{}

/// Both actors ended whole, nothing is open, and the batch stands directly behind its ask.
pub fn plain_path_is_finished_and_direct()
    ensures finished { IsFinished 1 1 start plain_path }
    ensures direct { IsDirect plain_path }
    ensures commands { fed_commands 1 plain_path ≡ Request 7 2 4 1 600 300 0 ∷ Ask ∷ [] }
    ensures confirmed { confirmed_total plain_path ≡ 1 }
    ensures away { away_total plain_path ≡ 0 }
{}

/// Where a feed was cut, or a batch given up, the history is not finished.
pub fn cut_or_given_up_is_not_finished()
    ensures cut { IsFinished 1 1 start cut_feed → ⊥ }
    ensures given_up { IsFinished 1 1 start given_up → ⊥ }
{}

/// The ride of the plain path is promised and kept.
pub fn plain_path_keeps_its_promises()
    ensures { KeepsPromises start plain_path }
{}

/// A vehicle with more riders than seats keeps no promises, late reports or not.
pub fn late_reports_excuse_no_seats()
    ensures { (late : List ℕ) → KeepsState overloaded late → ⊥ }
{}

/// Version 2 of the log spells a request's chairs, version 1 does not.
pub fn chairs_in_both_versions()
    ensures two { line_of (command_fields 2 (Request 7 2 4 0 600 300 1))
        ≡ text_line (codes "request 7 2 4 0 600 300 1") }
    ensures one { line_of (command_fields 1 (Request 7 2 4 1 600 300 0))
        ≡ text_line (codes "request 7 2 4 1 600 300") }
{}
