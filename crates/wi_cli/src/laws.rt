//! How lines are read as commands, and that runs are events.

ghost use Rattle.std.specs.Prelude.{◌≡◌, Bool, false, List};
ghost use Rattle.wi_scenarios.specs.State.{State};
ghost use Rattle.wi_scenarios.specs.Commands.Command.{Command};
ghost use Rattle.wi_cli.specs.Inner.Script.{blocks};
ghost use Rattle.wi_cli.specs.Lines.{Bytes};
ghost use Rattle.wi_cli.specs.Laws.{commands_of, SameAddr, SameRect, Splits};
ghost use Rattle.wi_cli.specs.Script.{AreCommands};
ghost use Rattle.wi_cli.specs.Outcome.{Writes};
ghost use Rattle.wi_cli.specs.Events.{AreEvents};

/// A word spells a cell where it reads as one, inside the sheet or outside.
pub fn addresses_are_the_same()
    ensures { (word : Bytes) → SameAddr word }
{}

/// A word spells a rectangle where it reads as one, inside the sheet or outside.
pub fn rectangles_are_the_same()
    ensures { (word : Bytes) → SameRect word }
{}

/// Lines take data lines as their blocks do.
#[tactic(auto, using(crate::proofs::Ties::LinesRead::blocks_split))]
pub fn blocks_are_the_same()
    ensures { (lines : List Bytes) → Splits lines (blocks lines) }
{}

/// Lines have the commands that they are read as.
#[tactic(auto, using(crate::proofs::Ties::LinesRead::has_commands))]
pub fn lines_have_commands()
    ensures { (ended : Bool) (lines : List Bytes)
        → AreCommands ended lines (commands_of ended lines) }
{}

/// Lines have no other commands.
#[tactic(auto, using(crate::proofs::Ties::OneReading::same_commands))]
pub fn lines_have_no_others()
    ensures { (ended : Bool) (lines : List Bytes) (cs : List Command)
        → AreCommands ended lines cs → commands_of ended lines ≡ cs }
{}

/// What a run has written, where its sink doesn't fail, is the replies of events: of each command one of its answers.
/// So what holds of events one after another holds of each run.
#[tactic(auto, using(crate::proofs::Ties::Replies::are_events))]
pub fn runs_have_events()
    ensures { (s t : State) (cs : List Command) (out : Bytes) → Writes false s cs out t
        → AreEvents s cs out t }
{}
