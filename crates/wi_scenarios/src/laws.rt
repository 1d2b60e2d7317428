//! Laws of what commands answer. The contract of each function is the law.

ghost use Rattle.std.specs.Prelude.{◌≡◌, ℕ, List, Option, Ok};
ghost use Rattle.wi_store.specs.Store.{Stored};
ghost use Rattle.wi_scenario_list.specs.Bases.{HasChains};
ghost use Rattle.wi_scenarios.specs.State.{State, state_over};
ghost use Rattle.wi_scenarios.specs.Answer.{Answer};
ghost use Rattle.wi_scenarios.specs.Commands.Command.{Command, Changes};
ghost use Rattle.wi_scenarios.specs.Commands.Edits.{is_forced, named};
ghost use Rattle.wi_scenarios.specs.Commands.Step.{IsStep};
ghost use Rattle.wi_scenarios.specs.Events.{Event, ForcedIsNotStale, IsCoherent, KeepsApart, ListsAddUp, LogGrows, MayFollow, MayHappen, RecordsTellList, StaleIsNewer, StaysCoherent};
ghost use Rattle.wi_scenarios.specs.Laws.{GivesChain, is_changes, KeepsChains, Leaves, named_by};

/// A command has one answer in each state.
#[tactic(auto, using(crate::proofs::StepLemmas::an_answer, crate::proofs::StepLemmas::no_other))]
pub fn one_answer()
    ensures some { (s : State) (c : Command) → (a : Answer) × IsStep s c a }
    ensures no_other { (s : State) (c : Command) (a b : Answer) → IsStep s c a
        → IsStep s c b → a ≡ b }
{}

/// In a workbook that was just made, and so after each run from there, the current session is one of the sessions, and
/// none has seen more of the log than there is.
#[tactic(auto, using(crate::proofs::RunLemmas::new_is_coherent, crate::proofs::RunLemmas::stays_coherent))]
pub fn runs_stay_coherent()
    ensures new { (stored : Stored) → IsCoherent (state_over stored) }
    ensures stays { (s : State) (es : List (Event Command)) → StaysCoherent IsStep s es }
{}

/// In a workbook that was just made, and so after each run from there, there are no more scenarios than may be, and
/// each has a chain: none is based on itself, at any remove, or on one that isn't there. So what `chain` gives, by
/// which commands show what scenarios put in, is the chain.
pub fn scenarios_have_chains()
    ensures new { (stored : Stored) → HasChains (state_over stored).scenarios }
    ensures kept { (s : State) (es : List (Event Command)) → KeepsChains s es }
    ensures is_chain { (s : State) (name : Option (List ℕ)) → GivesChain s name }
{}

/// In every interleaving, the change lists that a session is told, put into the picture that it had before, make the
/// one that it has at the end, which has what it was shown at the last of them.
pub fn change_lists_add_up()
    ensures { (s : State) (es : List (Event Command)) (i : ℕ) → IsCoherent s
        → MayFollow IsStep s es → ListsAddUp is_changes s es i }
{}

/// The records of a change list tell its addresses, kinds and texts, and with them the list.
pub fn records_tell_lists()
    ensures { (s t : State) (records : List ℕ) → IsStep s Changes (Ok (t, records))
        → RecordsTellList IsStep Changes s records }
{}

/// What each accepted command leaves. No command changes a session that isn't current.
#[tactic(auto, using(crate::proofs::RunLemmas::leaves, crate::proofs::RunLemmas::keeps_apart))]
pub fn sessions_keep_apart()
    ensures leaves { (s t : State) (c : Command) (records : List ℕ)
        → IsStep s c (Ok (t, records)) → Leaves c s t }
    ensures apart { (s : State) (e : Event Command) (i : ℕ) → IsCoherent s
        → MayHappen IsStep s e → KeepsApart s e i }
{}

/// The log grows by the accepted edits, and what a session hasn't seen of it are those since it was last told a change
/// list. An edit that isn't forced, and isn't refused for a cause that counts before or as out of memory, is refused
/// for a stale cell exactly where others' edits since then name one of its cells, and for the first such. One that is
/// forced never is.
pub fn stale_is_newer()
    ensures log { (s : State) (es : List (Event Command)) (i : ℕ) → IsCoherent s
        → MayFollow IsStep s es → LogGrows is_changes named_by s es i }
    ensures stale { (s : State) (es : List (Event Command)) (e : Event Command) → IsCoherent s
        → MayFollow IsStep s es
        → StaleIsNewer IsStep is_changes named_by is_forced s es e (named e.command) }
    ensures forced { (s : State) (e : Event Command) → ForcedIsNotStale IsStep is_forced s e }
{}
