//! What a session holds beside its name, and what changes it.

ghost use Rattle.std.specs.Prelude.{◌≡◌, ◌≢◌, ℕ, List, [], OnOk, OnErr, string_bytes};
ghost use Rattle.std.specs.Option.{option_map};
ghost use Rattle.wi_sessions.specs.Sessions.{new_session, told, using_scenario};
ghost use Rattle.wi_sessions.specs.Inner.Details.{with_name};

use crate::picture::{Change, Picture};
use std::alloc::{AllocError, Global};

/// The scenario that a session uses, if any, what it was last shown, and how many edits there were then.
#[derive(Drop)]
pub(crate) struct Details {
    pub(crate) scenario: Option<String>,
    pub(crate) picture: Picture,
    pub(crate) seen: u64,
}

impl Details {
    /// No scenario, and nothing shown yet. Takes no memory.
    pub(crate) fn new(alloc: Global) -> Details
        ensures { (name : List ℕ) → with_name name result ≡ new_session name }
    {
        Details {
            scenario: None,
            picture: Picture::new(alloc),
            seen: 0,
        }
    }

    /// From now on the session uses this scenario; with None, the sheet as it stands.
    pub(crate) fn use_scenario(&mut self, scenario: Option<String>)
        ensures { (name : List ℕ) → with_name name self.new
            ≡ using_scenario (with_name name self.old) (option_map string_bytes scenario) }
    {
        self.scenario = scenario;
    }

    /// Puts a change list into the picture, when the log has this length. On an error all is as before.
    pub(crate) fn tell(&mut self, changes: Vec<Change>, seen: u64) -> Result<(), AllocError>
        ensures told { OnOk result ((name : List ℕ) → with_name name self.new
            ≡ told (with_name name self.old) changes.items seen) }
        ensures refused { OnErr result (self.new ≡ self.old) }
        ensures some { OnErr result (changes.items ≢ []) }
    {
        self.picture.apply(changes)?;
        self.seen = seen;
        Ok(())
    }
}
