//! What is kept beside the sheet.

ghost use Rattle.std.specs.Prelude.{◌≡◌, ◌<◌, ◌≤◌, length};
ghost use Rattle.wi_sessions.specs.Sessions.{max_sessions};

use wi_edit_log::EditLog;
use wi_scenario_list::Scenarios;
use wi_sessions::Sessions;

/// Scenarios, sessions with their pictures and pending cells, and who edited what.
#[derive(Drop)]
pub struct Desk {
    pub scenarios: Scenarios,
    pub sessions: Sessions,
    /// The place of the current session.
    pub current: usize,
    pub log: EditLog,
}

impl Desk {
    /// The place of the current session, as the log has it.
    pub(crate) fn session(&self) -> u32
        requires within { self.now.current < length self.now.sessions.sessions }
        requires few { length self.now.sessions.sessions ≤ max_sessions }
        ensures { result ≡ self.now.current }
    {
        self.current as u32
    }
}
