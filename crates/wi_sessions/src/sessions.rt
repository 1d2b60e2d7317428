//! All sessions.

ghost use Rattle.std.specs.Prelude.{◌≡◌, ◌≢◌, ◌<◌, ◌||◌, ◌&&◌, ◌++◌, ◌∷◌, ℕ, List, not, length, true, false, is_ok, [], IfOk, IfSome, OnOk, OnErr, string_bytes};
ghost use Rattle.std.specs.Option.{is_some, option_map};
ghost use Rattle.std.specs.List.{slice_set};
ghost use Rattle.std.specs.Map.{lookup};
ghost use Rattle.std.specs.Rc.{rc_str_bytes};
ghost use Rattle.std.specs.Str.{bytes_eq};
ghost use Rattle.wi_sessions.specs.Pictures.{sheet_size};
ghost use Rattle.wi_values.specs.Address.{is_one_of};
ghost use Rattle.wi_sessions.specs.Pictures.Laws.{Rises};
ghost use Rattle.wi_sessions.specs.Sessions.{new_session, told, using_scenario, has_session, index_of};
ghost use Rattle.wi_sessions.specs.Roster.{session_at, pending_of, vacant_of, is_pending_for_all, SameCells};
ghost use Rattle.wi_sessions.specs.Inner.Details.{with_name};

use crate::details::Details;
use crate::pending::Pending;
use crate::picture::{Change, Picture};
use indexmap::IndexMap;
use std::alloc::{AllocError, Global};
use std::marker::Model;
use std::rc::RcStr;
use wi_values::Address;

/// How many sessions there may be; this limit is the caller's to keep.
pub const MAX_SESSIONS: usize = 64;

/// What sessions hold beside their names, by these names.
type SessionMap = IndexMap<RcStr, Details>;

/// Sessions in order of making. A session is named by its index in that order, which never changes.
#[derive(Drop)]
pub struct Sessions {
    details: SessionMap,
    pending: Pending,
    alloc: Global,
}

impl Model for Sessions {
    ghost use Rattle.wi_sessions.specs.Roster.{Roster};
    ghost use Rattle.std.specs.Coded.{codes};
    ghost use Rattle.wi_values.specs.contracts.value.Value as value;
    ghost use Rattle.std.specs.Prelude.{◌≡◌, length};
    ghost use Rattle.wi_sessions.specs.Inner.Details.{roster_in};

    ghost Value = { Roster };

    ghost coded = { Prim.hlevel (codes, value.the_row.coded) };

    ghost view = { λ s. roster_in s.details.entries s.pending };

    ghost invariant = { λ s. length s.pending.pending ≡ length s.details.entries };
}

impl Sessions {
    /// One session, which uses the sheet as it stands and was shown nothing; these cells, the occupied ones, are
    /// pending.
    pub fn new(alloc: Global, name: &str, cells: &[Address]) -> Result<Sessions, AllocError>
        ensures sessions { IfOk result (λ s. s.sessions ≡ new_session name.now ∷ []) }
        ensures pending { IfOk result (λ s. SameCells (pending_of s 0) cells.now) }
        ensures vacant { IfOk result (λ s. (i : ℕ) → vacant_of s i ≡ []) }
    {
        let details = IndexMap::new(alloc);
        let pending = Pending::new(alloc);
        let mut sessions = Sessions {
            details,
            pending,
            alloc,
        };
        sessions.push(name, cells)?;
        Ok(sessions)
    }

    /// Adds a session at the end, as `new` makes one. On an error all is as before. It is an error too where a session
    /// of this name is there already, as `find` tells, and where there are 64. For each cell it costs what `make_room`
    /// does: two look-ups in a map, and putting it in where it is pending for no session.
    pub fn push(&mut self, name: &str, cells: &[Address]) -> Result<(), AllocError>
        ensures sessions { OnOk result (self.new.sessions
            ≡ self.old.sessions ++ new_session name.now ∷ []) }
        ensures pending { OnOk result ((new : List ℕ)
            × (self.new.pending ≡ self.old.pending ++ new ∷ []) × SameCells new cells.now) }
        ensures vacant { OnOk result ((i : ℕ) → vacant_of self.new i ≡ vacant_of self.old i) }
        ensures refused { OnErr result (self.new ≡ self.old) }
    {
        if self.details.contains_key(name) {
            return Err(AllocError);
        }
        let name = RcStr::from_str(self.alloc, name)?;
        add(&mut self.details, name, Details::new(self.alloc))?;
        match self.pending.push(cells) {
            Ok(()) => Ok(()),
            Err(error) => {
                let _ = self.details.pop();
                Err(error)
            }
        }
    }

    /// How many sessions there are.
    pub fn len(&self) -> usize
        ensures { result ≡ length self.now.sessions }
    {
        self.details.len()
    }

    /// The index of the session of this name, if there is one. One look-up in a map, however many sessions there are.
    pub fn find(&self, name: &str) -> Option<usize>
        ensures found { is_some result ≡ has_session self.now.sessions name.now }
        ensures place { IfSome result (λ i. i ≡ index_of self.now.sessions name.now) }
        ensures within { IfSome result (λ i. i < length self.now.sessions) }
    {
        self.details.get_index_of(name)
    }

    /// The name of a session.
    pub fn name(&self, i: usize) -> &str
        requires { i < length self.now.sessions }
        ensures { result.now ≡ (session_at self.now i).name }
    {
        let (name, _) = self.details.get_index(i).unwrap();
        name.as_str()
    }

    /// The name of the scenario that a session uses; none for the sheet as it stands.
    pub fn scenario(&self, i: usize) -> Option<&str>
        requires { i < length self.now.sessions }
        ensures { option_map (λ s. s.now) result ≡ (session_at self.now i).scenario }
    {
        match &self.at(i).scenario {
            Some(name) => Some(name.as_str()),
            None => None,
        }
    }

    /// What a session was last shown.
    pub fn picture(&self, i: usize) -> &Picture
        requires { i < length self.now.sessions }
        ensures { result.now ≡ (session_at self.now i).picture }
    {
        &self.at(i).picture
    }

    /// How long the log was when a session was last shown what has changed; 0 before.
    pub fn seen(&self, i: usize) -> u64
        requires { i < length self.now.sessions }
        ensures { result ≡ (session_at self.now i).seen }
    {
        self.at(i).seen
    }

    /// The cells that are pending for a session, in row-major order. One look-up for each cell that was marked since it
    /// was last told, and a sort where several edits marked them; or linear in the cells that are pending for any
    /// session, where these are no more.
    pub fn pending_cells(&self, i: usize) -> Result<Vec<Address>, AllocError>
        requires { i < length self.now.sessions }
        ensures list { IfOk result (λ found. found.items ≡ pending_of self.now i) }
        ensures order { OnOk result (Rises 0 sheet_size (pending_of self.now i)) }

        // No memory is taken where there is no cell, neither pending nor with room only.
        ensures none { pending_of self.now i ≡ [] → vacant_of self.now i ≡ []
            → is_ok result ≡ true }
    {
        self.pending.cells(i)
    }

    /// Whether a cell is pending for each session. One look-up.
    pub fn all_have(&self, at: Address) -> bool
        ensures { result ≡ is_pending_for_all self.now at }
    {
        self.pending.all_have(at)
    }

    /// A session uses a scenario of this name, or the sheet as it stands. Takes no memory.
    pub fn use_scenario(&mut self, i: usize, scenario: Option<String>)
        requires { i < length self.old.sessions }
        ensures sessions { self.new.sessions ≡ slice_set self.old.sessions i
            (using_scenario (session_at self.old i) (option_map string_bytes scenario)) }
        ensures pending { self.new.pending ≡ self.old.pending }
        ensures vacant { self.new.vacant ≡ self.old.vacant }
    {
        self.details[i].use_scenario(scenario);
    }

    /// Puts a change list into a session's picture, when the log has this length; no cell is pending for it then. On an
    /// error all is as before. It costs what `Picture::apply` does, some look-ups for each change, and what
    /// `pending_cells` does, with one look-up for each pending cell.
    pub fn tell(&mut self, i: usize, changes: Vec<Change>, seen: u64) -> Result<(), AllocError>
        requires { i < length self.old.sessions }
        ensures sessions { OnOk result (self.new.sessions
            ≡ slice_set self.old.sessions i (told (session_at self.old i) changes.items seen)) }
        ensures pending { OnOk result (self.new.pending ≡ slice_set self.old.pending i []) }
        ensures vacant { OnOk result (self.new.vacant ≡ slice_set self.old.vacant i []) }
        ensures refused { OnErr result (self.new ≡ self.old) }

        // No memory is taken where there is nothing to tell either.
        ensures none { pending_of self.old i ≡ [] → vacant_of self.old i ≡ []
            → changes.items ≡ [] → is_ok result ≡ true }
    {
        let all = self.pending.all(i)?;
        self.details[i].tell(changes, seen)?;
        self.pending.clear(i, &all);
        Ok(())
    }

    /// Makes room for each of the cells that isn't pending for a session; none is pending yet. On an error its vacant
    /// rooms go. The work for each cell is that of two look-ups in a map, and of putting it in where it is pending for
    /// no session.
    pub fn make_room(&mut self, i: usize, cells: &[Address]) -> Result<(), AllocError>
        requires { i < length self.old.sessions }
        ensures sessions { self.new.sessions ≡ self.old.sessions }
        ensures pending { self.new.pending ≡ self.old.pending }
        ensures room { OnOk result ((a : ℕ) → is_one_of (vacant_of self.new i) a
            ≡ (is_one_of (vacant_of self.old i) a
            || (is_one_of cells.now a && not (is_one_of (pending_of self.old i) a)))) }
        ensures refused { OnErr result (vacant_of self.new i ≡ []) }
        ensures others { (j : ℕ) → j ≢ i → vacant_of self.new j ≡ vacant_of self.old j }
    {
        self.pending.make_room(i, cells)
    }

    /// Makes room, for each session, for each of the cells that isn't pending for it, in one walk through the cells;
    /// none is pending yet. On an error the vacant rooms of all go. For each cell it costs what `make_room` does, two
    /// look-ups in a map and putting it in, however many sessions there are.
    pub fn make_room_all(&mut self, cells: &[Address]) -> Result<(), AllocError>
        ensures sessions { self.new.sessions ≡ self.old.sessions }
        ensures pending { self.new.pending ≡ self.old.pending }
        ensures room { OnOk result ((i a : ℕ) → i < length self.old.sessions
            → is_one_of (vacant_of self.new i) a
            ≡ (is_one_of (vacant_of self.old i) a
            || (is_one_of cells.now a && not (is_one_of (pending_of self.old i) a)))) }
        ensures refused { OnErr result ((j : ℕ) → vacant_of self.new j ≡ []) }
    {
        self.pending.make_room_all(cells)
    }

    /// The cells for which there is room are pending now, for each session. Takes no memory, and no search.
    pub fn commit_all(&mut self)
        ensures sessions { self.new.sessions ≡ self.old.sessions }
        ensures lists { length self.new.pending ≡ length self.old.pending }
        ensures pending { (i a : ℕ) → is_one_of (pending_of self.new i) a
            ≡ (is_one_of (pending_of self.old i) a || is_one_of (vacant_of self.old i) a) }
        ensures vacant { (i : ℕ) → vacant_of self.new i ≡ [] }
    {
        self.pending.commit();
    }

    /// The vacant rooms of all sessions go. Takes no memory. The work for each is that of two look-ups.
    pub fn cancel_all(&mut self)
        ensures sessions { self.new.sessions ≡ self.old.sessions }
        ensures pending { self.new.pending ≡ self.old.pending }
        ensures vacant { (i : ℕ) → vacant_of self.new i ≡ [] }
    {
        self.pending.cancel();
    }

    /// Each session has its pending cells. This is a law: the call does nothing.
    pub fn each_has_pending_cells(&self)
        ensures { length self.now.pending ≡ length self.now.sessions }
    {
        let _ = &self.details;
    }

    /// What a session holds beside its name.
    fn at(&self, i: usize) -> &Details
        requires { i < length self.now.sessions }
        ensures { with_name (session_at self.now i).name result.now ≡ session_at self.now i }
    {
        &self.details[i]
    }
}

/// Adds a session at the end, under a name that none has. If memory runs out, all is as before.
fn add(sessions: &mut SessionMap, name: RcStr, details: Details) -> Result<(), AllocError>
    requires { is_some
        (lookup (λ k. bytes_eq (rc_str_bytes name) (rc_str_bytes k)) sessions.old.entries) ≡ false }
    ensures added { OnOk result (sessions.new.entries
        ≡ sessions.old.entries ++ (name, details) ∷ []) }
    ensures refused { OnErr result (sessions.new.entries ≡ sessions.old.entries) }
{
    sessions.insert(name, details)?;
    Ok(())
}
