//! The state of a session, and what a step on it is given and makes.

ghost use Rattle.std.specs.Prelude.{IfOk, ◌≡◌};
ghost use Rattle.session_model.specs.Tables.{fresh};
ghost use Rattle.session_model.specs.Comings.{is_client_size};

use crate::clients::Clients;
use acl::{Acl, Act, Edition, UserId};
use command_lang::{Command, ParseFault};
use session_model::{Effect, Verdict};
use std::alloc::{AllocError, Global};
use windows::Windows;
use writelock::Locks;

/// Who gives a command: the user; the serial of their client, if they give it by keys; and the serial
/// of the window that the command would act on, if there is one.
#[derive(Clone, Copy, PartialEq, Eq, Debug)]
pub struct Caller {
    pub user: UserId,
    pub client: Option<u32>,
    pub window: Option<u32>,
}

/// What a session has at a moment: its lists, its locks, whether other users than the owner may be
/// there, the open windows, the attached clients, and the serials that come next.
pub struct State {
    pub alloc: Global,
    pub acl: Acl,
    pub locks: Locks,
    pub is_multiuser: bool,
    pub windows: Windows,
    pub clients: Clients,
    pub next_window: u64,
    pub next_client: u64,
}

impl Drop for State {
    fn drop(self) {
        let State {
            alloc: _,
            acl: _,
            locks: _,
            is_multiuser: _,
            windows: _,
            clients: _,
            next_window: _,
            next_client: _,
        } = self;
    }
}

impl State {
    ghost use Rattle.session_state.specs.Stands.{Stands};

    /// The state of a new session: single-user, without windows and clients.
    pub fn new(alloc: Global, owner: UserId, edition: Edition) -> Result<State, AllocError>
        ensures { IfOk result (Stands (fresh edition owner)) }
    {
        let acl = Acl::new(alloc, owner, edition)?;
        Ok(State {
            alloc,
            acl,
            locks: Locks::new(),
            is_multiuser: false,
            windows: Windows::new(alloc),
            clients: Clients::new(alloc),
            next_window: 0,
            next_client: 0,
        })
    }
}

/// Whether a client's terminal may have this size: 4 to 200 lines by 20 to 300 columns.
pub fn is_client_size(rows: u16, columns: u16) -> bool
    ensures { result ≡ is_client_size rows columns }
{
    4 <= rows && rows <= 200 && 20 <= columns && columns <= 300
}

/// The acts and the effects that a step has made up to now, in their order. Those of earlier steps may
/// stand before them.
#[derive(Drop)]
pub struct StepOutput {
    pub acts: Vec<Act>,
    pub effects: Vec<Effect>,
}

/// What a step has made up to now, and what it has checked. If the step is refused, what it has
/// checked stays.
#[derive(Drop)]
pub struct Step {
    pub made: StepOutput,
    pub verdicts: Vec<Verdict>,
}

/// Who gives commands by keys: the caller, and the client whose keys they are.
#[derive(Clone, Copy)]
pub struct KeyCaller {
    pub caller: Caller,
    pub client: u32,
}

/// A command that keys complete, or the fault of its line, and who gives it.
pub struct KeyOrder {
    pub by: KeyCaller,
    pub order: Result<Command, ParseFault>,
}

// Written out, so that letting an order go is one call, and not a case for each command.
impl Drop for KeyOrder {
    fn drop(self) {
        let KeyOrder { by: _, order: _ } = self;
    }
}
