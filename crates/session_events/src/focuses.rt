//! What the clients have in focus at a moment.

ghost use Rattle.std.specs.Prelude.{◌≡◌, ◌≤◌, [], ◌∷◌, ◌++◌, ◌<◌, length};
ghost use Rattle.session_model.specs.Tables.{Tables};
ghost use Rattle.session_model.specs.Sound.{AreSound};
ghost use Rattle.session_state.specs.Stands.{Stands};

use acl::UserId;
use session_state::{Client, State};
use std::marker::Model;

/// The most clients that a session has.
const MOST: usize = 64;

/// The user of a client, and the window in its focused region.
#[derive(Clone, Copy, PartialEq, Eq, Debug)]
pub struct Focus {
    pub user: UserId,
    pub window: Option<u32>,
}

/// What each client has in focus, in the order of the clients: at most 64. Contracts see them as a
/// list.
#[derive(Drop)]
pub struct Focuses {
    places: [Focus; MOST],
    count: usize,
}

impl Model for Focuses {
    ghost use Rattle.std.specs.Prelude.{List, ◌≤◌, ◌≡◌, length, take};
    ghost use Rattle.session_events.specs.declared.focuses.Focus.{Focus};

    ghost Value = { List Focus };

    ghost view = { λ f. take f.count f.places };

    ghost invariant = { λ f. (f.count ≤ 64) × (length f.places ≡ 64) };
}

impl Focuses {
    ghost use Rattle.session_events.specs.Leaving.{focuses_of};

    /// The focuses of no client.
    fn none(owner: UserId) -> Focuses
        ensures { result ≡ [] }
    {
        let blank = Focus {
            user: owner,
            window: None,
        };
        Focuses {
            places: [blank; MOST],
            count: 0,
        }
    }

    /// The focuses of a state's clients.
    pub fn of(state: &State) -> Focuses
        ensures { (t : Tables) → Stands t state.now → AreSound t
            → result ≡ focuses_of t.clients }
    {
        let mut focuses = Focuses::none(state.acl.owner());
        for client in state.clients.as_slice() {
            focuses.push(Focus {
                user: client.user,
                window: client.layout.focused().window,
            });
        }
        focuses
    }

    /// Adds a focus, if there is a place for it.
    fn push(&mut self, focus: Focus)
        ensures { length self.old < 64 → self.new ≡ self.old ++ focus ∷ [] }
    {
        if self.count < MOST {
            self.places[self.count] = focus;
            self.count += 1;
        }
    }

    /// The focuses in their order.
    pub fn as_slice(&self) -> &[Focus]
        ensures focuses { result.now ≡ self.now }
        ensures few { length result.now ≤ 64 }
    {
        &self.places[..self.count]
    }
}
