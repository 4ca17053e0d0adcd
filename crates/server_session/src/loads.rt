//! What was typed into the windows.

ghost use Rattle.std.specs.Prelude.{◌≡◌, ◌↔◌, ℕ, IsTrue, OnOk, OnErr, Some, None, option_map};
ghost use Rattle.server_session.specs.Loading.{IsFull, SameBut, looked_at, typed_into, with_typed};

use std::alloc::{AllocError, Global};
use std::collections::BTreeMap;

// If more bytes than these were typed into a window since its loop looked at what waits for it, what is
// typed next has to wait.
const MOST: usize = 262_144;

// What a step adds to the bytes that it types, for the head of its frame and the note who typed it.
const HEAD: usize = 64;

/// How many bytes were typed into each open window since its loop looked at what waits for it. If the loop
/// saw that much waits, the number is the greatest. Nothing of a window that is gone stays.
#[derive(Drop)]
pub struct Loads {
    typed: BTreeMap<u32, usize>,
}

impl Loads {
    /// No window is open.
    pub fn new(alloc: Global) -> Loads
        ensures { (window : ℕ) → typed_into result window ≡ None }
    {
        Loads {
            typed: BTreeMap::new(alloc),
        }
    }

    /// A window opened. Without memory nothing is counted for it.
    pub fn open(&mut self, window: u32) -> Result<(), AllocError>
        ensures own { OnOk result (typed_into self.new window ≡ Some 0) }
        ensures err { OnErr result (typed_into self.new window ≡ typed_into self.old window) }
        ensures others { SameBut window self.old self.new }
    {
        self.typed.insert(window, 0)?;
        Ok(())
    }

    /// A window is gone.
    pub fn close(&mut self, window: u32)
        ensures own { typed_into self.new window ≡ None }
        ensures others { SameBut window self.old self.new }
    {
        let _ = self.typed.remove(&window);
    }

    /// Counts bytes that a step typed into a window.
    pub fn add(&mut self, window: u32, bytes: usize)
        ensures own { typed_into self.new window
            ≡ option_map (with_typed bytes) (typed_into self.old window) }
        ensures others { SameBut window self.old self.new }
    {
        if let Some(typed) = self.typed.get(&window) {
            let typed = typed.saturating_add(bytes.saturating_add(HEAD));
            let _ = self.typed.insert(window, typed);
        }
    }

    /// A window's loop looked at what waits for it: whether that is much.
    pub fn set(&mut self, window: u32, is_full: bool)
        ensures own { typed_into self.new window
            ≡ option_map (looked_at is_full) (typed_into self.old window) }
        ensures others { SameBut window self.old self.new }
    {
        if self.typed.contains_key(&window) {
            let typed = if is_full { usize::MAX } else { 0 };
            let _ = self.typed.insert(window, typed);
        }
    }

    /// Whether what is typed into a window has to wait.
    pub fn is_full(&self, window: u32) -> bool
        ensures { IsTrue result ↔ IsFull (typed_into self.now window) }
    {
        self.typed.get(&window).is_some_and(|typed| *typed > MOST)
    }
}
