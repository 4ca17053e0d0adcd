ghost use Rattle.std.specs.Prelude.{◌≡◌};
ghost use Rattle.acl_words.specs.Slots.{is_window, without_window};
ghost use Rattle.acl_words.specs.declared.slots.TheConstants.{WINDOWS};

/// The most users that may be known, the owner included.
pub const USERS: usize = 64;

/// The most windows that may be open at once.
pub const WINDOWS: usize = 40;

/// The open windows, each in one of the slots 0 to 39.
#[derive(Clone, Copy, PartialEq, Eq, Debug)]
pub struct Slots {
    serials: [Option<u32>; WINDOWS],
}

/// Whether the slot has the window.
fn is_window(slot: Option<u32>, window: u32) -> bool
    ensures { result ≡ is_window window slot }
{
    match slot {
        Some(other) => other == window,
        None => false,
    }
}

/// A slot's content after the window is closed.
fn without_window(slot: Option<u32>, window: u32) -> Option<u32>
    ensures { result ≡ without_window window slot }
{
    if is_window(slot, window) { None } else { slot }
}

impl Slots {
    ghost use Rattle.std.specs.Prelude.{◌≡◌, ◌<◌, IfSome, None, Some, map, replicate, slice_set};
    ghost use Rattle.std.specs.Prelude.{slice_index_or};
    ghost use Rattle.acl_words.specs.Slots.{slot_of, free_slot, without_window};

    /// Slots with no window open.
    pub fn new() -> Slots
        ensures { result ≡ record { serials = replicate WINDOWS None } }
    {
        Slots {
            serials: [None; WINDOWS],
        }
    }

    /// The slot of an open window; `None` if the window isn't open.
    pub fn slot_of(&self, window: u32) -> Option<usize>
        ensures slot { result ≡ slot_of self.now.serials window }
        ensures within { IfSome result (λ slot. slot < WINDOWS) }
    {
        self.serials
            .iter()
            .position(|slot| is_window(*slot, window))
    }

    /// The first free slot; `None` if all are filled.
    pub fn free_slot(&self) -> Option<usize>
        ensures slot { result ≡ free_slot self.now.serials }
        ensures within { IfSome result (λ slot. slot < WINDOWS) }
    {
        self.serials.iter().position(|slot| slot.is_none())
    }

    /// The serial number of the window in a slot; `None` if the slot is free.
    pub fn serial_at(&self, slot: usize) -> Option<u32>
        requires { slot < WINDOWS }
        ensures { result ≡ slice_index_or self.now.serials slot None }
    {
        self.serials[slot]
    }

    /// Puts an open window into a slot, in place of what the slot held.
    pub fn put(&mut self, slot: usize, window: u32)
        requires { slot < WINDOWS }
        ensures { self.new.serials ≡ slice_set self.old.serials slot (Some window) }
    {
        self.serials[slot] = Some(window);
    }

    /// Frees the slot of a window; does nothing if the window isn't open.
    pub fn close(&mut self, window: u32)
        ensures { self.new.serials ≡ map (without_window window) self.old.serials }
    {
        for i in 0..self.serials.len() {
            self.serials[i] = without_window(self.serials[i], window);
        }
    }
}
