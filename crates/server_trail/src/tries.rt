//! How often a write is tried that a trail's file refuses. Only what stands here says that no more are tried.

ghost use Rattle.std.specs.Prelude.{◌≡◌, ◌+◌, ◌&&◌, true, false, is_some, nat_le};

use crate::waiting::Ready;
use trail_disk::{LAST_TRIES, Refused};

/// Shows that a file refused a write after all loops had ended, and as many before it as are tried then.
#[derive(Clone, Copy, Debug)]
pub struct GaveUp(());

/// The writes of a text that its file refused.
#[derive(Drop)]
pub struct Tries {
    // How many it refused after all loops had ended.
    last: u32,
}

impl Tries {
    /// None was refused yet.
    pub fn new() -> Tries
        ensures { result.last ≡ 0 }
    {
        Tries { last: 0 }
    }

    /// Counts a refused write, after which this was there for the writer. If it was the last try, the answer
    /// shows that no more are.
    pub fn count(&mut self, _refused: Refused, ready: Ready) -> Option<GaveUp>
        ensures gives_up { is_some result ≡ (ready.is_over && nat_le 5 self.old.last) }
        ensures counts { is_some result ≡ false → ready.is_over ≡ true → self.new.last ≡ self.old.last + 1 }
        ensures waits { ready.is_over ≡ false → self.new ≡ self.old }
    {
        if !ready.is_over() {
            return None;
        }
        if self.last >= LAST_TRIES {
            return Some(GaveUp(()));
        }
        self.last += 1;
        None
    }
}
