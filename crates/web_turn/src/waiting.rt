//! What a bridge waits by, and for whom.

ghost use Rattle.std.specs.Prelude.{◌≡◌, ◌<◌, length, IfErr, OnOk};
ghost use Rattle.web_turn.specs.Waking.{IsDeaf, WakesAll, WakesAt};

use mio::{Events, Poll, Registry, Token};
use std::io;
use std::io::ErrorKind;
use std::time::{Clock, Duration};
use web_streams::{WebListener, listener_token};

/// What a bridge waits by. Each relation is shown by a call of its function alone.
pub trait Waits {
    ghost use Rattle.std.specs.Prelude.{◌≡◌, ⊤, ℕ, List, Option, Result};
    ghost use Rattle.std.specs.declared.io.Error.{Error};
    ghost use Rattle.std.specs.declared.time.Duration.{Duration as Span};
    ghost use Rattle.mio.specs.Events.{items};
    ghost use Rattle.mio.specs.declared.event.event.Event.{Event};
    ghost use Rattle.web_streams.specs.declared.connections.WebListener.{WebListener as Door};

    // A listener, the token that its events are to have, and whether the system watches it.
    ghost wakes: { Self → Door → ℕ → Result ⊤ Error → Type 0 };

    // How long a wait was to last at most, the time after it, or none if it was interrupted, and the events.
    ghost waits: { Self → Span → Result (Option Span) Error → List Event → Self → Type 0 };

    fn registry(&self) -> &Registry;

    /// Waits for connections.
    fn watch(&self, listener: &mut WebListener, token: Token) -> io::Result<()>
        ensures same { listener.new ≡ listener.old }
        ensures wakes { wakes self.now listener.old token.0 result };

    /// Waits until something comes, and at most this long. Returns the time; none if it was interrupted.
    fn wait<R: Clock>(
        &mut self,
        rt: &R,
        events: &mut Events,
        longest: Duration,
    ) -> io::Result<Option<Duration>>
        ensures { waits self.old longest result (items events.new) self.new };
}

impl Waits for Poll {
    ghost wakes = { λ poll listener token watched. Unit {0} };

    ghost waits = { λ poll longest now events left. Unit {0} };

    fn registry(&self) -> &Registry {
        self.registry()
    }

    fn watch(&self, listener: &mut WebListener, token: Token) -> io::Result<()> {
        listener.register(self.registry(), token)
    }

    fn wait<R: Clock>(
        &mut self,
        rt: &R,
        events: &mut Events,
        longest: Duration,
    ) -> io::Result<Option<Duration>> {
        match self.poll(events, Some(longest)) {
            Ok(()) => Ok(Some(rt.monotonic()?)),
            Err(error) if error.kind() == ErrorKind::Interrupted => Ok(None),
            Err(error) => Err(error),
        }
    }
}

// Waits for connections at the listener of this number.
fn watch_at<P: Waits>(poll: &P, listeners: &mut [WebListener], number: usize) -> io::Result<()>
    requires { number < length listeners.old }
    ensures same { listeners.new ≡ listeners.old }
    ensures wakes { WakesAt (P.wakes poll.now) listeners.old number result }
{
    poll.watch(&mut listeners[number], listener_token(number))
}

/// Waits for connections at all listeners.
pub fn watch_all<P: Waits>(poll: &P, listeners: &mut [WebListener]) -> io::Result<()>
    ensures same { listeners.new ≡ listeners.old }
    ensures ok { OnOk result (WakesAll (P.wakes poll.now) listeners.old) }
    ensures err { IfErr result (IsDeaf (P.wakes poll.now) listeners.old) }
{
    'listeners: for number in 0..listeners.len() {
        watch_at(poll, listeners, number)?;
    }
    Ok(())
}
