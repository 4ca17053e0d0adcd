//! Which page a browser is shown: of a hall if it watches, and else of its own client.

ghost use Rattle.std.specs.Prelude.{◌≡◌, Some, None};
ghost use Rattle.slab.specs.Slab.{with_value};
ghost use Rattle.web_client.specs.Asking.{IsWatcher};
ghost use Rattle.web_relay.specs.Halls.{hall_of, opening};
ghost use Rattle.web_relay.specs.Relaying.{LosesPage};
ghost use Rattle.web_relay.specs.Seeing.{MissesHall, Seats, ShowsHall, ShowsPage, SitsIn, Watches};

use crate::hall::Hall;
use crate::halls::{HallNumber, Halls};
use crate::relay::{NO_SERVER, Relay};
use crate::upstream::ENDED;
use std::net::Net;
use web_client::Identity;
use web_streams::{BridgeContext, BridgeStream};

impl<S: Drop> Hall<S> {
    // Shows its page to a browser that watches.
    fn show(&mut self, relay: &mut Relay<S>)
        requires { IsWatcher relay.old.visitor.identity }
        ensures { ShowsHall self.old self.new relay.old relay.new }
    {
        self.audience = self.audience.saturating_add(1);
        match relay.visitor.show_shared(&mut self.client) {
            Ok(()) => {}
            Err(_) => relay.is_over = true,
        }
    }
}

// Tells a browser that there is no hall for it, if none was found.
fn miss<S: Drop>(found: Option<HallNumber>, relay: &mut Relay<S>)
    ensures { MissesHall found relay.old relay.new }
{
    if found.is_none() {
        relay.lose(NO_SERVER);
    }
}

// Seats a browser in the hall that was found for it. Returns whether it has just begun to watch.
fn sit<S: Drop>(found: Option<HallNumber>, relay: &mut Relay<S>) -> bool
    ensures { SitsIn found relay.old result relay.new }
{
    miss(found, relay);
    let had = relay.hall;
    if found == had {
        return false;
    }
    relay.visitor.change_page();
    relay.hall = found;
    had.is_none()
}

impl<S: BridgeStream + Drop> Halls<S> {
    /// Seats an open page that watches in the hall of its size. Of the page of another hall it was sent nothing.
    /// Returns whether it has just begun to watch.
    pub fn seat<R: Net>(&mut self, rt: &R, around: BridgeContext<'_>, relay: &mut Relay<S>) -> bool
        ensures { Seats S.reaches (opening around.entry) self.old relay.old result self.new relay.new }
    {
        let Identity::Watching(rows, columns) = *relay.visitor.identity() else {
            return false;
        };
        if !relay.visitor.is_open() {
            return false;
        }
        let found = self.enter(rt, around, (rows, columns));
        sit(found, relay)
    }
}

impl<S: Drop> Halls<S> {
    // Shows a browser that watches the page of its hall.
    fn show_hall(&mut self, number: HallNumber, relay: &mut Relay<S>)
        requires { IsWatcher relay.old.visitor.identity }
        ensures none { hall_of self.old.list number ≡ None
            → (self.new ≡ self.old) × LosesPage ENDED.now relay.old relay.new }
        ensures hall { (hall : Hall S) → hall_of self.old.list number ≡ Some hall → (after : Hall S)
            × (self.new ≡ record self.old { list = with_value self.old.list number.place after })
            × Watches hall after relay.old relay.new }
    {
        match self.list.get_mut(number.place) {
            Some(hall) if hall.serial == number.serial => {
                hall.show(relay);
                if hall.is_lost {
                    relay.lose(ENDED);
                }
            }
            _ => relay.lose(ENDED),
        }
    }

    /// Shows a browser its page: of its hall if it watches, and else of its own client. No other page is shown to it.
    pub fn show(&mut self, relay: &mut Relay<S>)
        ensures { ShowsPage self.old relay.old self.new relay.new }
    {
        if !relay.visitor.is_watcher() {
            return relay.show_own();
        }
        match relay.hall {
            Some(number) => self.show_hall(number, relay),
            None => relay.lose(ENDED),
        }
    }
}
