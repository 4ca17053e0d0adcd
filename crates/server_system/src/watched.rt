//! The users' file while a server runs.

ghost use Rattle.std.specs.Prelude.{◌≡◌, IfSome, None, Some, false, true};
ghost use Rattle.server_system.specs.Looking.{LooksAt};
ghost use Rattle.server_system.specs.Types.{Found, News};

use crate::looks::{BegunLook, KnownUsers, LogsNews, Looks, SharedLooks};
use crate::users_file::{LastLook, UsersSource};
use acl::UserId;
use std::alloc::Global;
use std::sync::{Condvar, Mutex, Wait};
use std::time::Clock;

/// The users' file. When somebody connects, a separate thread looks at it, so that no loop waits for the file's disk.
#[derive(Drop)]
pub struct WatchedUsers<F, L = Looks> {
    alloc: Global,
    file: F,
    owner: UserId,
    looks: Mutex<L>,
    asked: Condvar,
}

impl<F: UsersSource> WatchedUsers<F> {
    /// A file that was read once. Its owner is the session's.
    pub fn new(alloc: Global, file: F, owner: UserId) -> WatchedUsers<F>
        ensures file { result.file ≡ file }
        ensures owner { result.owner ≡ owner }
    {
        WatchedUsers {
            alloc,
            file,
            owner,
            looks: Mutex::new(Looks::default()),
            asked: Condvar::new(),
        }
    }
}

impl<F: UsersSource, L: SharedLooks> WatchedUsers<F, L> {
    /// Asks for a look that begins after this call, and gives its number.
    pub fn ask(&self, rt: &impl Wait) -> u64
        ensures { (was : L) × (then : L) × L.asks was result then }
    {
        let look = self.looks.lock(rt).ask();
        self.asked.notify_one();
        look
    }

    /// Nobody waits for a look any more.
    pub fn stop(&self, rt: &impl Wait)
        ensures { (was : L) × (then : L) × L.stops was then }
    {
        self.looks.lock(rt).stop();
        self.asked.notify_one();
    }

    // Waits until a look is asked for, and begins it; None once nobody waits any more.
    fn begin(&self, rt: &impl Wait) -> Option<BegunLook>
        ensures { (was : L) × L.idles was false × (then : L) × L.begins was result then }
    {
        let looks = self.looks.lock(rt);
        self.asked.wait_while(rt, looks, |it| it.is_idle()).begin()
    }

    /// Looks at the file as soon as somebody asks for it. The answer is false once nobody waits any more.
    pub fn look<R: Clock + Wait>(&self, rt: &R, seen: &mut LastLook) -> bool
        ensures over { result ≡ false → (was : L) × (then : L) × L.begins was None then }
        // Exactly the look that was begun ends, with what the file brought after that.
        ensures looks { result ≡ true → (it : Found) × ((was : L) × (then : L) × L.begins was (Some it.look) then)
            × LooksAt F.finds F.reads self.now.file seen.old it.found seen.new
            × (was : L) × (then : L) × L.ends self.now.owner it was then }
    {
        let Some(look) = self.begin(rt) else {
            return false;
        };
        let found = look.find(rt, &self.file, seen);
        self.looks.lock(rt).end(self.owner, found);
        true
    }

    /// What is known now, for a loop that has the users of this count. None without memory for a copy of the users.
    pub fn newest<R: Clock + Wait, N: LogsNews>(
        &self,
        rt: &R,
        log: &N,
        count: &mut u64,
    ) -> Option<KnownUsers>
        ensures tells { (looks : L) × L.tells looks count.old result }
        ensures logs { (was : L) × (news : News) × (then : L) × L.takes was news then
            × N.logs log.now (F.lies self.now.file) news }
        ensures count { IfSome result (λ known. count.new ≡ known.count) }
        ensures same { result ≡ None → count.new ≡ count.old }
    {
        let mut looks = self.looks.lock(rt);
        log.log(rt, self.file.path(), looks.take_news());
        let known = looks.newest(self.alloc, *count)?;
        *count = known.count;
        Some(known)
    }
}
