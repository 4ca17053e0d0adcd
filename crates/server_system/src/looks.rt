//! Looks at the users' file: one is begun, then finds what the file brings, and ends with that.

ghost use Rattle.std.specs.Prelude.{◌≡◌, ◌&&◌, Err, None, Some, if◌then◌else◌, nat_le, not, true};
ghost use Rattle.server_system.specs.Looking.{Asks, Ends, LooksAt, TellsOf, later};
ghost use Rattle.server_system.specs.declared.fault.UsersFileFault.TheVariants.{NoMemory};

use crate::fault::UsersFileFault;
use crate::log::Log;
use crate::users_file::{LastLook, UsersSource, look_at};
use acl::UserId;
use server_users::Users;
use std::alloc::Global;
use std::sync::Wait;
use std::thread;
use std::time::{Clock, Duration};

// If there is no memory, the file is looked at again after this number of milliseconds.
const PAUSE: u64 = 20;

/// What a look found.
#[derive(Drop)]
pub enum UsersNews {
    Anew,
    OtherOwner,
    Faulty(UsersFileFault),
}

/// What the last look found, if that is news. Only `take_news` makes one, and it isn't dropped: it has to be logged.
pub struct TakenNews(Option<UsersNews>);

/// Where news of the users' file are logged. Only a call shows that they were.
pub trait LogsNews {
    ghost use Rattle.std.specs.Prelude.{ℕ, List};
    ghost use Rattle.server_system.specs.Types.{News};

    // The path of the users' file, and its news.
    ghost logs: { Self → List ℕ → News → Type 0 };

    fn log<R: Clock + Wait>(&self, rt: &R, path: &str, news: TakenNews)
        ensures { logs self.now path.now news };
}

impl LogsNews for Log {
    ghost logs = { λ log path news. Unit {0} };

    fn log<R: Clock + Wait>(&self, rt: &R, path: &str, news: TakenNews) {
        let (TakenNews(news), kept) = (news, "who may connect stays as it was");
        let what = match news {
            None => return,
            Some(UsersNews::Faulty(fault)) => return self.put(rt, &format_args!("{fault}: {kept}")),
            Some(UsersNews::Anew) => "was read again",
            Some(UsersNews::OtherOwner) => "has another owner: who may connect stays as it was",
        };
        self.put(rt, &format_args!("users' file {path} {what}"));
    }
}

/// A look that was begun. Only a call of `begin` makes one, and it isn't dropped: it has to end.
pub struct BegunLook(u64);

/// A look that was begun, and what it found after that. Only a call of `find` makes one.
pub struct FoundLook {
    look: BegunLook,
    found: Option<Result<Users, UsersFileFault>>,
}

impl BegunLook {
    /// Looks at the file, again and again as long as memory is refused.
    pub fn find<F: UsersSource, R: Clock + Wait>(
        self,
        rt: &R,
        file: &F,
        seen: &mut LastLook,
    ) -> FoundLook
        ensures look { result.look ≡ self }
        ensures found { LooksAt F.finds F.reads file.now seen.old result.found seen.new }
        ensures memory { result.found ≡ Some (Err NoMemory) → ⊥ }
    {
        'looks: for _ in rt.forever() {
            let found = look_at(file, seen);
            if !matches!(&found, Some(Err(UsersFileFault::NoMemory))) {
                return FoundLook { look: self, found };
            }
            thread::sleep(rt, Duration::from_millis(PAUSE));
        }
        unreachable!()
    }
}

/// What is known of looks at a users' file, under a lock. Each relation is shown by a call of its function alone.
pub trait SharedLooks {
    ghost use Rattle.std.specs.Prelude.{ℕ, Bool, Option};
    ghost use Rattle.server_system.specs.Types.{Begun, Found, Known, News, User};

    // The number of the look that was asked for.
    ghost asks: { Self → ℕ → Self → Type 0 };
    // The look that begins, if somebody may still ask for one.
    ghost begins: { Self → Option Begun → Self → Type 0 };

    ghost idles: { Self → Bool → Type 0 };
    // The owner of the session, and the look that ends.
    ghost ends: { User → Found → Self → Self → Type 0 };
    // The count of the users that a loop has, and what it learns.
    ghost tells: { Self → ℕ → Option Known → Type 0 };

    ghost takes: { Self → News → Self → Type 0 };

    ghost stops: { Self → Self → Type 0 };

    fn ask(&mut self) -> u64
        ensures { asks self.old result self.new };

    fn begin(&mut self) -> Option<BegunLook>
        ensures { begins self.old result self.new };

    fn end(&mut self, owner: UserId, found: FoundLook)
        ensures { ends owner found self.old self.new };

    fn newest(&self, alloc: Global, count: u64) -> Option<KnownUsers>
        ensures { tells self.now count result };

    // Takes what the last look found, unless that was taken.
    fn take_news(&mut self) -> TakenNews
        ensures { takes self.old result self.new };

    // Whether no look is to begin: none is asked for that wasn't begun, and somebody may still ask.
    fn is_idle(&self) -> bool
        ensures { idles self.now result };

    // Nobody waits for a look any more.
    fn stop(&mut self)
        ensures { stops self.old self.new };
}

// The looks at the file, counted from 1. None was asked for at first.
#[derive(Default, Drop)]
pub struct Looks {
    // The last look that somebody waits for.
    wanted: u64,
    begun: u64,
    done: u64,
    // How many sound files were read after the first one, and the users of the last of them.
    count: u64,
    users: Option<Users>,
    news: Option<UsersNews>,
    is_over: bool,
}

impl SharedLooks for Looks {
    ghost asks = { Asks };

    ghost begins = { λ old look new. (new ≡ record old { begun = later old.begun })
        × (look ≡ (if old.is_over then None else Some (record { 0 = new.begun }))) };

    ghost idles = { λ looks is_idle. is_idle ≡ (not looks.is_over && nat_le looks.wanted looks.begun) };

    ghost ends = { Ends };

    ghost tells = { TellsOf };

    ghost takes = { λ old news new. (news.0 ≡ old.news) × (new ≡ record old { news = None }) };

    ghost stops = { λ old new. new ≡ record old { is_over = true } };

    fn ask(&mut self) -> u64 {
        self.wanted = self.begun.saturating_add(1);
        self.wanted
    }

    fn begin(&mut self) -> Option<BegunLook> {
        self.begun = self.begun.saturating_add(1);
        if self.is_over {
            return None;
        }
        Some(BegunLook(self.begun))
    }

    fn end(&mut self, owner: UserId, found: FoundLook) {
        let FoundLook { look, found } = found;
        let BegunLook(number) = look;
        self.done = number;
        match found {
            Some(Ok(users)) if users.owner() == owner => {
                self.users = Some(users);
                self.count = self.count.saturating_add(1);
                self.news = Some(UsersNews::Anew);
            }
            Some(Ok(_)) => self.news = Some(UsersNews::OtherOwner),
            Some(Err(fault)) => self.news = Some(UsersNews::Faulty(fault)),
            None => {}
        }
    }

    fn newest(&self, alloc: Global, count: u64) -> Option<KnownUsers> {
        let mut users = None;
        if self.count != count {
            users = Some(self.users.as_ref()?.copy(alloc).ok()?);
        }
        Some(KnownUsers {
            look: self.done,
            count: self.count,
            users,
        })
    }

    fn take_news(&mut self) -> TakenNews {
        TakenNews(self.news.take())
    }

    fn is_idle(&self) -> bool {
        !self.is_over && self.wanted <= self.begun
    }

    fn stop(&mut self) {
        self.is_over = true;
    }
}

/// What a loop learns of who may connect.
#[derive(Drop)]
pub struct KnownUsers {
    /// The last look that is done.
    pub look: u64,
    /// How many sound files were read after the first one.
    pub count: u64,
    /// The users, if the loop has others.
    pub users: Option<Users>,
}
