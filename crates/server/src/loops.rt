//! A server: its socket, its threads, its files, its log and its end.

ghost use Rattle.std.specs.Prelude.{◌≡◌, IfOk, Some, is_some, length, option_map, true};
ghost use Rattle.std.specs.Arc.{arc_value};
ghost use Rattle.server_seat.specs.declared.seat.ServerEnd.TheVariants.{Quit};
ghost use Rattle.server_session.specs.SettingUp.{IsOwnerOf, agrees, setup_of, users_of};
ghost use Rattle.server_system.specs.Paths.{socket_path, watched_owner, watched_path};
ghost use Rattle.server_trail.specs.Journals.{journal_path};
ghost use Rattle.server.specs.Starting.{loops_of, text_of};

use crate::latch::ReadyLine;
use crate::loop_handle::{EndCause, LoopStart, Shared};
use crate::starting::{Options, start_fault};
use crate::turns::run_loop;
use server_loop::{Gate, ServerEnd};
use server_outcome::{DiskLog, LastLine, ServeFault, Unready, cause_of, outcome_of, served};
use server_session::{
    Accounts, Agreement, Begun, Books, LoopBody, Recorder, Seat, Seated, SharedSession, Start,
    Trail, keep,
};
use server_system::{Host, Looks, SocketPath};
use server_trail::{Journal, ReadBack};
use std::alloc::Global;
use std::io::Write;
use std::rt::{HostRuntime, Stderr};
use std::sync::{OnceLock, Wait};
use std::thread::Threads;
use std::time::{Clock, Duration};

// How many seconds the trail's disk has for the last line before that is told.
const PATIENCE: u64 = 5;

/// A session that ended well, and what shows that its trail's file was read back, if one was written.
#[derive(Drop)]
pub struct KeptSession {
    pub session: Agreement,
    pub trail: Option<ReadBack>,
}

/// A server, of which each loop runs in a thread of its own.
#[derive(Drop)]
pub struct Server<'a, G, O, E = OnceLock<ServerEnd>> {
    pub shared: Shared<Looks, E>,
    /// Where it says that it is ready.
    pub ready: ReadyLine<'a, O>,
    /// Is called around each event that a loop submits.
    pub gate: G,
    pub files: HostRuntime,
    pub place: &'a SocketPath<'a>,
    /// What each user may still try, and how many clients and windows they have.
    pub accounts: Accounts<Books>,
    /// What the arguments ask for.
    pub options: Options<'a>,
    /// Where lines are written about who comes and goes.
    pub log: Stderr,
    /// Where the session's trail is written, if it is.
    pub journal: Option<Journal<'a>>,
    ghost socket: { socket_path place.now ≡ options.socket.now },
    ghost users: { watched_path (arc_value shared.watched) ≡ options.users.now },
    ghost trail: { option_map journal_path journal ≡ text_of options.trail },
    ghost tells: { shared.tells ≡ options.tells },
}

impl<G: Drop, O: Write, E: EndCause> Server<'_, G, O, E> {
    // A loop has ended. After the last one nobody can connect, so another server may take the place.
    fn leave(&self, rt: &impl Wait) {
        if let Some(last) = self.shared.log.leave(rt) {
            self.place.leave(rt, &self.files, last);
        }
    }

    // Waits until nothing is written to the trail's file any more, and tells if that takes long.
    fn await_trail<R: Clock + Wait>(&self, rt: &R) {
        let Some(journal) = &self.journal else {
            return;
        };
        if !journal.await_end(rt, Duration::from_secs(PATIENCE)) {
            let mut errors = LastLine(self.log);
            let path = journal.path();
            let _ = writeln!(errors, "muxd: trail {path}: waits for its disk");
        }
    }

    // What shows that the trail's file was read back, if one is written; or its fault.
    fn trail_file(&self, rt: &impl Wait) -> Result<Option<ReadBack>, ServeFault>
        ensures { IfOk result (λ trail. is_some trail ≡ is_some self.now.journal) }
    {
        let Some(journal) = &self.journal else {
            return Ok(None);
        };
        match journal.outcome(rt) {
            Ok(back) => Ok(Some(back)),
            Err(fault) => Err(ServeFault::of_trail(self.shared.alloc, journal.path(), fault)),
        }
    }
}

impl<G: Gate + Copy + Sync + Drop, O: Write + Send, E: EndCause + Sync> Server<'_, G, O, E> {
    /// Serves a new session until it ends. If it never said that it is ready, the trail's file is removed.
    pub fn serve<R: Host + Send + Sync + Threads + Wait>(
        &self,
        rt: &R,
        start: Start<LoopStart>,
    ) -> Result<KeptSession, ServeFault>
        requires places { length start.places.items ≡ loops_of self.now.options.loops }
        requires owner { IsOwnerOf start.users (watched_owner (arc_value self.now.shared.watched)) }
        ensures users { IfOk result (λ kept. users_of kept.session ≡ start.users) }
        ensures setup { IfOk result (λ kept. setup_of kept.session ≡ start.setup.items) }
        ensures agrees { IfOk result (λ kept. agrees kept.session ≡ true) }
        ensures trail { IfOk result (λ kept. is_some kept.trail ≡ is_some self.now.journal) }
        ensures end { IfOk result (λ kept. E.EndCause.holds self.now.shared.over (Some Quit)) }
    {
        let path = self.options.setup.unwrap_or("");
        let kept = match keep(rt, start, self) {
            Ok(agreement) => Ok(agreement),
            Err(fault) => Err(start_fault(self.shared.alloc, path, fault)),
        };
        self.shared.watched.stop(rt);
        let (said, never) = self.ready.said(rt);
        if let (Some(never), Some(journal)) = (&never, &self.journal) {
            journal.remove(never);
        }
        let session = served(kept, said, self.shared.latch.fault(rt))?;
        let end = self.shared.over.get();
        let trail = outcome_of(end, self.trail_file(rt), session.holds())?;
        Ok(KeptSession { session, trail })
    }
}

impl<R, G, O, E> LoopBody<LoopStart, R> for Server<'_, G, O, E>
where
    R: Clock + Wait,
    G: Gate + Copy + Drop,
    O: Write,
    E: EndCause,
{
    ghost records = { λ server lines. is_some lines ≡ is_some server.journal };

    fn run<L: Begun>(
        &self,
        rt: &R,
        session: &SharedSession<L, Recorder>,
        seat: Seat<L>,
        start: LoopStart,
    ) -> Option<Seat<L>> {
        let seated = Seated::new(session, &self.accounts, seat);
        let left = match run_loop(rt, &self.shared, self.gate, seated, start) {
            Ok(seated) => Some(seated.into_inner()),
            Err(_) => {
                let _ = self.shared.end(ServerEnd::Fault);
                self.shared.latch.fail(rt, Unready::NoMemory);
                None
            }
        };
        self.leave(rt);
        left
    }

    fn fail(&self, rt: &R, is_loop: bool) {
        let _ = self.shared.end(ServerEnd::Fault);
        self.shared.latch.fail(rt, Unready::NoThread);
        if is_loop {
            self.leave(rt);
        }
    }

    fn stand_by(&self, rt: &R) {
        let all = self.shared.latch.await_all(rt);
        let said = all.and_then(|it| self.ready.say(rt, it));
        let serves = said.is_some();
        self.shared.latch.open(rt, said);
        let mut errors = self.log;
        self.shared.log.write_all(rt, &mut errors);
        if serves {
            self.await_trail(rt);
        }
    }

    fn recorder(&self, alloc: Global, loops: usize) -> Option<Recorder> {
        self.journal.as_ref()?;
        Some(Recorder::new(alloc, loops))
    }

    fn write_trail(&self, rt: &R, recorder: &Recorder) {
        if let Some(journal) = &self.journal {
            let watch = DiskLog {
                rt,
                log: &self.shared.log,
                recorder,
                path: journal.path(),
            };
            let written = journal.write(rt, recorder, &watch);
            let cause = cause_of(self.shared.over.get());
            journal.end(rt, recorder, written, cause);
        }
    }

    fn compare(&self, rt: &R, trail: &Trail) {
        if let Some(journal) = &self.journal {
            journal.compare(rt, trail.acl_edition(), trail.owner(), trail.entries());
        }
    }
}
