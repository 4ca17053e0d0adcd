//! What is logged: lines that the loop puts down, and that a thread writes to standard error.

ghost use Rattle.web_turn.specs.Turning.{Tells, TellsWatching};

use std::alloc::{AllocError, Global};
use std::fmt::{Display, Write};
use std::sync::{Arc, Condvar, Mutex, Wait};
use std::thread::Threads;
use std::time::Duration;
use std::{io, thread};
use web_client::Identity;
use web_relay::Relay;

/// The most bytes that wait for the reader of standard error.
const MOST: usize = 65_536;

/// How many seconds the writer sleeps at most if nothing comes.
const LOOK: u64 = 3_600;

// Lines that weren't written yet.
#[derive(Drop)]
struct PendingLines {
    text: String,
    left_out: u64,
}

/// Lines on their way to standard error. The loop never waits for a slow reader of them.
#[derive(Drop)]
pub struct WebLog {
    alloc: Global,
    waiting: Mutex<PendingLines>,
    news: Condvar,
}

impl WebLog {
    /// No line yet.
    pub fn new(alloc: Global) -> WebLog {
        WebLog {
            alloc,
            waiting: Mutex::new(PendingLines {
                text: String::new(alloc),
                left_out: 0,
            }),
            news: Condvar::new(),
        }
    }

    /// Puts a line down. A line for which there is no room is dropped and counted.
    pub fn put<T: Display>(&self, rt: &impl Wait, what: &T) {
        let mut line = String::new(self.alloc);
        let is_made = writeln!(line, "mux-web: {what}").is_ok();
        let mut waiting = self.waiting.lock(rt);
        let has_room = waiting.text.len().saturating_add(line.len()) <= MOST;
        if !is_made || !has_room || waiting.text.push_str(line.as_str()).is_err() {
            waiting.left_out = waiting.left_out.saturating_add(1);
        }
        drop(waiting);
        self.news.notify_one();
    }

    // Takes the lines that wait, and the count of dropped ones.
    fn take(&self, rt: &impl Wait) -> (String, u64) {
        let mut waiting = self.waiting.lock(rt);
        let none = String::new(self.alloc);
        let text = std::mem::replace(&mut waiting.text, none);
        let left_out = std::mem::replace(&mut waiting.left_out, 0);
        (text, left_out)
    }

    // Writes the lines as they come. A line that can't be written is dropped.
    fn write_all<R: Eprint + Wait>(&self, rt: &R) {
        for _ in rt.forever() {
            let seen = self.news.notifications();
            let (text, left_out) = self.take(rt);
            let text = text.as_str();
            let _ = eprint!(rt; "{text}");
            if left_out > 0 {
                let _ = eprintln!(rt;
                    "mux-web: {left_out} lines were left out here: standard error was read too slowly"
                );
            }
            self.news.sleep(rt, seen, Duration::from_secs(LOOK));
        }
    }
}

/// Starts a log, with the thread that writes it.
pub fn start_log<R>(rt: &R, alloc: Global) -> io::Result<Arc<WebLog>>
where
    R: Eprint + Threads + Wait + Copy + Send + 'static,
{
    let log = Arc::new(alloc, WebLog::new(alloc))?;
    let theirs = Arc::try_clone(&log)?;
    let rt_there = *rt;
    let started = thread::spawn(rt, move || {
        let rt = rt_there;
        theirs.write_all(&rt);
    });
    match started {
        Ok(_) => Ok(log),
        Err(error) => Err(io::Error::from(AllocError::from(error))),
    }
}

/// Logs who is there, once the server has let them in: a name, and no token.
pub fn tell<R: Wait, S: Drop>(rt: &R, log: &Option<Arc<WebLog>>, place: usize, relay: &mut Relay<S>)
    ensures { Tells relay.old relay.new }
{
    let Some(name) = relay.is_let_in() else {
        return;
    };
    if let Some(log) = log {
        log.put(rt, &format_args!("{place} begins as {name}"));
    }
    relay.note_told();
}

/// Logs that somebody watches, if they have just begun to.
pub fn tell_watching<R: Wait, S: Drop>(
    rt: &R,
    log: &Option<Arc<WebLog>>,
    place: usize,
    relay: &mut Relay<S>,
    begins: bool,
)
    ensures { TellsWatching begins relay.old relay.new }
{
    if !begins {
        return;
    }
    relay.note_told();
    if let (Some(log), Identity::Watching(rows, columns)) = (log, relay.visitor().identity()) {
        log.put(rt, &format_args!("{place} watches {rows} by {columns}"));
    }
}

/// Logs that a browser has gone, if it was logged that it was there.
pub fn tell_end<R: Wait>(rt: &R, log: &Option<Arc<WebLog>>, place: usize, is_told: bool) {
    if let (true, Some(log)) = (is_told, log) {
        log.put(rt, &format_args!("{place} ends"));
    }
}
