//! What is outside a loop: its peers, and the time.

use crate::Stop;
use crate::acts::{LoopState, Note, StageAct};
use crate::streams::{Far, Habit, Near, ends};
use std::alloc::Global;
use std::time::Duration;

/// The peers of a loop, the time that passes before each of its turns, and what was noted.
#[derive(Drop)]
pub(crate) struct Outside {
    alloc: Global,
    peers: Vec<Far>,
    pub(crate) tick: Duration,
    notes: Vec<Note>,
}

impl Outside {
    pub(crate) fn new(alloc: Global) -> Outside {
        Outside {
            alloc,
            peers: Vec::new(alloc),
            tick: Duration::from_millis(20),
            notes: Vec::new(alloc),
        }
    }

    /// Adds a peer that sends these bytes. Returns the loop's end of its stream.
    pub(crate) fn connect(&mut self, habit: Habit, bytes: &[u8]) -> Result<Near, Stop> {
        let (near, far) = ends(self.alloc, habit)?;
        far.send(bytes)?;
        self.peers.push(far)?;
        Ok(near)
    }

    /// What a peer does by itself.
    pub(crate) fn perform(&mut self, act: StageAct) -> Result<(), Stop> {
        match act {
            StageAct::Send(place, bytes) => self.peer(place)?.send(bytes)?,
            StageAct::End(place) => self.peer(place)?.end(),
            StageAct::SetHabit(place, habit) => self.peer(place)?.set_habit(habit),
            StageAct::Leave => {
                if let Some(peer) = self.peers.pop() {
                    peer.end();
                }
            }
            _ => {}
        }
        Ok(())
    }

    fn peer(&self, place: usize) -> Result<&Far, Stop> {
        match self.peers.get(place) {
            Some(peer) => Ok(peer),
            None => Err(Stop::Other("no such connection")),
        }
    }

    pub(crate) fn note(&mut self, standing: LoopState, first: usize) -> Result<(), Stop> {
        let mut sent = Vec::new(self.alloc);
        for peer in self.peers.iter().skip(first) {
            sent.push(peer.sent(self.alloc)?)?;
        }
        self.notes.push(Note {
            standing,
            first,
            sent,
        })?;
        Ok(())
    }

    /// What was noted.
    pub(crate) fn into_notes(self) -> Vec<Note> {
        self.notes
    }
}
