//! Lines of several loops, a slow file and one that refuses, read back; and other files.

use crate::disk::MemoryFile;
use crate::entries::{entry, keys, trail};
use acl::{Edition, UserId};
use server_trail::{Recorder, begin, header_of, read_back};
use session::Bytes;
use std::alloc::Global;
use std::sync::Wait;
use std::thread;
use std::thread::Threads;
use std::time::Clock;
use trail_lines::{Cause, Header};

/// How many loops put lines down.
const LOOPS: usize = 3;

/// How many lines each puts down.
const LINES: usize = 200;

// Puts each third entry down, the later of two first.
fn put_all<R: Wait + Clock>(rt: &R, alloc: Global, recorder: &Recorder, first: usize) {
    for turn in 0..LINES / 2 {
        recorder.set_time(rt);
        let place = first.saturating_add(turn * 2 * LOOPS);
        for place in [place.saturating_add(LOOPS), place] {
            let _ = recorder.put(rt, place, entry(alloc, keys(place)).ok().as_ref());
        }
    }
    recorder.leave(rt);
}

// Writes the lines of all loops to the file, and its last line. Whether it says that it is whole.
fn record<R: Threads + Wait + Clock + Sync>(
    rt: &R,
    alloc: Global,
    recorder: &Recorder,
    disk: &mut MemoryFile<'_, R>,
) -> bool {
    thread::scope(thread::scope_env(), rt, |scope| {
        for first in 0..LOOPS {
            let started = scope.spawn(move || put_all(rt, alloc, recorder, first));
            if started.is_err() {
                put_all(rt, alloc, recorder, first);
            }
        }
        let written = recorder.write_all(rt, disk);
        recorder.end(rt, disk, written, Some(Cause::Quit)).is_ok()
    })
}

// Whether a file is the trail of this number of keys, with this first line.
fn is_of(alloc: Global, file: &[u8], header: &Header, count: usize) -> Option<bool> {
    let entries = trail(alloc, count).ok()?;
    let back = read_back(alloc, &mut &*file, header, &entries).ok()?;
    Some(back.is_some())
}

// Whether the file, which refuses this number of writes after its first line, is whole.
fn is_recorded<R: Threads + Wait + Clock + Sync>(
    rt: &R,
    alloc: Global,
    mut disk: MemoryFile<'_, R>,
    refused: u32,
) -> Option<bool> {
    let owner = UserId::of(b"own")?;
    let header = header_of(rt, alloc, owner, b"0.1.0").ok()?;
    begin(alloc, &mut disk, &header).ok()?;
    disk.refused = refused;
    let recorder = Recorder::new(alloc, LOOPS);
    let is_whole = record(rt, alloc, &recorder, &mut disk);
    Some(is_whole && disk.syncs > 1 && is_of(alloc, &disk.text, &header, LOOPS * LINES)?)
}

// How long each write takes, in milliseconds, how much it takes at most, and how many are refused.
static DISKS: [(u64, usize, u32); 2] = [(20, 1000, 0), (0, 500, 3)];

// The first disk that hasn't every line once.
fn wrong_disk<R: Threads + Wait + Clock + Sync>(rt: &R, alloc: Global) -> Option<usize> {
    for (row, (pause, most, refused)) in DISKS.iter().enumerate() {
        let mut disk = MemoryFile::new(rt, alloc);
        disk.pause = *pause;
        disk.most = *most;
        if is_recorded(rt, alloc, disk, *refused) != Some(true) {
            return Some(row);
        }
    }
    None
}

#[test]
fn each_line_is_written_once(rt: HostRuntime) {
    assert_eq!(rt; wrong_disk(&rt, rt.alloc()), None);
}

// The trail of two keys, of a session of own that began at 7.
const WHOLE: &[u8] =
    b"mux-trail 1 2 own 0.1.0 7\n0 5 keys 0 ok:1:0:0\n1 6 keys 1 ok:1:0:0\nend 2 9 quit\n";

// Files that aren't that trail.
static OTHERS: [&[u8]; 9] = [
    b"mux-trail 1 2 own 0.1.0 7\n0 5 keys 0 ok:1:0:0\n1 6 keys 2 ok:1:0:0\nend 2 9 quit\n",
    b"mux-trail 1 2 own 0.1.0 7\n0 5 keys 0 ok:1:0:0\n1 6 keys 1 ok:1:0:0\nend 3 9 quit\n",
    b"mux-trail 1 2 own 0.1.0 7\n0 5 keys 0 ok:1:0:0\n1 6 keys 1 ok:1:0:0\n",
    b"mux-trail 1 2 own 0.1.0 7\n0 5 keys 0 ok:1:0:0\n1 6 keys 1 ok:1:0:0\nend 2 9 quit",
    b"0 5 keys 0 ok:1:0:0\n1 6 keys 1 ok:1:0:0\nend 2 9 quit\n",
    b"mux-trail 1 2 bob 0.1.0 7\n0 5 keys 0 ok:1:0:0\n1 6 keys 1 ok:1:0:0\nend 2 9 quit\n",
    b"mux-trail 1 1 own 0.1.0 7\n0 5 keys 0 ok:1:0:0\n1 6 keys 1 ok:1:0:0\nend 2 9 quit\n",
    b"mux-trail 1 2 own 0.1.1 7\n0 5 keys 0 ok:1:0:0\n1 6 keys 1 ok:1:0:0\nend 2 9 quit\n",
    b"mux-trail 1 2 own 0.1.0 8\n0 5 keys 0 ok:1:0:0\n1 6 keys 1 ok:1:0:0\nend 2 9 quit\n",
];

// What the first line of that trail says.
fn header(alloc: Global) -> Option<Header> {
    Some(Header {
        edition: Edition::Second,
        owner: UserId::of(b"own")?,
        version: Bytes::of(alloc, b"0.1.0").ok()?,
        ms: 7,
    })
}

// Whether the trail is taken for what it is, and no other file.
fn are_told_apart(alloc: Global) -> Option<bool> {
    let header = header(alloc)?;
    let is_whole = is_of(alloc, WHOLE, &header, 2)?;
    Some(
        is_whole
            && OTHERS
                .iter()
                .all(|file| is_of(alloc, file, &header, 2) == Some(false)),
    )
}

#[test]
fn other_files_are_refused(rt: HostRuntime) {
    assert!(rt; are_told_apart(rt.alloc()) == Some(true));
}
