//! What stops a file.

use crate::disk::MemoryFile;
use crate::entries::{entry, keys};
use acl::UserId;
use hub::TrailEntry;
use server_trail::{Recorder, StopCause};
use session::Event;
use std::alloc::Global;
use std::sync::Wait;
use std::time::Clock;
use trail_lines::Cause;

// An entry whose line is long.
fn long_entry(alloc: Global) -> Option<TrailEntry> {
    let event = Event::Command {
        user: UserId::of(b"own")?,
        window: None,
        line: &[b'a'; 8192],
    };
    entry(alloc, event).ok()
}

// Why the file can't go on after 2,000 long lines, and after 60 more.
fn stops(rt: &impl Wait, alloc: Global) -> Option<(Option<StopCause>, Option<StopCause>)> {
    let entry = long_entry(alloc)?;
    let recorder = Recorder::new(alloc, 1);
    for place in 0..2_000 {
        let _ = recorder.put(rt, place, Some(&entry));
    }
    let before = recorder.stop().map(|stopped| stopped.cause());
    for place in 2_000..2_060 {
        let _ = recorder.put(rt, place, Some(&entry));
    }
    Some((before, recorder.stop().map(|stopped| stopped.cause())))
}

#[test]
fn lines_wait_up_to_sixteen_mebibytes(rt: HostRuntime) {
    let stops = stops(&rt, rt.alloc());
    assert!(rt; stops == Some((None, Some(StopCause::Disk))));
}

// The lines of two entries, when memory is refused for the third.
fn stopped<R: Wait + Clock>(rt: &R, alloc: Global, disk: &mut MemoryFile<'_, R>) -> Option<bool> {
    let recorder = Recorder::new(alloc, 1);
    for place in [1, 0, 3] {
        let _ = recorder.put(rt, place, Some(&entry(alloc, keys(place)).ok()?));
    }
    let _ = recorder.put(rt, 2, None);
    let _ = recorder.put(rt, 2, Some(&entry(alloc, keys(2)).ok()?));
    recorder.leave(rt);
    let written = recorder.write_all(rt, disk);
    let is_two = written.entries() == 2;
    Some(recorder.end(rt, disk, written, Some(Cause::Memory)).is_ok() && is_two)
}

// Whether nothing is taken after a refusal: two lines and the last one are written.
fn is_stopped<R: Wait + Clock>(rt: &R, alloc: Global) -> Option<bool> {
    let mut disk = MemoryFile::new(rt, alloc);
    let is_two = stopped(rt, alloc, &mut disk)?;
    let mut lines = 0u32;
    for byte in &disk.text {
        if *byte == b'\n' {
            lines = lines.saturating_add(1);
        }
    }
    Some(is_two && lines == 3)
}

#[test]
fn nothing_is_taken_after_a_refusal(rt: HostRuntime) {
    assert!(rt; is_stopped(&rt, rt.alloc()) == Some(true));
}
