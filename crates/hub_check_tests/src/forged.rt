//! Entries that no session files: a trail in which one stands is refused at its place, though its
//! verdicts and its reply are right.

use acl::{Edition, UserId};
use std::alloc::Global;
use trail_lines::{Audit, Wrong};

/// What a session files: own opens a window and makes bob and ann known, who attach.
static BEFORE: [&[u8]; 5] = [
    b"0 0 open own 24 80 0 .sh ok:0:0:0 ?own:+x:screen !opened:own:0",
    b"1 0 command own - .multiuser\\20on ok:0:0:0 ?own:+x:multiuser",
    b"2 0 command own - .aclchg\\20bob,ann\\20+x\\20select ok:0:0:0 ?own:+x:aclchg !known:bob \
      !set:bob:+x:select !known:ann !set:ann:+x:select",
    b"3 0 attach bob 24 80 ok:0:0:0 !attached:0:bob !entered:bob:0",
    b"4 0 attach ann 24 80 ok:0:1:0 !attached:1:ann !entered:ann:0",
];

/// Entries as a session files them next.
static FILED: [&[u8]; 17] = [
    b"5 0 attach bob 24 80 ok:0:2:0 !attached:2:bob !entered:bob:0",
    b"5 0 attach eve 24 80 no:user",
    b"5 0 detach 1 ok:0:0:0 !parted:1 !left:ann:0",
    b"5 0 detach 9 no:window",
    b"5 0 open own 24 80 0 .sh ok:0:1:1 ?own:+x:screen !opened:own:1",
    b"5 0 closed 0 ok:0:0:0 !closed:0 !left:bob:0 !left:ann:0",
    b"5 0 closed 9 no:window",
    b"5 0 keys 0 ok:3:0:0 ?bob:+x:select",
    b"5 0 keys 0 ok:3:0:0 ?bob:+x:detach !parted:0 !left:bob:0",
    b"5 0 command bob 0 .detach no:window ?bob:+x:detach",
    b"5 0 command own - .zap no:line:1:0",
    b"5 0 command own - .aclchg\\20bob\\20+x-r\\20kill ok:0:0:0 ?own:+x:aclchg !set:bob:+x:kill \
      !set:bob:-r:kill",
    b"5 0 command own - .aclchg\\20*\\20-w\\200 ok:0:0:0 ?own:+x:aclchg !set:bob:-w:0 !set:ann:-w:0",
    b"5 0 command own - .aclgrp\\20bob\\20ann ok:0:0:0 ?own:+x:aclgrp !grouped:bob:ann",
    b"5 0 command own - .aclgrp\\20bob\\20none ok:0:0:0 ?own:+x:aclgrp !grouped:bob:-",
    b"5 0 command own - .acldel\\20ann ok:0:0:0 ?own:+x:acldel !parted:1 !gone:ann !left:ann:0",
    b"5 0 command own - .aclumask\\20bob-w ok:0:0:0 ?own:+x:aclumask !masked:own:bob:-w",
];

/// Entries with an act that their event, reply, command or line doesn't have, and entries of users
/// who aren't known.
static FORGED: [&[u8]; 26] = [
    b"5 0 attach bob 24 80 ok:0:2:0 !attached:2:bob !set:bob:+x:aclchg",
    b"5 0 attach bob 24 80 ok:0:2:0 !attached:2:bob !attached:3:bob",
    b"5 0 attach bob 24 80 ok:0:2:0 !attached:2:bob !entered:ann:0",
    b"5 0 attach eve 24 80 ok:0:2:0 !attached:2:eve",
    b"5 0 attach eve 24 80 no:user !known:eve",
    b"5 0 detach 1 ok:0:0:0 !parted:1 !left:bob:0",
    b"5 0 detach 1 ok:0:0:0 !parted:1 !parted:0",
    b"5 0 detach 9 no:window !gone:ann",
    b"5 0 open own 24 80 0 .sh ok:0:1:1 ?own:+x:screen !opened:own:1 !opened:own:2",
    b"5 0 open own 24 80 0 .sh ok:0:1:1 ?own:+x:screen !opened:own:1 !set:bob:+x:1",
    b"5 0 closed 0 ok:0:0:0 !closed:0 !gone:ann",
    b"5 0 closed 9 no:window !gone:ann",
    b"5 0 keys 0 ok:3:0:0 ?bob:+x:title !set:bob:+w:0",
    b"5 0 keys 0 ok:3:0:0 ?bob:+x:select !left:ann:0",
    b"5 0 keys 0 ok:3:0:0 ?bob:+x:detach !parted:1 !left:ann:0",
    b"5 0 command bob 0 .detach no:window ?bob:+x:detach !set:bob:+w:0",
    b"5 0 command own - .aclchg\\20bob\\20+x\\20kill ok:0:0:0 ?own:+x:aclchg !set:bob:+x:aclchg",
    b"5 0 command own - .aclchg\\20bob\\20+x\\20kill ok:0:0:0 ?own:+x:aclchg !set:ann:+x:kill",
    b"5 0 command own - .aclchg\\20bob\\20+x\\20kill ok:0:0:0 ?own:+x:aclchg !set:bob:-x:kill",
    b"5 0 command own - .aclchg\\20bob\\20+x\\20kill ok:0:0:0 ?own:+x:aclchg !mode:own:0:off",
    b"5 0 command own - .zap ok:0:0:0 ?own:+x:aclchg !set:bob:+x:kill",
    b"5 0 command own - .aclgrp\\20bob\\20ann ok:0:0:0 ?own:+x:aclgrp !grouped:bob:ann !grouped:ann:bob",
    b"5 0 command own - .aclgrp\\20bob\\20none ok:0:0:0 ?own:+x:aclgrp !grouped:bob:ann",
    b"5 0 command own - .acldel\\20ann ok:0:0:0 ?own:+x:acldel !gone:ann !gone:bob",
    b"5 0 command own - .aclumask\\20bob-w ok:0:0:0 ?own:+x:aclumask !masked:bob:ann:-w",
    b"5 0 command eve - .detach ok:0:0:0",
];

/// What the audit answers for the last line if all lines before it are taken.
fn answer(alloc: Global, edition: Edition, last: &[u8]) -> Option<Result<(), Wrong>> {
    let mut audit = Audit::new(alloc, edition, UserId::of(b"own")?).ok()?;
    for line in &BEFORE {
        audit.take(line).ok()?;
    }
    match audit.take(last) {
        Ok(_) => Some(Ok(())),
        Err(wrong) => Some(Err(wrong)),
    }
}

/// The first of the entries that isn't answered so.
fn first_other(
    alloc: Global,
    edition: Edition,
    entries: &[&[u8]],
    is_taken: bool,
) -> Option<usize> {
    for (place, line) in entries.iter().enumerate() {
        let is_so = match answer(alloc, edition, line) {
            Some(Ok(())) => is_taken,
            Some(Err(Wrong::Illegal)) => !is_taken,
            _ => false,
        };
        if !is_so {
            return Some(place);
        }
    }
    None
}

#[test]
fn filed_entries_are_taken(rt: HostRuntime) {
    for edition in [Edition::First, Edition::Second] {
        assert_eq!(rt; first_other(rt.alloc(), edition, &FILED, true), None);
    }
}

#[test]
fn forged_entries_are_refused(rt: HostRuntime) {
    for edition in [Edition::First, Edition::Second] {
        assert_eq!(rt; first_other(rt.alloc(), edition, &FORGED, false), None);
    }
}
