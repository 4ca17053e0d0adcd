//! How a server ends, by `quit` or from outside; which connections are let in; and two loops at once.

use crate::rows::{Expected, NoteRow, first_wrong, is_played};
use server_stage::{
    ATTACH, GONE_FAULT, Habit, QUIT, ServerEnd, StageAct, System, WALL, WINDOW, Why, perform,
};

// Whether a server with a window, a client, which types these frames, and a connection that sends
// nothing says that it is to end so, if it does; and whether all are told why it ends.
fn ends(
    rt: &impl System,
    keys: &'static [u8],
    said: Option<ServerEnd>,
    end: ServerEnd,
    why: Why,
) -> bool {
    let acts = [
        StageAct::Connect(Habit::Whole, WINDOW),
        StageAct::Turns(2),
        StageAct::Connect(Habit::Whole, ATTACH),
        StageAct::Connect(Habit::Whole, b""),
        StageAct::Send(1, keys),
        StageAct::Turns(3),
        StageAct::Note(0),
        StageAct::Finish(end),
        StageAct::Note(0),
    ];
    let rows = [
        (0, Expected::End(said)),
        (1, Expected::Gone(0, Some(why))),
        (1, Expected::Gone(1, Some(why))),
        (1, Expected::Sent(2, b"")),
        (1, Expected::Len(0)),
    ];
    is_played(rt, &acts, &rows)
}

#[test]
fn all_are_told_why(rt: HostRuntime) {
    let keys = b"K\0\x07\x01:quit\r";
    assert!(rt; ends(&rt, keys, Some(ServerEnd::Quit), ServerEnd::Quit, Why::Quit));
    assert!(rt; ends(&rt, b"", None, ServerEnd::Fault, Why::Fault));
    assert!(rt; ends(&rt, b"", None, ServerEnd::TrailFull, Why::TrailFull));
}

// The frames that a connection is sent whose command was done.
const DONE: &[u8] = b"y\0\x01\0g\0\x01\0";

static ENDED: [NoteRow; 2] = [
    (0, Expected::Sent(0, DONE)),
    (0, Expected::End(Some(ServerEnd::Quit))),
];

// A `quit` while no window is open.
#[test]
fn quit_alone(rt: HostRuntime) {
    let acts = [
        StageAct::Connect(Habit::Whole, QUIT),
        StageAct::Turns(2),
        StageAct::Note(0),
    ];
    assert!(rt; is_played(&rt, &acts, &ENDED));
}

static EXPIRED: [NoteRow; 6] = [
    (0, Expected::Len(4)),
    (1, Expected::Len(4)),
    (2, Expected::Len(2)),
    (3, Expected::Len(1)),
    (3, Expected::Sent(0, GONE_FAULT)),
    (3, Expected::Entries(b"A")),
];

// Connections that send nothing, or no whole frame, one that is told to go and doesn't read, and a
// client.
#[test]
fn strangers_have_ten_seconds(rt: HostRuntime) {
    let acts = [
        StageAct::Connect(Habit::Whole, b""),
        StageAct::Connect(Habit::Whole, b"A\0G\0"),
        StageAct::Connect(Habit::Takes(0), b"K\0\x01a"),
        StageAct::Connect(Habit::Whole, ATTACH),
        StageAct::SetTime(1, 20),
        StageAct::Turns(1),
        StageAct::Note(0),
        StageAct::SetTime(10, 20),
        StageAct::Turns(1),
        StageAct::Note(0),
        StageAct::SetTime(11, 20),
        StageAct::Turns(1),
        StageAct::Note(0),
        StageAct::SetTime(22, 20),
        StageAct::Turns(1),
        StageAct::Note(0),
    ];
    assert!(rt; is_played(&rt, &acts, &EXPIRED));
}

static CROWDED: [NoteRow; 5] = [
    (0, Expected::Gone(0, None)),
    (0, Expected::Gone(1, Some(Why::Fault))),
    (0, Expected::Gone(2, None)),
    (0, Expected::Gone(3, Some(Why::Fault))),
    (0, Expected::Entries(b"A")),
];

// A client; two that send nothing, of which the first goes for a new one; and a client that was
// taken in though no more are to stay.
#[test]
fn the_oldest_stranger_goes(rt: HostRuntime) {
    let acts = [
        StageAct::Connect(Habit::Whole, ATTACH),
        StageAct::Turns(1),
        StageAct::Connect(Habit::Whole, b""),
        StageAct::Connect(Habit::Whole, b""),
        StageAct::LetOldestGo(3),
        StageAct::LetOldestGo(2),
        StageAct::ConnectExtra(ATTACH),
        StageAct::Turns(2),
        StageAct::Note(0),
    ];
    assert!(rt; is_played(&rt, &acts, &CROWDED));
}

// A client of bob, with another last digit.
const WRONG: &[u8] = b"A\0G\0\x04\0\x14\
    000000000000000000000000000000000000000000000000000000000000000cbob";

static REFUSED: [NoteRow; 2] = [
    (
        0,
        Expected::Sent(0, b"s\0\x1Bunknown user or wrong tokeng\0\x01\x06"),
    ),
    (0, Expected::Entries(b"")),
];

#[test]
fn a_wrong_token(rt: HostRuntime) {
    let acts = [
        StageAct::Connect(Habit::Steady, WRONG),
        StageAct::Turns(20),
        StageAct::Note(0),
    ];
    assert!(rt; is_played(&rt, &acts, &REFUSED));
}

static BOTH: [NoteRow; 3] = [
    (0, Expected::Sent(0, DONE)),
    (1, Expected::Sent(0, DONE)),
    (1, Expected::Entries(b"CC")),
];

// Whether a call of each of two loops is answered, while one of them is held until the other was.
fn both_are_answered(rt: &impl System) -> bool {
    let acts = [
        StageAct::Connect(Habit::Whole, WALL),
        StageAct::Turns(4),
        StageAct::Note(0),
    ];
    match perform(rt, 2, &acts) {
        Ok(seen) => first_wrong(rt.alloc(), &seen, &BOTH).is_none(),
        Err(_) => false,
    }
}

/// Loops that exclude each other fail here: one loop that serves all connections, or loops that each
/// hold the session's lock for a whole turn, from `read_all` to the end of `end_turn`. The call that
/// is held then waits for a call that can't come.
#[test]
fn loops_take_turns(rt: HostRuntime) {
    assert!(rt; both_are_answered(&rt));
}
