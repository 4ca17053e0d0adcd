//! The talks of `mux` with a server. The frames are those of muxd(8), The protocol.

pub const SOCKET: &str = "client_tests.socket";

pub const TOKEN: &str = "client_tests.token";

/// What names the session, and the windows that mustn't tell their page.
pub const SESSION: &str = "client_tests.socket.session";

pub const RESTORING: &str = "client_tests.socket.restoring";

pub const TOKEN_TEXT: &[u8] = b"0000000000000000000000000000000000000000000000000000000000000000
";

pub static ATTACH: [&str; 12] = [
    "mux", "attach", "--socket", SOCKET, "--user", "own", "--token", TOKEN, "--rows", "24",
    "--cols", "80",
];

pub static ASSISTED: [&str; 14] = [
    "mux", "attach", "--socket", SOCKET, "--user", "own", "--token", TOKEN, "--rows", "24",
    "--cols", "80", "--assist", "--fit",
];

pub static AGAIN: [&str; 14] = [
    "mux", "attach", "--socket", SOCKET, "--user", "own", "--token", TOKEN, "--rows", "24",
    "--cols", "80", "--again", "5",
];

pub static STAYING: [&str; 16] = [
    "mux", "window", "--socket", SOCKET, "--user", "own", "--token", TOKEN, "--rows", "24",
    "--cols", "80", "--title", "sh", "--stay", "5",
];

pub static WINDOW: [&str; 14] = [
    "mux", "window", "--socket", SOCKET, "--user", "own", "--token", TOKEN, "--rows", "24",
    "--cols", "80", "--title", "sh",
];

pub static COMMAND: [&str; 9] = [
    "mux", "command", "--socket", SOCKET, "--user", "own", "--token", TOKEN, "windows",
];

/// Arguments that are invalid, and how the message begins.
pub static MISTAKES: [(&[&str], &[u8]); 2] = [
    (
        &["mux", "command", "--socket", SOCKET],
        b"mux: the following required arguments were not provided:",
    ),
    (
        &["mux", "command", "--socket", SOCKET, "--window", "lesson"],
        b"mux: invalid value 'lesson' for '--window <N>': ",
    ),
];

/// The peer that `mux` is.
#[derive(Clone, Copy)]
pub enum Peer {
    Client,
    /// With keys of its own and --fit.
    Assisted,
    /// It comes back, after a server that goes at once.
    Again,
    Window,
    /// A window that would come back.
    Staying,
    /// A window that would come back, after its program has printed something.
    Telling,
    Command,
}

/// A talk: what `mux` reads, and what the server sends first, waits for, and sends then.
#[derive(Clone, Copy)]
pub struct Talk {
    pub peer: Peer,
    pub typed: &'static [u8],
    pub first: &'static [u8],
    pub awaited: &'static [u8],
    pub last: &'static [u8],
    pub status: u8,
    pub written: &'static [u8],
    /// What must not be written.
    pub kept_back: &'static [u8],
    /// What standard error must have.
    pub told: &'static [u8],
}

pub static TALKS: [Talk; 15] = [
    // A client: its keys are sent, and a draw is written.
    Talk {
        peer: Peer::Client,
        typed: b"typed",
        first: b"y\0\x01\0",
        awaited: b"K\0\x05typed",
        last: b"d\0\x06\x1b[Hyesg\0\x01\x04",
        status: 0,
        written: b"\x1b[Hyes",
        kept_back: b"g\0",
        told: b"",
    },
    // Nothing is written of a draw that sets the title.
    Talk {
        peer: Peer::Client,
        typed: b"",
        first: b"y\0\x01\0d\0\x0ebad\x1b]0;title\x07x",
        awaited: b"A\0G",
        last: b"g\0\x01\0",
        status: 1,
        written: b"",
        kept_back: b"bad",
        told: b"",
    },
    // Nor of one that begins in one frame and ends in another.
    Talk {
        peer: Peer::Client,
        typed: b"",
        first: b"y\0\x01\0d\0\x05good\x1bd\0\x02]0d\0\x03;t\x07",
        awaited: b"A\0G",
        last: b"g\0\x01\0",
        status: 1,
        written: b"",
        kept_back: b"]0",
        told: b"",
    },
    // The user was removed.
    Talk {
        peer: Peer::Client,
        typed: b"",
        first: b"y\0\x01\0",
        awaited: b"A\0G",
        last: b"g\0\x01\x01",
        status: 1,
        written: b"",
        kept_back: b"",
        told: b"mux: this user was removed from the session (acldel): own at client_tests.socket\n",
    },
    // The session doesn't know the user. What makes a user known gives no right (POLICIES.md).
    Talk {
        peer: Peer::Client,
        typed: b"",
        first: b"s\0\x0cunknown user",
        awaited: b"A\0G",
        last: b"g\0\x01\x06",
        status: 1,
        written: b"",
        kept_back: b"unknown",
        told: b"mux: unknown user: own at client_tests.socket: the session's owner makes own known without any right with 'aclchg own -rwx #?' and 'aclumask own-rwx'\n",
    },
    // A window: what its program prints is sent, and what is typed there is written.
    Talk {
        peer: Peer::Window,
        typed: b"printed",
        first: b"y\0\x01\0",
        awaited: b"O\0\x07printed",
        last: b"i\0\x05typedg\0\x01\x03",
        status: 0,
        written: b"typed",
        kept_back: b"g\0",
        told: b"",
    },
    // A window that isn't let in.
    Talk {
        peer: Peer::Window,
        typed: b"",
        first: b"s\0\x08bad size",
        awaited: b"W\0",
        last: b"g\0\x01\x06",
        status: 1,
        written: b"",
        kept_back: b"bad",
        told: b"",
    },
    // C-a ? shows the keys, and isn't sent.
    Talk {
        peer: Peer::Assisted,
        typed: b"x\x01?",
        first: b"y\0\x01\0",
        awaited: b"K\0\x01x",
        last: b"d\0\x06hiddeng\0\x01\x04",
        status: 0,
        written: b"Any key comes back.",
        kept_back: b"hidden",
        told: b"",
    },
    // What a refusal means is put again after a draw, which may have written over it.
    Talk {
        peer: Peer::Assisted,
        typed: b"",
        first: b"y\0\x01\0s\0\x0cline: 1 at 0",
        awaited: b"K\0\x06\x01:fit\x0d",
        last: b"d\0\x04overg\0\x01\x04",
        status: 0,
        written: b"over\x1b7\x1b[24;1H\x1b[0;7mmux: line: 1 at 0 (unknown command): C-a ? shows the keys\x1b[m\x1b[K\x1b8",
        kept_back: b"",
        told: b"",
    },
    // The window gets the terminal's size.
    Talk {
        peer: Peer::Assisted,
        typed: b"",
        first: b"y\0\x01\0",
        awaited: b"K\0\x06\x01:fit\x0d",
        last: b"g\0\x01\x04",
        status: 0,
        written: b"",
        kept_back: b"",
        told: b"",
    },
    // A client comes back when its server has gone. The next one doesn't end a function that the first
    // one began.
    Talk {
        peer: Peer::Again,
        typed: b"",
        first: b"y\0\x01\0",
        awaited: b"A\0G",
        last: b"d\0\x051000hg\0\x01\x04",
        status: 0,
        written: b"\x181000h",
        kept_back: b"?1000h",
        told: b"",
    },
    // So does a window, once it knows its session. The next server is told its page.
    Talk {
        peer: Peer::Telling,
        typed: b"printed",
        first: b"y\0\x01\0",
        awaited: b"printed\x1bE\x1bE",
        last: b"i\0\x05typedg\0\x01\x03",
        status: 0,
        written: b"typed",
        kept_back: b"g\0",
        told: b"",
    },
    // A command: what is said is written, a text a line.
    Talk {
        peer: Peer::Command,
        typed: b"",
        first: b"y\0\x01\0s\0\x03ones\0\x03two",
        awaited: b"C\0L",
        last: b"g\0\x01\0",
        status: 0,
        written: b"one\ntwo\n",
        kept_back: b"g\0",
        told: b"",
    },
    // A command that is refused.
    Talk {
        peer: Peer::Command,
        typed: b"",
        first: b"y\0\x01\0s\0\x09no window",
        awaited: b"C\0L",
        last: b"g\0\x01\x06",
        status: 1,
        written: b"no window\n",
        kept_back: b"g\0",
        told: b"",
    },
    // A command writes no draw.
    Talk {
        peer: Peer::Command,
        typed: b"",
        first: b"y\0\x01\0d\0\x03bad",
        awaited: b"C\0L",
        last: b"g\0\x01\0",
        status: 1,
        written: b"",
        kept_back: b"bad",
        told: b"",
    },
];

// A window that stays, whose server has no mark.
pub static UNMARKED: Talk = Talk {
    peer: Peer::Staying,
    typed: b"",
    first: b"y\0\x01\0",
    awaited: b"W\0",
    last: b"",
    status: 1,
    written: b"",
    kept_back: b"",
    told: b"",
};
