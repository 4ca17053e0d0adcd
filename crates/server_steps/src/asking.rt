//! What one connection is read, and which message of it comes next.

ghost use Rattle.std.specs.Prelude.{◌≡◌, length};
ghost use Rattle.slab.specs.Slab.{get};
ghost use Rattle.server_connections.specs.Changing.{changed};
ghost use Rattle.server_steps.specs.Asking.{AsksAt, ReadsAt, drains_at, goes_on, has_asked_at, held_after, is_due_at};
ghost use Rattle.server_steps.specs.Asking.{is_faulty_at, is_much, is_window_at, left_over, prints_at, unheld};

use crate::progress::Progress;
use server_connections::{Arrival, Asked, Connections, PeerStream, Role};

// While fewer bytes of output may still be done in a turn, much of it is done.
const MUCH: usize = 24_576;

/// Takes out the next message of a connection, or what is left of one.
pub fn next_asked<S: PeerStream + Drop>(
    connections: &mut Connections<S>,
    key: usize,
) -> Option<Asked>
    ensures { AsksAt key connections.old result connections.new }
{
    let Some(peer) = connections.touch(key) else {
        return None;
    };
    peer.next_asked()
}

/// Puts a message back, to be gone on with, unless it is done.
pub fn put_back<S: Drop>(
    connections: &mut Connections<S>,
    key: usize,
    asked: Asked,
    progress: Progress,
)
    ensures { connections.new ≡ left_over progress asked key connections.old }
{
    match progress {
        Progress::Done => {}
        _ => {
            if let Some(peer) = connections.touch(key) {
                peer.inbox.put_back(asked);
            }
        }
    }
}

/// Whether to go on after something of a connection that was done. What has to wait is tried again later.
pub fn go_on<S: Drop>(
    connections: &mut Connections<S>,
    key: usize,
    progress: Option<Progress>,
) -> bool
    ensures goes { result ≡ goes_on progress }
    ensures held { connections.new ≡ held_after progress key connections.old }
{
    let Some(progress) = progress else {
        return false;
    };
    match progress {
        Progress::Held => {
            if let Some(peer) = connections.touch(key) {
                peer.is_held = true;
            }
            false
        }
        Progress::Done => true,
        Progress::Part => true,
    }
}

/// Whether a connection is a window.
pub fn is_window<S: Drop>(connections: &Connections<S>, key: usize) -> bool
    ensures { result ≡ is_window_at (get connections.now.peers key) }
{
    match connections.get(key) {
        Some(peer) => matches!(peer.role, Role::Window(_)),
        None => false,
    }
}

/// Whether a window's output is to be done next: it comes next, and this much may still be done.
pub fn may_print<S: Drop>(
    connections: &Connections<S>,
    key: usize,
    is_next: bool,
    left: usize,
) -> bool
    ensures { result ≡ prints_at is_next left (get connections.now.peers key) }
{
    is_next && 0 < left && is_window(connections, key)
}

/// Whether a connection is a window of which messages are left, or after which this little output may still
/// be done.
pub fn is_much<S: Drop>(
    connections: &Connections<S>,
    key: usize,
    is_done: bool,
    left: usize,
) -> bool
    ensures { result ≡ is_much is_done left (get connections.now.peers key) }
{
    (!is_done || left < MUCH) && is_window(connections, key)
}

/// Whether what a connection sends is denied, and more of it is there than one read finds.
pub fn drains<S: Drop>(connections: &Connections<S>, key: usize) -> bool
    ensures { result ≡ drains_at (get connections.now.peers key) }
{
    match connections.get(key) {
        Some(peer) => peer.inbox.typed.drains(),
        None => false,
    }
}

/// Whether a connection has something to read or to do. What was held is tried again.
pub fn is_due_again<S: Drop>(connections: &mut Connections<S>, key: usize) -> bool
    ensures due { result ≡ is_due_at (get connections.old.peers key) }
    ensures again { connections.new ≡ changed unheld key connections.old }
{
    match connections.touch(key) {
        Some(peer) => peer.is_due_again(),
        None => false,
    }
}

/// Whether messages, keys or sizes of a connection aren't done yet.
pub fn has_asked<S: Drop>(connections: &Connections<S>, key: usize) -> bool
    ensures { result ≡ has_asked_at (get connections.now.peers key) }
{
    match connections.get(key) {
        Some(peer) => peer.has_asked(),
        None => false,
    }
}

/// Whether a connection sent bytes that are no frame, and all that it asked for before them is done.
pub fn is_faulty<S: Drop>(connections: &Connections<S>, key: usize) -> bool
    ensures { result ≡ is_faulty_at (get connections.now.peers key) }
{
    match connections.get(key) {
        Some(peer) => peer.is_faulty(),
        None => false,
    }
}

/// Reads a connection once, if more of it is to be read at this time in milliseconds.
pub fn read<S: PeerStream + Drop>(
    connections: &mut Connections<S>,
    key: usize,
    buffer: &mut [u8],
    now: u64,
) -> Arrival
    ensures { ReadsAt S.PeerStream now (length buffer.old) key connections.old result connections.new }
{
    let Some(peer) = connections.touch(key) else {
        return Arrival::Nothing;
    };
    peer.read(buffer, now)
}
