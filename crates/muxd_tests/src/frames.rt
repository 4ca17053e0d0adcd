//! The bytes that peers send, and those that they must get.

/// The users' file.
pub const USERS: &[u8] = b"own 0000000000000000000000000000000000000000000000000000000000000000
bob 000000000000000000000000000000000000000000000000000000000000000b
";

/// Commands of the owner.
pub const MULTIUSER: &[u8] =
    b"C\0Q\xff0000000000000000000000000000000000000000000000000000000000000000\x03ownmultiuser on";

pub const ADD_BOB: &[u8] =
    b"C\0O\xff0000000000000000000000000000000000000000000000000000000000000000\x03ownacladd bob";

pub const WALL: &[u8] =
    b"C\0K\xff0000000000000000000000000000000000000000000000000000000000000000\x03ownwall a";

pub const HIDE: &[u8] = b"C\0T\xff0000000000000000000000000000000000000000000000000000000000000000\
      \x03ownaclchg bob -r 0";

/// Commands of the owner for window 0.
pub const LOCK: &[u8] =
    b"C\0Q\00000000000000000000000000000000000000000000000000000000000000000\x03ownwritelock on";

pub const FREE: &[u8] =
    b"C\0R\00000000000000000000000000000000000000000000000000000000000000000\x03ownwritelock off";

/// The owner's command that ends the server.
pub const QUIT: &[u8] =
    b"C\0I\xff0000000000000000000000000000000000000000000000000000000000000000\x03ownquit";

/// A window of the owner, of 24 lines by 80 columns, with the title `sh`.
pub const WINDOW: &[u8] =
    b"W\0L\0\x18\0P\0\x0a0000000000000000000000000000000000000000000000000000000000000000\x03ownsh";

/// Another window of the owner, with the title `ed`.
pub const WINDOW_1: &[u8] =
    b"W\0L\0\x18\0P\0\x0a0000000000000000000000000000000000000000000000000000000000000000\x03owned";

/// Keys for the window in focus and, after `C-a n`, for the next one: two frames, cut behind C-a.
pub const BOTH: &[u8] = b"K\0\x02p\x01K\0\x02nq";

/// A client of the owner and one of bob, each of 24 lines by 80 columns.
pub const ATTACH: &[u8] =
    b"A\0G\0\x18\0P0000000000000000000000000000000000000000000000000000000000000000own";

pub const ATTACH_BOB: &[u8] =
    b"A\0G\0\x18\0P000000000000000000000000000000000000000000000000000000000000000bbob";

/// The first frame that a client, a command and window 0 get.
pub const WELCOME: &[u8] = b"y\0\x01\0";

/// The first frame that window 1 gets.
pub const WELCOME_1: &[u8] = b"y\0\x01\x01";

/// All bytes that a command gets if it was done and has no text.
pub const DONE: &[u8] = b"y\0\x01\0g\0\x01\0";

/// The text for bob while the owner holds the lock.
pub const DENIED: &[u8] = b"s\0\x1edenied: window 0 locked by own";

/// The last frame that a client or a window gets, after `quit`.
pub const GONE_QUIT: &[u8] = b"g\0\x01\x04";

/// All bytes that a window gets: its number, the typing that rights allowed, and GONE.
pub const ALL_INPUT: &[u8] = b"y\0\x01\0i\0\x01oi\0\x01xi\0\x01zi\0\x01pg\0\x01\x04";

pub const ALL_INPUT_1: &[u8] = b"y\0\x01\x01i\0\x01qg\0\x01\x04";
