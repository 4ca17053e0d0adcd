//! Who typed the frames that wait for a window.

ghost use Rattle.std.specs.Prelude.{◌≡◌, ◌≤◌, ◌&&◌, IfSome, None, length, map, take};
ghost use Rattle.server_sending.specs.Typists.{HasNoTypist, IsNextTypist, comes_before, follows, leads};
ghost use Rattle.server_sending.specs.Written.{AreWithin, frames_of_others, moved_up, unbegun, without_frames};

use acl::UserId;

/// A frame that a user typed, by its place among the bytes that wait.
#[derive(Clone, Copy)]
pub struct TypedFrame {
    pub user: UserId,
    pub from: usize,
    pub len: usize,
}

/// How many bytes and how many frames are left.
#[derive(Clone, Copy)]
pub struct Left {
    pub bytes: usize,
    pub frames: usize,
}

// The frames' places, after this many bytes were written.
fn move_up(frames: &mut [TypedFrame], written: usize)
    ensures { frames.new ≡ map (moved_up written) frames.old }
{
    for i in 0..frames.len() {
        frames[i].from = frames[i].from.saturating_sub(written);
    }
}

/// This many bytes were written: frames that were begun aren't kept any more.
pub fn forget_begun(frames: &mut Vec<TypedFrame>, written: usize)
    ensures { frames.new.items ≡ unbegun written frames.old.items }
{
    frames.retain(|frame| frame.from >= written);
    move_up(frames.as_mut_slice(), written);
}

// Whether the first user's name comes before the second one's.
fn comes_before(first: UserId, second: UserId) -> bool
    ensures { result ≡ comes_before first second }
{
    first.as_bytes().cmp(second.as_bytes()).is_lt()
}

// Whether a user's name follows this one's, if there is one.
fn follows(last: Option<UserId>, user: UserId) -> bool
    ensures { result ≡ follows last user }
{
    match last {
        Some(last) => comes_before(last, user),
        None => true,
    }
}

// Whether a user's name comes before this one's, if there is one.
fn leads(user: UserId, next: Option<UserId>) -> bool
    ensures { result ≡ leads user next }
{
    match next {
        Some(next) => comes_before(user, next),
        None => true,
    }
}

// Whether a user's name follows one name and comes before another one, as far as these are given.
fn is_between(last: Option<UserId>, user: UserId, next: Option<UserId>) -> bool
    ensures { result ≡ (follows last user && leads user next) }
{
    follows(last, user) && leads(user, next)
}

/// Of the users who typed frames, the one whose name follows this one's.
pub fn typist_after(frames: &[TypedFrame], last: Option<UserId>) -> Option<UserId>
    ensures some { IfSome result (IsNextTypist last frames.now) }
    ensures none { result ≡ None → HasNoTypist last frames.now }
{
    let mut next: Option<UserId> = None;
    for frame in frames {
        if is_between(last, frame.user, next) {
            next = Some(frame.user);
        }
    }
    next
}

/// Takes out the frames of a user: what stays is moved to the front.
pub fn drop_frames(bytes: &mut [u8], frames: &mut [TypedFrame], user: UserId) -> Left
    requires { AreWithin 0 frames.old (length bytes.old) }
    ensures bytes { take result.bytes bytes.new ≡ without_frames user 0 frames.old bytes.old }
    ensures frames { take result.frames frames.new ≡ frames_of_others user 0 frames.old }
    ensures within { (result.bytes ≤ length bytes.new) × (result.frames ≤ length frames.new) }
{
    let len = bytes.len();
    let mut at = 0;
    let mut gone = 0;
    let mut kept = 0;
    'frames: for i in 0..frames.len() {
        let frame = frames[i];
        let end = frame.from + frame.len;
        if frame.user == user {
            bytes.copy_within(at..frame.from, at - gone);
            gone += frame.len;
            at = end;
            continue;
        }
        bytes.copy_within(at..end, at - gone);
        frames[kept] = TypedFrame {
            from: frame.from - gone,
            ..frame
        };
        kept += 1;
        at = end;
    }
    bytes.copy_within(at.., at - gone);
    Left {
        bytes: len - gone,
        frames: kept,
    }
}
