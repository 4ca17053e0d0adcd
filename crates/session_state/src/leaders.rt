//! The text of a user's leaders.

ghost use Rattle.std.specs.Prelude.{◌≡◌, ◌++◌, OnOk, OnErr, IfOk, codes, map};
ghost use Rattle.acl.specs.Names.{name_of};
ghost use Rattle.session_model.specs.Texts.{behind, leaders_text, group_text};
ghost use Rattle.session_state.specs.Leaders.{SaysLeaders};

use crate::state::State;
use acl::UserId;
use session_model::Bytes;
use std::alloc::AllocError;

/// Appends bytes.
fn push_bytes(bytes: &[u8], out: &mut Vec<u8>) -> Result<(), AllocError>
    ensures { OnOk result (out.new.items ≡ out.old.items ++ bytes.now) }
{
    out.extend_from_slice(bytes)
}

/// Appends names, each after a comma.
fn push_others(leaders: &[UserId], out: &mut Vec<u8>) -> Result<(), AllocError>
    ensures { OnOk result (out.new.items
        ≡ out.old.items ++ behind (codes ",") (map name_of leaders.now)) }
{
    for leader in leaders {
        push_bytes(b",", out)?;
        push_bytes(leader.as_bytes(), out)?;
    }
    Ok(())
}

/// Appends names with commas between them, or `none`.
fn push_leaders(leaders: &[UserId], out: &mut Vec<u8>) -> Result<(), AllocError>
    ensures { OnOk result (out.new.items ≡ out.old.items ++ leaders_text leaders.now) }
{
    match leaders {
        [] => push_bytes(b"none", out),
        [first, rest @ ..] => {
            push_bytes(first.as_bytes(), out)?;
            push_others(rest, out)
        }
    }
}

/// Appends the parts of a user's line of leaders.
fn push_group_parts(user: UserId, leaders: &[UserId], out: &mut Vec<u8>) -> Result<(), AllocError>
    ensures { OnOk result (out.new.items ≡ out.old.items ++ group_text user leaders.now) }
{
    push_bytes(user.as_bytes(), out)?;
    push_bytes(b": ", out)?;
    push_leaders(leaders, out)
}

/// Appends a user and their leaders, as `bob: ann,eve` or `bob: none`.
pub fn push_group(user: UserId, leaders: &[UserId], out: &mut Vec<u8>) -> Result<(), AllocError>
    ensures ok { OnOk result (out.new.items ≡ out.old.items ++ group_text user leaders.now) }
    ensures err { OnErr result (out.new.items ≡ out.old.items) }
{
    let mut made = Vec::new(*out.allocator());
    push_group_parts(user, leaders, &mut made)?;
    out.extend_from_slice(&made)
}

/// The text of a user and their leaders.
pub fn leaders_text(state: &State, user: UserId) -> Result<Bytes, AllocError>
    ensures { IfOk result (SaysLeaders state.now user) }
{
    let leaders = state.acl.leaders_of(user);
    let mut text = Vec::new(state.alloc);
    push_group(user, leaders.as_slice(), &mut text)?;
    Ok(Bytes::from_vec(text))
}
