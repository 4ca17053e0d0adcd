//! The items of lists: windows and clients.

ghost use Rattle.std.specs.Prelude.{◌≡◌, ◌++◌, OnOk, OnErr};
ghost use Rattle.session_state.specs.Items.{separator, window_line, number_or_dash, client_line};

use acl::UserId;
use session_model::push_decimal;
use std::alloc::AllocError;

/// Appends the separator before an item of a list: two blanks, but nothing before the first item.
pub fn push_separator(is_first: bool, out: &mut Vec<u8>) -> Result<(), AllocError>
    ensures ok { OnOk result (out.new.items ≡ out.old.items ++ separator is_first) }
    ensures err { OnErr result (out.new.items ≡ out.old.items) }
{
    if is_first {
        return Ok(());
    }
    out.extend_from_slice(b"  ")
}

/// Appends bytes.
fn push_bytes(bytes: &[u8], out: &mut Vec<u8>) -> Result<(), AllocError>
    ensures { OnOk result (out.new.items ≡ out.old.items ++ bytes.now) }
{
    out.extend_from_slice(bytes)
}

/// Appends the parts of a window's item.
fn push_window_parts(
    number: u8,
    is_in_focus: bool,
    is_readable: bool,
    title: &[u8],
    out: &mut Vec<u8>,
) -> Result<(), AllocError>
    ensures { OnOk result (out.new.items
        ≡ out.old.items ++ window_line number is_in_focus is_readable title.now) }
{
    push_decimal(u64::from(number), out)?;
    push_bytes(if is_in_focus { b"* " } else { b" " }, out)?;
    push_bytes(if is_readable { title } else { b"?" }, out)
}

/// Appends a window's item: its number, `*` if it is in focus, a blank and its title, or `?` if the
/// title isn't readable.
pub fn push_window(
    number: u8,
    is_in_focus: bool,
    is_readable: bool,
    title: &[u8],
    out: &mut Vec<u8>,
) -> Result<(), AllocError>
    ensures ok { OnOk result (out.new.items
        ≡ out.old.items ++ window_line number is_in_focus is_readable title.now) }
    ensures err { OnErr result (out.new.items ≡ out.old.items) }
{
    let mut made = Vec::new(*out.allocator());
    push_window_parts(number, is_in_focus, is_readable, title, &mut made)?;
    out.extend_from_slice(&made)
}

/// Appends a number, or `-` if there is none.
fn push_number(number: Option<u8>, out: &mut Vec<u8>) -> Result<(), AllocError>
    ensures { OnOk result (out.new.items ≡ out.old.items ++ number_or_dash number) }
{
    match number {
        Some(number) => push_decimal(u64::from(number), out),
        None => push_bytes(b"-", out),
    }
}

/// Appends the parts of a client's item.
fn push_client_parts(
    serial: u32,
    user: UserId,
    focus: Option<u8>,
    out: &mut Vec<u8>,
) -> Result<(), AllocError>
    ensures { OnOk result (out.new.items ≡ out.old.items ++ client_line serial user focus) }
{
    push_decimal(u64::from(serial), out)?;
    push_bytes(b" ", out)?;
    push_bytes(user.as_bytes(), out)?;
    push_bytes(b" ", out)?;
    push_number(focus, out)
}

/// Appends a client's item: its serial, its user and the number of the window in focus, or `-`,
/// with blanks between.
pub fn push_client(
    serial: u32,
    user: UserId,
    focus: Option<u8>,
    out: &mut Vec<u8>,
) -> Result<(), AllocError>
    ensures ok { OnOk result (out.new.items ≡ out.old.items ++ client_line serial user focus) }
    ensures err { OnErr result (out.new.items ≡ out.old.items) }
{
    let mut made = Vec::new(*out.allocator());
    push_client_parts(serial, user, focus, &mut made)?;
    out.extend_from_slice(&made)
}
