//! The texts of refusals.

ghost use Rattle.std.specs.Prelude.{◌≡◌, ◌++◌, decimal, OnOk, OnErr};
ghost use Rattle.std.specs.List.{flat_map};
ghost use Rattle.acl.specs.Names.{name_of};
ghost use Rattle.session_model.specs.Texts.{letter, denied_text, missing_text, leader_text};
ghost use Rattle.session_model.specs.Texts.{entry_text, lock_text, text_of};

use crate::refusal::{Denied, EntryDenied, LockDenied, Refusal};
use acl::{Bit, Leaders, UserId};
use command_lang::name_text;
use itoa::Buffer;
use std::alloc::AllocError;

/// Appends a number in decimal. `AllocError` if memory is refused; nothing has changed then.
pub fn push_decimal(number: u64, out: &mut Vec<u8>) -> Result<(), AllocError>
    ensures ok { OnOk result (out.new.items ≡ out.old.items ++ decimal number) }
    ensures err { OnErr result (out.new.items ≡ out.old.items) }
{
    let mut digits = Buffer::new();
    out.extend_from_slice(digits.format(number).as_bytes())
}

/// Appends words and a number.
fn push_numbered(words: &[u8], number: u8, out: &mut Vec<u8>) -> Result<(), AllocError>
    ensures { OnOk result (out.new.items ≡ out.old.items ++ (words.now ++ decimal number)) }
{
    out.extend_from_slice(words)?;
    push_decimal(u64::from(number), out)
}

/// Appends a user's name.
fn push_name(user: UserId, out: &mut Vec<u8>) -> Result<(), AllocError>
    ensures { OnOk result (out.new.items ≡ out.old.items ++ name_of user) }
{
    out.extend_from_slice(user.as_bytes())
}

/// The letter of a bit.
fn letter(bit: Bit) -> &'static [u8]
    ensures { result.now ≡ letter bit }
{
    match bit {
        Bit::Read => b"r",
        Bit::Write => b"w",
        Bit::Execute => b"x",
    }
}

/// Appends the object on which a bit is missing; a window is named by its number.
fn push_denied(on: Denied, out: &mut Vec<u8>) -> Result<(), AllocError>
    ensures { OnOk result (out.new.items ≡ out.old.items ++ denied_text on) }
{
    match on {
        Denied::Window { number, .. } => push_numbered(b"window ", number, out),
        Denied::Command(command) => out.extend_from_slice(name_text(command).as_bytes()),
    }
}

/// Appends a user and the bit that their entry lacks, such as `bob -w`.
fn push_missing(user: UserId, bit: Bit, out: &mut Vec<u8>) -> Result<(), AllocError>
    ensures { OnOk result (out.new.items ≡ out.old.items ++ missing_text user bit) }
{
    push_name(user, out)?;
    out.extend_from_slice(b" -")?;
    out.extend_from_slice(letter(bit))
}

/// Appends the leaders and the bit that their entries lack too.
fn push_leaders(leaders: &Leaders, bit: Bit, out: &mut Vec<u8>) -> Result<(), AllocError>
    ensures { OnOk result (out.new.items
        ≡ out.old.items ++ flat_map (leader_text bit) leaders.now) }
{
    for leader in leaders.as_slice() {
        out.extend_from_slice(b"; leader ")?;
        push_missing(*leader, bit, out)?;
    }
    Ok(())
}

/// Appends the text of a missing entry.
fn push_entry(denied: &EntryDenied, out: &mut Vec<u8>) -> Result<(), AllocError>
    ensures { OnOk result (out.new.items ≡ out.old.items ++ entry_text denied.now) }
{
    out.extend_from_slice(b"denied: ")?;
    out.extend_from_slice(letter(denied.bit))?;
    out.extend_from_slice(b" on ")?;
    push_denied(denied.on, out)?;
    out.extend_from_slice(b": entry ")?;
    push_missing(denied.user, denied.bit, out)?;
    push_leaders(&denied.leaders, denied.bit, out)
}

/// Appends the text of a lock that another user holds.
fn push_lock(denied: &LockDenied, out: &mut Vec<u8>) -> Result<(), AllocError>
    ensures { OnOk result (out.new.items ≡ out.old.items ++ lock_text denied.now) }
{
    push_numbered(b"denied: window ", denied.number, out)?;
    out.extend_from_slice(b" locked by ")?;
    push_name(denied.holder, out)
}

/// Appends the text of a refusal; a part of it may be appended if memory is refused.
fn push_refusal(refusal: &Refusal, out: &mut Vec<u8>) -> Result<(), AllocError>
    ensures { OnOk result (out.new.items ≡ out.old.items ++ text_of refusal.now) }
{
    match refusal {
        Refusal::EntryDenied(denied) => push_entry(denied, out),
        Refusal::LockDenied(denied) => push_lock(denied, out),
        Refusal::NotMultiuser => out.extend_from_slice(b"not in multiuser mode"),
        Refusal::UnknownUser => out.extend_from_slice(b"unknown user"),
        Refusal::NoWindow => out.extend_from_slice(b"no window"),
        Refusal::TooManyClients => out.extend_from_slice(b"too many clients"),
        Refusal::NoMemory => out.extend_from_slice(b"out of memory"),
        Refusal::BadSize => out.extend_from_slice(b"bad size"),
        Refusal::Acl(fault) => push_numbered(b"acl: ", fault.number(), out),
        Refusal::Windows(fault) => push_numbered(b"windows: ", fault.number(), out),
        Refusal::Line(fault) => {
            push_numbered(b"line: ", fault.number(), out)?;
            out.extend_from_slice(b" at ")?;
            push_decimal(fault.place() as u64, out)
        }
        Refusal::Regions(fault) => push_numbered(b"regions: ", fault.number(), out),
    }
}

// It stands in this crate, beside its type, since a method can't be in another crate.
impl Refusal {
    /// Appends the text that names the cause. `AllocError` if memory is refused; nothing has
    /// changed then.
    pub fn text(&self, out: &mut Vec<u8>) -> Result<(), AllocError>
        ensures ok { OnOk result (out.new.items ≡ out.old.items ++ text_of self.now) }
        ensures err { OnErr result (out.new.items ≡ out.old.items) }
    {
        let mut made = Vec::new(*out.allocator());
        push_refusal(self, &mut made)?;
        out.extend_from_slice(&made)
    }
}
