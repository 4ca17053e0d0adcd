//! The word of a reply.

ghost use Rattle.std.specs.Prelude.{◌≡◌, ◌++◌, [], OnOk, codes, decimal, map, option_map};
ghost use Rattle.session.specs.refusal.Refusal.TheVariants as refusal;
ghost use Rattle.acl.specs.Names.{name_of};
ghost use Rattle.session.specs.Texts.{behind};
ghost use Rattle.line_fields.specs.Cutting.{words};
ghost use Rattle.line_fields.specs.Parts.{colon, comma, field};
ghost use Rattle.trail_lines.specs.Replies.{leaders_text, with_leader, leaders_of, leaders_in, denied_then, denied_of};
ghost use Rattle.trail_lines.specs.Replies.{denied_at, entry_in, lock_denied_in, acl_fault, windows_fault};
ghost use Rattle.trail_lines.specs.Replies.{regions_fault, line_fault, line_in, why_text, plain_in, caused_in, why_in};
ghost use Rattle.trail_lines.specs.Replies.{reply_text, finished_in, reply_in};

use acl::{AclFault, Edition, Leaders, Object, UserId};
use command_lang::{FaultKind, ParseFault};
use hub::{Ending, Finished};
use line_fields::parts::{mark, push_command, push_name, read_bit, read_object, user_at};
use line_fields::{cut, next_word, read_u8, read_u64, u8_at, u32_at, u64_at};
use regions::RegionFault;
use session::{Denied, EntryDenied, LockDenied, Refusal, WindowsFault, push_decimal};
use std::alloc::AllocError;

/// Appends a number and a colon.
fn push_number(number: u64, out: &mut Vec<u8>) -> Result<(), AllocError>
    ensures { OnOk result (out.new.items ≡ out.old.items ++ field colon (decimal number) []) }
{
    push_decimal(number, out)?;
    out.extend_from_slice(b":")
}

/// Appends names, each after a comma.
fn push_others(others: &[UserId], out: &mut Vec<u8>) -> Result<(), AllocError>
    ensures { OnOk result (out.new.items ≡ out.old.items ++ behind (codes ",") (map name_of others.now)) }
{
    for leader in others {
        out.extend_from_slice(b",")?;
        push_name(*leader, out)?;
    }
    Ok(())
}

/// Appends a user's leaders, with commas between; `-` for none.
fn push_leaders(leaders: &[UserId], out: &mut Vec<u8>) -> Result<(), AllocError>
    ensures { OnOk result (out.new.items ≡ out.old.items ++ leaders_text leaders.now) }
{
    match leaders {
        [first, others @ ..] => {
            push_name(*first, out)?;
            push_others(others, out)
        }
        [] => out.extend_from_slice(b"-"),
    }
}

/// The leaders with one more. None if there are eight, or if the user is one of them.
fn with_leader(leaders: Leaders, user: UserId) -> Option<Leaders>
    ensures { result ≡ with_leader leaders user }
{
    leaders.with(Edition::Second, Some(user))
}

/// The leaders whose names the words between commas are.
fn read_names(word: &[u8]) -> Option<Leaders>
    ensures { result ≡ leaders_of (words comma word.now) [] }
{
    let mut leaders = Leaders::none();
    let mut rest = Some(word);
    'names: while let Some(bytes) = rest {
        let (name, behind) = next_word(bytes, b',');
        leaders = with_leader(leaders, UserId::of(name)?)?;
        rest = behind;
    }
    Some(leaders)
}

/// A user's leaders.
fn read_leaders(word: &[u8]) -> Option<Leaders>
    ensures { result ≡ leaders_in word.now }
{
    if word == b"-".as_slice() {
        return Some(Leaders::none());
    }
    read_names(word)
}

/// Appends what a bit was missing on, and a colon.
fn push_denied(on: Denied, out: &mut Vec<u8>) -> Result<(), AllocError>
    ensures { OnOk result (out.new.items ≡ out.old.items ++ denied_then on []) }
{
    match on {
        Denied::Window { serial, number } => {
            push_number(u64::from(serial), out)?;
            push_number(u64::from(number), out)
        }
        Denied::Command(command) => {
            push_command(command, out)?;
            out.extend_from_slice(b":-:")
        }
    }
}

/// What a bit was missing on: an object, and a window's number.
fn denied_of(object: Object, word: &[u8]) -> Option<Denied>
    ensures { result ≡ denied_of object word.now }
{
    match object {
        Object::Window(serial) => read_u8(word).map(|number| Denied::Window { serial, number }),
        Object::Command(command) => Some(Denied::Command(command)),
    }
}

/// What a bit was missing on, and the bytes after it.
fn denied_at(bytes: &[u8]) -> Option<(Denied, &[u8])>
    ensures { option_map (λ p. (p.0, p.1.now)) result ≡ denied_at bytes.now }
{
    let (object, rest) = cut(bytes, b':')?;
    let object = read_object(object)?;
    let (number, rest) = cut(rest, b':')?;
    Some((denied_of(object, number)?, rest))
}

/// `USER:BIT:OBJECT:NUMBER:LEADERS`
fn read_entry_denied(rest: &[u8]) -> Option<Refusal>
    ensures { result ≡ entry_in rest.now }
{
    let (user, rest) = user_at(rest, b':')?;
    let (bit, rest) = cut(rest, b':')?;
    let bit = read_bit(bit)?;
    let (on, leaders) = denied_at(rest)?;
    let leaders = read_leaders(leaders)?;
    Some(Refusal::EntryDenied(EntryDenied {
        user,
        bit,
        on,
        leaders,
    }))
}

/// `WINDOW:NUMBER:USER`
fn read_lock_denied(rest: &[u8]) -> Option<Refusal>
    ensures { result ≡ lock_denied_in rest.now }
{
    let (serial, rest) = u32_at(rest, b':')?;
    let (number, holder) = u8_at(rest, b':')?;
    let holder = UserId::of(holder)?;
    Some(Refusal::LockDenied(LockDenied {
        serial,
        number,
        holder,
    }))
}

/// The fault of the lists that has the number.
fn acl_fault(number: u8) -> Option<AclFault>
    ensures { result ≡ acl_fault number }
{
    match number {
        1 => Some(AclFault::UnknownUser),
        2 => Some(AclFault::OwnerKept),
        3 => Some(AclFault::TooManyUsers),
        4 => Some(AclFault::ReservedName),
        5 => Some(AclFault::NoSuchGroup),
        6 => Some(AclFault::NoMemory),
        7 => Some(AclFault::TooManyGroups),
        _ => None,
    }
}

/// The fault of the windows that has the number.
fn windows_fault(number: u8) -> Option<WindowsFault>
    ensures { result ≡ windows_fault number }
{
    match number {
        1 => Some(WindowsFault::Full),
        2 => Some(WindowsFault::NoSuchWindow),
        3 => Some(WindowsFault::NumberTaken),
        4 => Some(WindowsFault::BadTitle),
        5 => Some(WindowsFault::NoMemory),
        _ => None,
    }
}

/// The fault of a layout that has the number.
fn regions_fault(number: u8) -> Option<RegionFault>
    ensures { result ≡ regions_fault number }
{
    match number {
        1 => Some(RegionFault::TooSmall),
        2 => Some(RegionFault::TooMany),
        3 => Some(RegionFault::LastRegion),
        4 => Some(RegionFault::NoMemory),
        _ => None,
    }
}

/// The fault of a line that has the number.
fn line_fault(number: u8) -> Option<FaultKind>
    ensures { result ≡ line_fault number }
{
    match number {
        1 => Some(FaultKind::UnknownCommand),
        2 => Some(FaultKind::MissingWord),
        3 => Some(FaultKind::ExtraWord),
        4 => Some(FaultKind::BadNumber),
        5 => Some(FaultKind::BadBits),
        6 => Some(FaultKind::BadQuote),
        7 => Some(FaultKind::TooLong),
        8 => Some(FaultKind::NoMemory),
        9 => Some(FaultKind::BadWord),
        _ => None,
    }
}

/// `NUMBER:PLACE`
fn read_line_fault(rest: &[u8]) -> Option<Refusal>
    ensures { result ≡ line_in rest.now }
{
    let (number, place) = u8_at(rest, b':')?;
    let kind = line_fault(number)?;
    let place = read_u64(place)? as usize;
    Some(Refusal::Line(ParseFault { kind, place }))
}

/// Appends an entry that denies a bit.
fn push_entry_denied(denied: &EntryDenied, out: &mut Vec<u8>) -> Result<(), AllocError>
    ensures { OnOk result (out.new.items ≡ out.old.items ++ why_text (refusal.EntryDenied denied.now)) }
{
    out.extend_from_slice(b"entry:")?;
    push_name(denied.user, out)?;
    out.extend_from_slice(&[b':', mark(denied.bit), b':'])?;
    push_denied(denied.on, out)?;
    push_leaders(denied.leaders.as_slice(), out)
}

/// Appends a lock that another user holds.
fn push_lock_denied(denied: &LockDenied, out: &mut Vec<u8>) -> Result<(), AllocError>
    ensures { OnOk result (out.new.items ≡ out.old.items ++ why_text (refusal.LockDenied denied.now)) }
{
    out.extend_from_slice(b"lock:")?;
    push_number(u64::from(denied.serial), out)?;
    push_number(u64::from(denied.number), out)?;
    push_name(denied.holder, out)
}

/// Appends a fault of a line.
fn push_line_fault(fault: ParseFault, out: &mut Vec<u8>) -> Result<(), AllocError>
    ensures { OnOk result (out.new.items ≡ out.old.items ++ why_text (refusal.Line fault)) }
{
    out.extend_from_slice(b"line:")?;
    push_number(u64::from(fault.number()), out)?;
    push_decimal(fault.place() as u64, out)
}

/// Appends what a fault is of, and its number.
fn push_numbered(kind: &[u8], number: u8, out: &mut Vec<u8>) -> Result<(), AllocError>
    ensures { OnOk result (out.new.items ≡ out.old.items ++ kind.now ++ decimal number) }
{
    out.extend_from_slice(kind)?;
    push_decimal(u64::from(number), out)
}

/// Appends why a step was refused.
fn push_why(refusal: &Refusal, out: &mut Vec<u8>) -> Result<(), AllocError>
    ensures { OnOk result (out.new.items ≡ out.old.items ++ why_text refusal.now) }
{
    match refusal {
        Refusal::EntryDenied(denied) => push_entry_denied(denied, out),
        Refusal::LockDenied(denied) => push_lock_denied(denied, out),
        Refusal::NotMultiuser => out.extend_from_slice(b"multiuser"),
        Refusal::UnknownUser => out.extend_from_slice(b"user"),
        Refusal::NoWindow => out.extend_from_slice(b"window"),
        Refusal::TooManyClients => out.extend_from_slice(b"clients"),
        Refusal::NoMemory => out.extend_from_slice(b"memory"),
        Refusal::BadSize => out.extend_from_slice(b"size"),
        Refusal::Acl(fault) => push_numbered(b"acl:", fault.number(), out),
        Refusal::Windows(fault) => push_numbered(b"windows:", fault.number(), out),
        Refusal::Line(fault) => push_line_fault(*fault, out),
        Refusal::Regions(fault) => push_numbered(b"regions:", fault.number(), out),
    }
}

/// A refusal of one word.
fn read_plain(word: &[u8]) -> Option<Refusal>
    ensures { result ≡ plain_in word.now }
{
    if word == b"multiuser".as_slice() {
        Some(Refusal::NotMultiuser)
    } else if word == b"user".as_slice() {
        Some(Refusal::UnknownUser)
    } else if word == b"window".as_slice() {
        Some(Refusal::NoWindow)
    } else if word == b"clients".as_slice() {
        Some(Refusal::TooManyClients)
    } else if word == b"memory".as_slice() {
        Some(Refusal::NoMemory)
    } else if word == b"size".as_slice() {
        Some(Refusal::BadSize)
    } else {
        None
    }
}

/// A refusal whose cause follows its first word.
fn read_caused(word: &[u8], rest: &[u8]) -> Option<Refusal>
    ensures { result ≡ caused_in word.now rest.now }
{
    if word == b"entry".as_slice() {
        read_entry_denied(rest)
    } else if word == b"lock".as_slice() {
        read_lock_denied(rest)
    } else if word == b"acl".as_slice() {
        Some(Refusal::Acl(acl_fault(read_u8(rest)?)?))
    } else if word == b"windows".as_slice() {
        Some(Refusal::Windows(windows_fault(read_u8(rest)?)?))
    } else if word == b"regions".as_slice() {
        Some(Refusal::Regions(regions_fault(read_u8(rest)?)?))
    } else if word == b"line".as_slice() {
        read_line_fault(rest)
    } else {
        None
    }
}

/// Why a step was refused.
#[tactic(auto, unfolding(crate::specs::Replies::why_in))]
fn read_why(word: &[u8]) -> Option<Refusal>
    ensures { result ≡ why_in word.now }
{
    if let Some(refusal) = read_plain(word) {
        return Some(refusal);
    }
    let (word, rest) = cut(word, b':')?;
    read_caused(word, rest)
}

/// Appends the reply to a step that was done.
fn push_finished(finished: &Finished, out: &mut Vec<u8>) -> Result<(), AllocError>
    ensures { OnOk result (out.new.items ≡ out.old.items ++ reply_text (Ok finished.now)) }
{
    out.extend_from_slice(b"ok:")?;
    push_number(finished.taken as u64, out)?;
    push_number(u64::from(finished.made), out)?;
    push_decimal(u64::from(finished.number), out)
}

/// Appends a reply.
pub fn push_reply(reply: &Ending, out: &mut Vec<u8>) -> Result<(), AllocError>
    ensures { OnOk result (out.new.items ≡ out.old.items ++ reply_text reply.now) }
{
    match reply {
        Ok(finished) => push_finished(finished, out),
        Err(refusal) => {
            out.extend_from_slice(b"no:")?;
            push_why(refusal, out)
        }
    }
}

/// `TAKEN:MADE:NUMBER`
fn read_finished(rest: &[u8]) -> Option<Finished>
    ensures { result ≡ finished_in rest.now }
{
    let (taken, rest) = u64_at(rest, b':')?;
    let (made, number) = u32_at(rest, b':')?;
    let number = read_u8(number)?;
    Some(Finished {
        taken: taken as usize,
        made,
        number,
    })
}

/// The reply that a word says.
#[tactic(auto, unfolding(crate::specs::Replies::reply_in))]
pub fn read_reply(word: &[u8]) -> Option<Ending>
    ensures { result ≡ reply_in word.now }
{
    let (word, rest) = cut(word, b':')?;
    if word == b"ok".as_slice() {
        Some(Ok(read_finished(rest)?))
    } else if word == b"no".as_slice() {
        Some(Err(read_why(rest)?))
    } else {
        None
    }
}
