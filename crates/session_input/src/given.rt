//! Commands that keys give.

ghost use Rattle.std.specs.Prelude.{◌≡◌, Option, Some, Err, false, IfOk, option_to_list};
ghost use Rattle.keys.specs.Grammar.{Item};
ghost use Rattle.keys.specs.Kept.{item_list};
ghost use Rattle.session_input.specs.Given.{given, given_line, is_want};

use command_lang::{Command, FaultKind, ParseFault, parse};
use keys::{KeyItem, bound_to};
use std::alloc::{AllocError, Global};

/// Whether a fault is one for want of memory.
fn is_want(fault: &ParseFault) -> bool
    ensures { result ≡ is_want fault.now }
{
    matches!(fault.kind, FaultKind::NoMemory)
}

/// The fault of a line, unless memory was refused.
fn faulty_line(fault: ParseFault) -> Result<Option<Result<Command, ParseFault>>, AllocError>
    ensures { IfOk result (λ order. (order ≡ Some (Err fault)) × (is_want fault ≡ false)) }
{
    if is_want(&fault) {
        return Err(AllocError);
    }
    Ok(Some(Err(fault)))
}

/// The command of a line or its fault, if the line isn't empty.
fn line_command(
    alloc: Global,
    line: &[u8],
) -> Result<Option<Result<Command, ParseFault>>, AllocError>
    ensures { IfOk result (λ order. order ≡ given_line line.now) }
{
    if line.is_empty() {
        return Ok(None);
    }
    match parse(alloc, line) {
        Ok(command) => Ok(Some(Ok(command))),
        Err(fault) => faulty_line(fault),
    }
}

/// The command that an item gives, or the fault of its line, which is the prompt's. There is none if
/// the item gives no command.
pub fn command_given(
    alloc: Global,
    item: Option<KeyItem>,
    line: &[u8],
) -> Result<Option<Result<Command, ParseFault>>, AllocError>
    ensures { IfOk result (λ order. (i : Option Item)
        → item_list item line.now ≡ option_to_list i → order ≡ given i) }
{
    match item {
        Some(KeyItem::Command(key)) => Ok(bound_to(alloc, key)?.map(Ok)),
        Some(KeyItem::Line) => line_command(alloc, line),
        Some(KeyItem::Typed(_)) | Some(KeyItem::Edit) | None => Ok(None),
    }
}
