//! The objects that the items of a list name.

ghost use Rattle.std.specs.Prelude.{◌≡◌, ◌++◌, OnOk, IfOk, IfErr, None, Some, map};
ghost use Rattle.acl.specs.declared.act.Object.TheVariants.{Command};
ghost use Rattle.session_model.specs.Tables.{Tables};
ghost use Rattle.session_model.specs.Naming.{every_command, item_objects, objects_of, every_window};
ghost use Rattle.windows.specs.Standing.{StandFor};
ghost use Rattle.windows.specs.declared.window.Window.{Window};
ghost use Rattle.session_commands.specs.Asked.{window_object, wide, object_named, Names, NamesNothing};

use acl::{CommandName, Object};
use command_lang::{Text, command_named, has_byte, is_wide};
use session_model::{Refusal, WindowsFault};
use std::alloc::{AllocError, Global};
use windows::Windows;

/// Appends all open windows.
fn push_windows(windows: &Windows, objects: &mut Vec<Object>) -> Result<(), AllocError>
    ensures { OnOk result (objects.new.items
        ≡ objects.old.items ++ map window_object windows.now) }
{
    for window in windows.as_slice() {
        objects.push(Object::Window(window.serial))?;
    }
    Ok(())
}

/// Appends each of these commands.
fn push_commands(names: &[CommandName], objects: &mut Vec<Object>) -> Result<(), AllocError>
    ensures { OnOk result (objects.new.items ≡ objects.old.items ++ map Command names.now) }
{
    for name in names {
        objects.push(Object::Command(*name))?;
    }
    Ok(())
}

/// Each open window, and each command.
pub fn every_object(alloc: Global, windows: &Windows) -> Result<Vec<Object>, AllocError>
    ensures { IfOk result (λ objects. (t : Tables) → StandFor t.windows windows.now
        → objects.items ≡ every_window t ++ every_command) }
{
    let mut objects = Vec::new(alloc);
    push_windows(windows, &mut objects)?;
    push_commands(&CommandName::ALL, &mut objects)?;
    Ok(objects)
}

/// Appends what an item of `#` and `?` names: `#` is all windows, `?` all commands.
fn push_wide(windows: &Windows, item: &str, objects: &mut Vec<Object>) -> Result<(), AllocError>
    ensures { OnOk result (objects.new.items ≡ objects.old.items ++ wide windows.now item.now) }
{
    if has_byte(item, b'#') {
        push_windows(windows, objects)?;
    }
    if has_byte(item, b'?') {
        push_commands(&CommandName::ALL, objects)?;
    }
    Ok(())
}

/// The command that an item names by its name or alias, or else the window that it names by its number
/// or title.
fn object_of(windows: &Windows, item: &str) -> Option<Object>
    ensures { (t : Tables) → StandFor t.windows windows.now → result ≡ object_named t item.now }
{
    if let Some(name) = command_named(item) {
        return Some(Object::Command(name));
    }
    let window = windows.by_name(item)?;
    Some(Object::Window(window.serial))
}

/// Appends the objects that an item names.
fn push_item(windows: &Windows, item: &str, objects: &mut Vec<Object>) -> Result<(), Refusal>
    ensures ok { OnOk result ((t : Tables) → StandFor t.windows windows.now
        → Names (item_objects t item.now) objects.old.items objects.new.items) }
    ensures err { IfErr result (λ r. NamesNothing r ((t : Tables) → StandFor t.windows windows.now
        → item_objects t item.now ≡ None)) }
{
    if is_wide(item) {
        push_wide(windows, item, objects)?;
        return Ok(());
    }
    let Some(object) = object_of(windows, item) else {
        return Err(Refusal::Windows(WindowsFault::NoSuchWindow));
    };
    objects.push(object)?;
    Ok(())
}

/// The objects that the items of a list name. An item that names nothing is `NoSuchWindow`.
pub fn objects_of(alloc: Global, windows: &Windows, list: &[Text]) -> Result<Vec<Object>, Refusal>
    ensures ok { IfOk result (λ objects. (t : Tables) → StandFor t.windows windows.now
        → objects_of t list.now ≡ Some objects.items) }
    ensures err { IfErr result (λ r. NamesNothing r ((t : Tables) → StandFor t.windows windows.now
        → objects_of t list.now ≡ None)) }
{
    let mut objects = Vec::new(alloc);
    for item in list {
        push_item(windows, item.as_str(), &mut objects)?;
    }
    Ok(objects)
}
