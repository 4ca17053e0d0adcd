//! Titles of windows.

ghost use Rattle.std.specs.Prelude.{◌≡◌, ◌++◌, OnOk, codes, decimal, option_map};
ghost use Rattle.trail_log.specs.Lines.{into_text, on_text, window_text};
ghost use Rattle.trail_log.specs.Naming.{title_in, titled, titles_after, without};

use acl::Act;
use session::{Bytes, push_decimal};
use std::alloc::AllocError;

/// A window of this serial with its title.
#[derive(Drop)]
pub struct Titled {
    window: u32,
    title: Bytes,
}

impl Titled {
    /// The window's serial.
    pub fn window(&self) -> u32
        ensures { result ≡ self.now.window }
    {
        self.window
    }

    /// The window's title.
    pub fn title(&self) -> &[u8]
        ensures { result.now ≡ self.now.title }
    {
        self.title.as_slice()
    }
}

/// Forgets the title of a window.
pub fn forget(titles: &mut Vec<Titled>, window: u32)
    ensures { titles.new.items ≡ without window titles.old.items }
{
    titles.retain(|titled| titled.window != window);
}

/// Gives a window a title in place of the one that it had.
pub fn set_title(titles: &mut Vec<Titled>, window: u32, title: Bytes) -> Result<(), AllocError>
    ensures { OnOk result (titles.new.items ≡ titled window title titles.old.items) }
{
    forget(titles, window);
    titles.push(Titled { window, title })?;
    Ok(())
}

/// The titles after an act: those of windows that it leaves open.
pub fn follow_titles(titles: &mut Vec<Titled>, act: &Act)
    ensures { titles.new.items ≡ titles_after act.now titles.old.items }
{
    if let Act::Closed { window } = *act {
        forget(titles, window);
    }
}

/// The title of a window, if it is known.
pub fn title_in(titles: &[Titled], window: u32) -> Option<&[u8]>
    ensures { option_map (λ t. t.now) result ≡ title_in titles.now window }
{
    for titled in titles {
        if titled.window == window {
            return Some(titled.title.as_slice());
        }
    }
    None
}

/// Appends a word and a window's serial.
fn push_serial(word: &[u8], window: u32, out: &mut Vec<u8>) -> Result<(), AllocError>
    ensures { OnOk result (out.new.items ≡ out.old.items ++ (word.now ++ decimal window)) }
{
    out.extend_from_slice(word)?;
    push_decimal(u64::from(window), out)
}

/// Appends a title, and the serial of its window.
pub fn push_titled(title: &[u8], window: u32, out: &mut Vec<u8>) -> Result<(), AllocError>
    ensures { OnOk result (out.new.items ≡ out.old.items
        ++ (title.now ++ (codes " (window " ++ (decimal window ++ codes ")")))) }
{
    out.extend_from_slice(title)?;
    push_serial(b" (window ", window, out)?;
    out.extend_from_slice(b")")
}

/// Appends what a window is called.
pub fn push_window(titles: &[Titled], window: u32, out: &mut Vec<u8>) -> Result<(), AllocError>
    ensures { OnOk result (out.new.items ≡ out.old.items ++ window_text titles.now window) }
{
    match title_in(titles, window) {
        Some(title) => push_titled(title, window, out),
        None => push_serial(b"window ", window, out),
    }
}

/// Appends the window on which a command acts, if it does.
pub fn push_on(titles: &[Titled], window: Option<u32>, out: &mut Vec<u8>) -> Result<(), AllocError>
    ensures { OnOk result (out.new.items ≡ out.old.items ++ on_text titles.now window) }
{
    match window {
        Some(window) => {
            out.extend_from_slice(b" on ")?;
            push_window(titles, window, out)
        }
        None => Ok(()),
    }
}

/// Appends the window into which bytes go, or that they go into none.
pub fn push_into(
    titles: &[Titled],
    window: Option<u32>,
    out: &mut Vec<u8>,
) -> Result<(), AllocError>
    ensures { OnOk result (out.new.items ≡ out.old.items ++ into_text titles.now window) }
{
    match window {
        Some(window) => {
            out.extend_from_slice(b" into ")?;
            push_window(titles, window, out)
        }
        None => out.extend_from_slice(b" into no window"),
    }
}
