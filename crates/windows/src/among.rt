//! Windows among others, by their numbers.

ghost use Rattle.std.specs.Prelude.{◌≡◌, filter, option_copied};
ghost use Rattle.windows.specs.Among.{is_among, nearer, nearest};

use crate::window::Window;

/// The windows that are looked at.
#[derive(Clone, Copy)]
pub(crate) enum Among<'a> {
    All,
    /// Those with a number above this one; none for `None`.
    Above(Option<u8>),
    /// Those with a number below this one; none for `None`.
    Below(Option<u8>),
    Titled(&'a str),
}

/// Which of these windows is looked for: the one with the lowest or the highest number.
#[derive(Clone, Copy)]
pub(crate) enum End {
    /// The one with the lowest number.
    Lowest,
    Highest,
}

/// Whether the window is looked at.
fn is_among(among: Among, window: &Window) -> bool
    ensures { result ≡ is_among among.entry window.now }
{
    match among {
        Among::All => true,
        Among::Above(Some(number)) => number < window.number,
        Among::Below(Some(number)) => window.number < number,
        Among::Above(None) | Among::Below(None) => false,
        Among::Titled(title) => window.title.as_str() == title,
    }
}

/// Of a window and one that was found after it, the one that is nearer to the end; `window` if both
/// have the same number.
fn nearer<'a>(end: End, window: &'a Window, found: Option<&'a Window>) -> Option<&'a Window>
    ensures { option_copied result ≡ nearer end window.now (option_copied found.entry) }
{
    match found {
        None => Some(window),
        Some(other) => {
            let is_other = match end {
                End::Lowest => other.number < window.number,
                End::Highest => window.number < other.number,
            };
            if is_other { Some(other) } else { Some(window) }
        }
    }
}

/// The window with the lowest or the highest number among these; of equal numbers, the first one.
/// `None` if there are no such windows.
pub(crate) fn nearest<'a>(rows: &'a [Window], end: End, among: Among) -> Option<&'a Window>
    ensures { option_copied result ≡ nearest end (filter (is_among among.entry) rows.now) }
{
    let mut found = None;
    let mut place = rows.len();
    while 0 < place {
        place -= 1;
        let window = &rows[place];
        if is_among(among, window) {
            found = nearer(end, window, found);
        }
    }
    found
}
