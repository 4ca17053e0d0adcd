//! New displays, and changes of size.

ghost use Rattle.std.specs.Prelude.{◌≡◌, ◌↔◌, Err, IfOk, OnOk, OnErr};
ghost use Rattle.std.specs.List.{range_with_len};
ghost use Rattle.cells.specs.Page.{IsGridSize};
ghost use Rattle.terminal_model.specs.Screen.{starting};
ghost use Rattle.terminal_model.specs.Sizing.{resized};
ghost use Rattle.vt_screen.specs.Displays.{screen_of};

use crate::screen::Display;
use cells::GridFault;
use charsets::Coding;
use scrollback::Ring;
use std::alloc::Global;
use vt_screen_page::Page;
use vt_screen_state::{Tabs, fit, fit_saved, starting_state};

impl Display {
    /// A new display. `BadSize` if the size isn't 2 to 200 lines by 2 to 300 columns, `NoMemory` if
    /// memory is refused.
    pub fn new(
        alloc: Global,
        rows: usize,
        columns: usize,
        keep: usize,
    ) -> Result<Display, GridFault>
        ensures ok { IfOk result (λ display. screen_of display ≡ starting rows columns keep) }
        ensures width { IfOk result (λ display. display.ring.columns ≡ columns) }
        ensures places { IfOk result (λ display. display.page.places ≡ range_with_len 0 rows) }
        ensures size { IfOk result (λ _. IsGridSize rows columns) }
        ensures bad_size { (result ≡ Err GridFault.BadSize) ↔ (¬ IsGridSize rows columns) }
    {
        let page = Page::new(alloc, rows, columns)?;
        match Ring::new(alloc, keep, columns) {
            Ok(ring) => Ok(Display {
                state: starting_state(rows, columns, Coding::Utf8),
                tabs: Tabs::new(columns),
                saved: None,
                page,
                ring,
            }),
            Err(_) => Err(GridFault::NoMemory),
        }
    }

    /// Changes the size. The upper left part stays, the cursor and the saved place go to the
    /// nearest place, no wrap is pending, and margins and tab stops start anew. `BadSize` if the
    /// size isn't 2 to 200 lines by 2 to 300 columns, `NoMemory` if memory is refused; everything
    /// then stays as it was.
    pub fn resized(&mut self, rows: usize, columns: usize) -> Result<(), GridFault>
        ensures ok { OnOk result (screen_of self.new ≡ resized rows columns (screen_of self.old)) }
        ensures width { OnOk result (self.new.ring.columns ≡ columns) }
        ensures places { OnOk result (self.new.page.places ≡ range_with_len 0 rows) }
        ensures size { OnOk result (IsGridSize rows columns) }
        ensures err { OnErr result (self.new ≡ self.old) }
        ensures bad_size { (result ≡ Err GridFault.BadSize) ↔ (¬ IsGridSize rows columns) }
    {
        let page = self.page.with_size(rows, columns)?;
        match self.ring.resized(columns) {
            Ok(()) => {
                self.page = page;
                fit(&mut self.state, rows, columns);
                self.saved = fit_saved(self.saved, rows, columns);
                self.tabs = Tabs::new(columns);
                Ok(())
            }
            Err(_) => Err(GridFault::NoMemory),
        }
    }
}
