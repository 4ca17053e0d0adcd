//! Views that several shadows know.

ghost use Rattle.std.specs.Prelude.{◌≡◌, IfOk, IfSome};
ghost use Rattle.cells.specs.Page.{IsGrid};

use std::alloc::{AllocError, Global};
use std::marker::Model;
use std::sync::Arc;
use view::View;

/// A view that several owners share.
pub struct SharedView {
    view: Arc<View, Global>,
}

impl Drop for SharedView {
    fn drop(self) {
        let SharedView { view: _ } = self;
    }
}

impl Model for SharedView {
    ghost use Rattle.std.specs.Arc.{arc_value};
    ghost use Rattle.terminal_model.specs.Shows.{View as Shown};

    ghost Value = { Shown };

    ghost view = { λ s. arc_value s.view };

    ghost use Rattle.cells.specs.Page.{IsGrid};

    ghost invariant = { λ s. IsGrid (arc_value s.view).page };
}

impl SharedView {
    /// A view with one owner. `AllocError` if memory is refused.
    pub fn new(alloc: Global, view: View) -> Result<SharedView, AllocError>
        ensures value { IfOk result (λ s. s ≡ view) }
        ensures grid { IfOk result (λ s. IsGrid s.page) }
    {
        match Arc::new(alloc, view) {
            Ok(view) => Ok(SharedView { view }),
            Err(_) => Err(AllocError),
        }
    }

    /// The view, with one more owner. `AllocError` if there can't be one more.
    pub fn shared(&self) -> Result<SharedView, AllocError>
        ensures { IfOk result (λ s. s ≡ self.now) }
    {
        Ok(SharedView {
            view: Arc::try_clone(&self.view)?,
        })
    }

    /// The view that is shared.
    pub fn get(&self) -> &View
        ensures value { result.now ≡ self.now }
        ensures grid { IsGrid self.now.page }
    {
        &*self.view
    }

    /// The view, if it has no other owner; else `None`.
    pub fn into_view(self) -> Option<View>
        ensures { IfSome result (λ v. v ≡ self) }
    {
        let SharedView { view } = self;
        Arc::into_inner(view)
    }
}
