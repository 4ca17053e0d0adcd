//! A client.

ghost use Rattle.std.specs.Prelude.{◌≡◌, true, IfOk};
ghost use Rattle.session_model.specs.Comings.{is_client_size};

use acl::UserId;
use keys::KeyReader;
use redraw::Shadow;
use regions::{Layout, Shown};
use session_model::StatusMessage;
use std::alloc::{AllocError, Global};
use std::mem;
use windows_model::Serial;

/// A client that attaches: its serial, its user, the size of its terminal, and the window that its one
/// region shows.
#[derive(Clone, Copy)]
pub struct NewClient {
    pub serial: u32,
    pub user: UserId,
    pub rows: u16,
    pub columns: u16,
    pub window: Option<u32>,
}

/// A user's terminal.
#[derive(Drop)]
pub struct Client {
    pub serial: u32,
    pub user: UserId,
    /// Reads the client's keys, and holds what the last ones left unfinished.
    pub keys: KeyReader,
    /// Its regions, and what they show.
    pub layout: Layout,
    /// The window that its focused regions showed last, and the one before that.
    pub last: Option<u32>,
    pub former: Option<u32>,
    /// What its status line says.
    pub message: StatusMessage,
    /// The size of its terminal, and what that is known to show.
    pub shadow: Shadow,
}

impl Serial for Client {
    ghost serial_of = { λ c. c.serial };

    fn serial(&self) -> u32 {
        self.serial
    }
}

impl Client {
    ghost use Rattle.session_model.specs.Comings.{attached};
    ghost use Rattle.session_state.specs.Moves.{seen, without, fitted};
    ghost use Rattle.session_state.specs.Clients.{ClientStands};

    /// The client that attaches.
    pub(crate) fn new(alloc: Global, client: NewClient) -> Result<Client, AllocError>
        requires { is_client_size client.rows client.columns ≡ true }
        ensures { IfOk result (ClientStands (attached client.serial client.user client.rows
            client.columns client.window)) }
    {
        let NewClient {
            serial,
            user,
            rows,
            columns,
            window,
        } = client;
        let layout = Layout::new(alloc, Shown { window, back: 0 })?;
        Ok(Client {
            serial,
            user,
            keys: KeyReader::new(),
            layout,
            last: window,
            former: None,
            message: StatusMessage::Silence,
            shadow: Shadow::unknown(rows, columns),
        })
    }

    /// Puts a message on the client's status line.
    pub(crate) fn hear(&mut self, message: StatusMessage)
        ensures { self.new ≡ record self.old { message = message } }
    {
        self.message = message;
    }

    /// Notes the window in focus, after the page has changed.
    pub(crate) fn see(&mut self)
        ensures { self.new ≡ seen self.old }
    {
        let focused = self.layout.focused();
        let Some(window) = focused.window else {
            return;
        };
        if self.last != Some(window) {
            self.former = self.last;
            self.last = Some(window);
        }
    }

    /// Empties the regions that show this window.
    pub(crate) fn close_window(&mut self, serial: u32)
        ensures { self.new ≡ without serial self.old }
    {
        self.layout.close_window(serial);
    }

    /// Notes that the client's terminal has this size now, and may show anything.
    pub(crate) fn resize(&mut self, rows: u16, columns: u16)
        ensures { self.new ≡ fitted rows columns self.old }
    {
        self.layout.resized(rows, columns);
        self.shadow = Shadow::unknown(rows, columns);
    }

    /// Takes a reader and a message in place of the client's own, and hands these back.
    pub(crate) fn exchange(&mut self, keys: &mut KeyReader, message: &mut StatusMessage)
        ensures row { self.new ≡ record self.old { keys = keys.old; message = message.old } }
        ensures keys { keys.new ≡ self.old.keys }
        ensures message { message.new ≡ self.old.message }
    {
        mem::swap(&mut self.keys, keys);
        mem::swap(&mut self.message, message);
    }
}
