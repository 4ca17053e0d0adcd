//! What a client writes to its terminal of its own: a text on the last line, and its help.

ghost use Rattle.std.specs.Prelude.{◌≡◌, true, false, IfErr, OnErr, OnOk};
ghost use Rattle.client_peer.specs.Failing.{FailsTyping};
ghost use Rattle.client_peer.specs.Showing.{IsUncovered, Keeps, KeepsNotice, ShowsHelp, ShowsNotice, helping, is_free};
ghost use Rattle.client_peer.specs.Showing.{noticing};

use crate::peer::Peer;
use client_notice::{NoticeStage, help_page};
use client_words::PeerFault;
use std::alloc::AllocError;

impl Peer {
    pub(crate) fn put_notice(&mut self) -> Result<(), AllocError>
        ensures shows { OnOk result (ShowsNotice self.old self.new) }
        ensures err { OnErr result (Keeps self.old self.new) }
        ensures same { self.new ≡ record self.old { bytes = self.new.bytes } }
    {
        self.notice
            .put(self.alloc, self.rows, self.columns, &mut self.bytes)
    }

    // Whether no draw is half written, and the terminal doesn't show the help.
    pub(crate) fn is_free(&self) -> bool
        ensures { result ≡ is_free self.now }
    {
        !self.is_cut && !self.is_covered
    }

    /// Puts the text down again if a whole draw has come since it was shown. It stays until a key takes it away.
    pub fn keep_notice(&mut self) -> Result<(), AllocError>
        ensures keeps { OnOk result (KeepsNotice self.old self.new) }
        ensures err { OnErr result (Keeps self.old self.new) }
        ensures same { self.new ≡ noticing self.old self.new }
    {
        let is_shown = matches!(self.notice.stage, NoticeStage::Shown(_));
        if is_shown && self.notice.is_hidden && self.is_free() {
            self.put_notice()?;
            self.notice.is_hidden = false;
        }
        Ok(())
    }

    // Shows the help if it is asked for, unless a draw is half written. It consists of functions that draws use.
    pub(crate) fn help(&mut self) -> Result<(), PeerFault>
        ensures helps { self.old.typing.asks_help ≡ true → OnOk result (ShowsHelp self.old self.new) }
        ensures other { self.old.typing.asks_help ≡ false → OnOk result (IsUncovered self.old self.new) }
        ensures same { self.new ≡ helping self.old self.new }
        ensures fault { IfErr result (FailsTyping self.old self.new) }
    {
        if !self.typing.asks_help || !self.is_free() {
            return Ok(());
        }
        let page = help_page(self.alloc, self.rows, self.columns)?;
        self.put_draw(page)?;
        self.is_helping = true;
        self.is_covered = true;
        Ok(())
    }
}
