//! What a client writes to its terminal of its own: a text on the last line, and its help.

ghost use Rattle.std.specs.Prelude.{◌≡◌, ◌↔◌, [], IsTrue, false, IfOk, OnErr, OnOk};
ghost use Rattle.client_notice.specs.Notices.{HearsLater, IsBeginning, IsHelp, IsNew, IsToShow, PutsLine, is_of_server};
ghost use Rattle.client_notice.specs.Notices.{next_row, scrolled, turned};

use client_words::put_visible;
use program_words::explain;
use std::alloc::{AllocError, Global};
use std::io::Write;

// How long a text waits for the draw that comes with it, in milliseconds.
const HIDDEN: u64 = 60;

// How long a text stays whatever is typed.
const READ: u64 = 1000;

// The keys, as the help lists them.
const KEYS: [&str; 18] = [
    "mux: C-a is the command key",
    "",
    "C-a d           detach: leave, and the session goes on",
    "C-\\             leave at once, even if the server hangs",
    "C-a n, C-a p    next window, previous window",
    "C-a C-a         the window before",
    "C-a 0 .. 9      the window of this number",
    "C-a w, C-a *    list windows, list clients",
    "C-a k           kill the window",
    "C-a S, C-a |    split the page, side by side",
    "C-a Tab         next region",
    "C-a X, C-a Q    remove this region, keep only this one",
    "C-a a           type C-a",
    "C-a :           prompt: fit, title TEXT, scrollview N, wall TEXT ..",
    "Shift-PgUp      scroll back, also Alt-PgUp (PgDn: forward, others: to the end)",
    "",
    "denied: w ..    you may look and not type; who may is up to the owner",
    "Any key comes back.",
];

/// The text for the terminal's last line, and how far it is.
#[derive(Drop)]
pub struct Notice {
    pub text: Vec<u8>,
    pub stage: NoticeStage,
    /// A draw came since the text was put down, and may have written over it.
    pub is_hidden: bool,
}

/// A text is shown a moment after it came, so that a draw that comes with it doesn't hide it.
#[derive(Clone, Copy, PartialEq, Eq, Debug)]
pub enum NoticeStage {
    Nothing,
    New,
    /// Seen first at this time.
    Due(u64),
    /// Shown at this time. The first key that is typed a second later takes it away.
    Shown(u64),
}

/// What is to be done for a text.
#[derive(Clone, Copy, PartialEq, Eq, Debug)]
pub enum NoticeTask {
    Nothing,
    /// Put the text down.
    Show,
    /// Ask for a draw, which takes the text away.
    TakeAway,
}

// The first bytes of a text, at most so many, without a part of a character at their end.
fn cut(text: &[u8], most: usize) -> &[u8]
    ensures { IsBeginning text.now most result.now }
{
    if text.len() <= most {
        return text;
    }
    let mut end = most;
    for _ in 0..3usize {
        match text.get(end) {
            Some(0x80..=0xBF) => end = end.saturating_sub(1),
            _ => break,
        }
    }
    text.get(..end).unwrap_or(&[])
}

// Whether a text is one of the server, and not of the session: no status line has it.
fn is_of_server(text: &[u8]) -> bool
    ensures { result ≡ is_of_server text.now }
{
    text.starts_with(b"keys were dropped".as_slice()) || text.starts_with(b"the server".as_slice())
}

// What a refusal by number means, for a client with texts of its own.
fn meaning_of(alloc: Global, text: &str, assists: bool) -> Result<Vec<u8>, AllocError>
    ensures { assists ≡ false → IfOk result (λ meaning. meaning.items ≡ []) }
{
    let mut meaning = Vec::new(alloc);
    if assists && explain(text, "", &mut meaning).is_err() {
        return Err(AllocError);
    }
    if !meaning.is_empty() {
        meaning.extend_from_slice(b": C-a ? shows the keys")?;
    }
    Ok(meaning)
}

impl Notice {
    pub fn new(alloc: Global) -> Notice
        ensures { result.stage ≡ NoticeStage.Nothing }
    {
        Notice {
            text: Vec::new(alloc),
            stage: NoticeStage::Nothing,
            is_hidden: false,
        }
    }

    /// Takes a text, to be shown soon.
    pub fn notify(&mut self, alloc: Global, text: &[u8]) -> Result<(), AllocError>
        ensures ok { OnOk result (IsNew text.now self.new) }
        ensures err { OnErr result (self.new ≡ self.old) }
    {
        let mut visible = Vec::new(alloc);
        visible.extend_from_slice(b"mux: ")?;
        put_visible(text, &mut visible)?;
        *self = Notice {
            text: visible,
            stage: NoticeStage::New,
            is_hidden: false,
        };
        Ok(())
    }

    /// Takes a text that came after the client was let in. One of the session stands on the status
    /// line, too; for a client with texts of its own, the meaning of a refusal by number is shown beside it.
    pub fn hear_later(&mut self, alloc: Global, text: &str, assists: bool) -> Result<(), AllocError>
        ensures hears { OnOk result (HearsLater assists text.now self.old self.new) }
        ensures err { OnErr result (self.new ≡ self.old) }
    {
        let meaning = meaning_of(alloc, text, assists)?;
        if meaning.is_empty() && !is_of_server(text.as_bytes()) {
            return Ok(());
        }
        let mut said = Vec::new(alloc);
        said.extend_from_slice(text.as_bytes())?;
        said.extend_from_slice(&meaning)?;
        self.notify(alloc, &said)
    }

    /// Says how many lines the view was scrolled back, and how to come back.
    pub fn tell_scrolled(&mut self, alloc: Global, back: u16) -> Result<(), AllocError>
        ensures ok { OnOk result (IsNew (scrolled back) self.new) }
        ensures err { OnErr result (self.new ≡ self.old) }
    {
        let text = format!(in alloc;
            "{back} lines back; Shift-PgDn or Alt-PgDn: forward, other keys: to the end"
        )?;
        self.notify(alloc, text.as_bytes())
    }

    /// What is to be done for the text at this time, in milliseconds. `is_free`: it can be shown, since no draw is
    /// half written and the help isn't shown.
    pub fn look(&mut self, now: u64, has_typed: bool, is_free: bool) -> NoticeTask
        ensures turns { (self.new.stage, result) ≡ turned self.old.stage now has_typed is_free }
        ensures same { self.new ≡ record self.old { stage = self.new.stage } }
    {
        match self.stage {
            NoticeStage::New => self.stage = NoticeStage::Due(now),
            NoticeStage::Due(since) if is_free && now.saturating_sub(since) >= HIDDEN => {
                self.stage = NoticeStage::Shown(now);
                return NoticeTask::Show;
            }
            NoticeStage::Shown(since) if has_typed && now.saturating_sub(since) >= READ => {
                self.stage = NoticeStage::Nothing;
                return NoticeTask::TakeAway;
            }
            NoticeStage::Nothing | NoticeStage::Due(_) | NoticeStage::Shown(_) => {}
        }
        NoticeTask::Nothing
    }

    /// Whether the text is still to be shown.
    pub fn is_to_come(&self) -> bool
        ensures { IsTrue result ↔ IsToShow self.now.stage }
    {
        matches!(self.stage, NoticeStage::New | NoticeStage::Due(_))
    }

    /// Appends the text for a terminal of this size. The terminal's place and rendition are saved and restored (DECSC,
    /// DECRC), and reverse on this line is used by no draw.
    pub fn put(
        &self,
        alloc: Global,
        rows: u16,
        columns: u16,
        out: &mut Vec<u8>,
    ) -> Result<(), AllocError>
        ensures ok { OnOk result (PutsLine self.now.text.items rows columns out.old.items out.new.items) }
        ensures err { OnErr result (out.new.items ≡ out.old.items) }
    {
        let mut line = Vec::new(alloc);
        if write!(line, "\x1b7\x1b[{rows};1H\x1b[0;7m").is_err() {
            return Err(AllocError);
        }
        line.extend_from_slice(cut(&self.text, usize::from(columns).saturating_sub(1)))?;
        line.extend_from_slice(b"\x1b[m\x1b[K\x1b8")?;
        out.extend_from_slice(&line)
    }
}

// Each row but the first one begins after NEL.
fn next_row(row: usize) -> &'static [u8]
    ensures { result.now ≡ next_row row }
{
    if row == 0 {
        return &[];
    }
    b"\x1bE"
}

/// The help for a terminal of this size. It consists of functions that draws use.
pub fn help_page(alloc: Global, rows: u16, columns: u16) -> Result<Vec<u8>, AllocError>
    ensures { IfOk result (λ page. IsHelp columns rows page.items) }
{
    let columns = usize::from(columns).saturating_sub(1);
    let mut page = Vec::new(alloc);
    page.extend_from_slice(b"\x1b[m\x1b[H")?;
    for row in 0..usize::from(rows) {
        page.extend_from_slice(next_row(row))?;
        let line = KEYS.get(row).copied().unwrap_or("");
        page.extend_from_slice(cut(line.as_bytes(), columns))?;
        page.extend_from_slice(b"\x1b[K")?;
    }
    Ok(page)
}
