//! The rows of the screen table, with their arguments.

use cells::Attribute;
use charsets::{CharacterSet, Coding, Place, Shift, Unit};

/// The part of a line or of the page that an erasure takes: from the cursor on, up to the cursor,
/// or all of it.
#[derive(Clone, Copy, Debug)]
pub enum Part {
    ToEnd,
    ToStart,
    All,
}

/// A mode that a value of SM, RM, DECSM or DECRM names.
#[derive(Clone, Copy, Debug)]
pub enum Mode {
    /// 4, IRM.
    Insert,
    /// 20, LNM.
    NewLine,
    /// ?1, DECCKM.
    Arrows,
    /// ?5, DECSCNM.
    Inverted,
    /// ?6, DECOM.
    Origin,
    /// ?7, DECAWM.
    Wrap,
    /// ?25, DECTCEM.
    Cursor,
}

/// What a control function does to a terminal. Most functions are one action. SGR, SM, RM, DECSM
/// and DECRM are one action for each value that is known, and an ignored function has none. Lines
/// and columns count from 0, and counts are at least 1.
#[derive(Clone, Copy, Debug)]
pub enum Action {
    /// A graphic unit, which is printed through the sets.
    Print(Unit),
    /// BS.
    Backspace,
    /// HT.
    Tab,
    /// LF, VT, FF.
    LineFeed,
    /// CR.
    CarriageReturn,
    /// SI, SO, LS2, LS3, LS1R, LS2R, LS3R, SS2, SS3.
    Shift(Shift),
    /// Designates a set to a place.
    Designate(Place, CharacterSet),
    /// ESC % G, ESC % @.
    SetCoding(Coding),
    /// IND.
    Index,
    /// NEL.
    NextLine,
    /// RI.
    ReverseIndex,
    /// HTS.
    SetTab,
    /// DECSC.
    Save,
    /// DECRC.
    Restore,
    /// S8C1T if true, S7C1T if false.
    SetEightBitReports(bool),
    /// DECKPAM if true, DECKPNM if false.
    SetApplicationKeypad(bool),
    /// RIS.
    Reset,
    /// DECALN.
    Align,
    /// CUU.
    Up(usize),
    /// CUD.
    Down(usize),
    /// CUF.
    Right(usize),
    /// CUB.
    Left(usize),
    /// CUP, HVP: the line and the column.
    MoveTo(usize, usize),
    /// DECSTBM: the first line and the last line, which is None for the page's last line.
    SetMargins(usize, Option<usize>),
    /// TBC 0.
    ClearTab,
    /// TBC 3.
    ClearTabs,
    /// ED.
    EraseInPage(Part),
    /// EL.
    EraseInLine(Part),
    /// ECH.
    EraseCells(usize),
    /// DECSED.
    EraseUnprotectedInPage(Part),
    /// DECSEL.
    EraseUnprotectedInLine(Part),
    /// ICH.
    InsertCells(usize),
    /// DCH.
    DeleteCells(usize),
    /// IL.
    InsertLines(usize),
    /// DL.
    DeleteLines(usize),
    /// DECSCA: true protects what is printed from now on.
    Protect(bool),
    /// One value of SGR.
    Render(Attribute),
    /// One value of SM or DECSM if true, of RM or DECRM if false.
    SetMode(Mode, bool),
    /// The value ?3 of DECSM or DECRM.
    BlankPage,
    /// DECSTR.
    SoftReset,
    /// DSR 5.
    ReportStatus,
    /// DSR 6.
    ReportPlace,
    /// DSR ?15.
    ReportPrinter,
    /// DA.
    ReportAttributes,
    /// DA2.
    ReportSecondaryAttributes,
}
