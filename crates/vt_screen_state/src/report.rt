//! Reports (ECMA-48, 8.3.14, CPR, and 8.3.35, DSR; VT220 Programmer Reference Manual, reports).

ghost use Rattle.std.specs.Prelude.{◌≡◌, ◌+◌, ◌<◌, ◌≤◌, ◌++◌, false, length};
ghost use Rattle.control_parser.specs.Spelling.{decimal};
ghost use Rattle.terminal_model.specs.Reports.{answer, introducer};
ghost use Rattle.vt_screen_state.specs.Silent.{IsSilent};

use charsets::Coding;
use terminal_model::{Action, Report, State};

/// The answer to an action. Only DSR and DA are answered.
pub fn report_of(state: &State, action: Action) -> Report
    requires line_inside { state.now.line < 200 }
    requires column_inside { state.now.column < 300 }
    ensures value { result ≡ answer state.now action }
    ensures few { length result ≤ 12 }
{
    match action {
        Action::ReportStatus => answer(state, b"0n"),
        Action::ReportPlace => place_report(state),
        Action::ReportPrinter => answer(state, b"?13n"),
        Action::ReportAttributes => answer(state, b"?62;6c"),
        Action::ReportSecondaryAttributes => answer(state, b">1;10;0c"),
        _ => Report::none(),
    }
}

/// Whether an action is answered: only DSR and DA are.
#[inline(always)]
pub fn is_answered(action: &Action) -> bool
    ensures { result ≡ false → IsSilent action.now }
{
    matches!(
        action,
        Action::ReportStatus
            | Action::ReportPlace
            | Action::ReportPrinter
            | Action::ReportAttributes
            | Action::ReportSecondaryAttributes
    )
}

/// The CSI of answers, in the form that the window asked for.
fn introducer(state: &State) -> Report
    ensures value { result ≡ introducer state.now }
    ensures few { length result ≤ 2 }
{
    let mut report = Report::none();
    match (state.has_eight_bit_reports, state.coding) {
        (false, _) => report.extend(b"\x1B["),
        (true, Coding::Utf8) => report.extend(b"\xC2\x9B"),
        (true, Coding::Ecma35) => report.push(0x9B),
    }
    report
}

/// A control sequence: CSI and these bytes.
fn answer(state: &State, bytes: &[u8]) -> Report
    requires { length bytes.now ≤ 10 }
    ensures value { result ≡ introducer state.now ++ bytes.now }
    ensures few { length result ≤ 2 + length bytes.now }
{
    let mut report = introducer(state);
    report.extend(bytes);
    report
}

/// CPR: the line and the column of the cursor, counted from 1. With ?6 set the line counts from the top margin.
fn place_report(state: &State) -> Report
    requires line_inside { state.now.line < 200 }
    requires column_inside { state.now.column < 300 }
    ensures value { result ≡ answer state.now Action.ReportPlace }
    ensures few { length result ≤ 12 }
{
    let first = if state.modes.counts_from_margin {
        state.top
    } else {
        0
    };
    let mut report = introducer(state);
    put_number(&mut report, (state.line + 1).saturating_sub(first));
    report.push(b';');
    put_number(&mut report, state.column + 1);
    report.push(b'R');
    report
}

/// Appends a number in decimal.
#[tactic(auto, unfolding(control_parser::specs::Spelling::decimal))]
fn put_number(report: &mut Report, number: usize)
    requires room { length report.old ≤ 10 }
    requires small { number < 1000 }
    ensures value { report.new ≡ report.old ++ decimal number }
    ensures few { length report.new ≤ length report.old + 3 }
{
    if number >= 100 {
        report.push(b'0' + (number / 100 % 10) as u8);
    }
    if number >= 10 {
        report.push(b'0' + (number / 10 % 10) as u8);
    }
    report.push(b'0' + (number % 10) as u8);
}
