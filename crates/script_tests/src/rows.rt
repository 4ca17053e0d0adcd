//! Plays the rows of all texts.

use crate::judging::is_so;
use crate::{one_owner, several_users, splits, views};
use std::alloc::AllocError;
use std::fs::Files;

/// Three windows of the owner, and a client of each of four users; bob and eve show window 2.
pub const FOUR_CLIENTS: &str = r"command own - multiuser on
command own - acladd ann,bob,eve
open own 24 80 0 zero => opened 0 0
open own 24 80 0 one => opened 1 1
open own 24 80 0 two => opened 2 2
attach own 24 80 => attached 0
attach ann 24 80 => attached 1
attach bob 24 80 => attached 2
attach eve 24 80 => attached 3
keys 2 \01:select 2\0d
keys 3 \01:select 2\0d
";

/// A client that was drawn, with `hi` in its window of 2 lines by 5 columns.
pub const DRAWN: &str = r"open own 2 5 0 sh => opened 0 0
attach own 4 20 => attached 0
output 0 hi
draw 0 => deliver 0 reset .. / ok
keys 0 x => input 0 x / ok
";

fn is_row_so<H: Files + AllocGlobal>(rt: &H, words: &[&str], beginning: &str, row: &str) -> bool {
    let Some((_, events)) = row.split_once('\n') else {
        return false;
    };
    match format!(in rt.alloc(); "{beginning}{events}\n") {
        Ok(text) => is_so(rt, words, text.as_str()),
        Err(_) => false,
    }
}

/// The first row with a wrong output when it is played after a beginning with these arguments. Each row
/// begins with a line `= TITLE`.
fn first_wrong<H: Files + AllocGlobal>(
    rt: &H,
    words: &[&str],
    beginning: &str,
    rows: &'static str,
) -> Option<&'static str> {
    for row in rows.split("\n= ") {
        if !row.is_empty() && !is_row_so(rt, words, beginning, row) {
            return Some(row);
        }
    }
    None
}

fn first_wrong_page<H: Files + AllocGlobal>(rt: &H) -> Option<&'static str> {
    let words = ["--show", "own"];
    first_wrong(rt, &words, "", one_owner::ROWS)
        .or(first_wrong(rt, &words, "", views::ROWS))
        .or(first_wrong(rt, &words, "", splits::ROWS))
}

fn first_wrong_case<H: Files + AllocGlobal>(rt: &H) -> Option<&'static str> {
    let words = ["own"];
    first_wrong(rt, &words, FOUR_CLIENTS, several_users::CASES)
        .or(first_wrong(rt, &words, FOUR_CLIENTS, views::CASES))
        .or(first_wrong(rt, &words, "", splits::CASES))
        .or(first_wrong(rt, &words, DRAWN, views::DRAWS))
        .or(first_wrong(rt, &words, FOUR_CLIENTS, views::REVOKED))
}

fn first_wrong_edition<H: Files + AllocGlobal>(rt: &H) -> Option<&'static str> {
    let words = ["--edition", "1", "own"];
    let others = ["--edition=2", "own"];
    first_wrong(rt, &words, FOUR_CLIENTS, several_users::FIRST).or(first_wrong(
        rt,
        &others,
        FOUR_CLIENTS,
        several_users::SECOND,
    ))
}

#[test]
fn rows_are_printed(rt: HostRuntime) {
    let wrong = first_wrong_page(&rt)
        .or(first_wrong_case(&rt))
        .or(first_wrong_edition(&rt));
    assert_eq!(rt; wrong, None);
}

/// Appends a script that opens 40 windows, is refused one more, closes one and opens one more.
pub fn put_windows(text: &mut String) -> Result<(), AllocError> {
    for window in 0..40u32 {
        write!(text, "open own 2 5 0 w => opened {window} {window}\n")?;
    }
    text.push_str(
        "open own 2 5 0 x => refused windows: 1\nclosed 7 => gone window 7 0 / ok\n\
         open own 2 5 0 x => opened 40 7\n",
    )
}

fn are_forty_open<H: Files + AllocGlobal>(rt: &H) -> bool {
    let mut text = String::new(rt.alloc());
    put_windows(&mut text).is_ok() && is_so(rt, &["own"], text.as_str())
}

#[test]
fn forty_windows_are_open_at_most(rt: HostRuntime) {
    assert!(rt; are_forty_open(&rt));
}
