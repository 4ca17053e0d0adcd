//! What the arguments of `mux-trail` ask for.

ghost use Rattle.std.specs.Prelude.{◌≡◌, IfOk, IfSome, None, Some, true};
ghost use Rattle.mux_trail.specs.Words.{found_of, named_by};
ghost use Rattle.mux_trail.specs.Asking.{IsAskedBy, IsLastOf, IsLogOf, IsTime, IsTimeOf, IsUserOf, IsVerbOf, IsWhoOf};
ghost use Rattle.mux_trail.specs.Asking.{IsWhyOf, IsWindowOf, are_named, text_at, text_of, users_named, way_of};

use acl::{Bit, Object, UserId};
use clap::ArgMatches;
use jiff::Timestamp;
use line_fields::parts::{read_bit, read_object};
use line_fields::{read_u32, read_u64};
use std::alloc::{AllocError, Global};
use trail_confined::Question;

/// A window, by its serial or its title.
#[derive(Clone, Copy)]
pub enum WindowWord<'a> {
    Serial(u32),
    Title(&'a str),
}

/// What is asked about rights.
#[derive(Clone, Copy)]
pub enum RightsAsked<'a> {
    Who,
    /// Whether the users of these names, with commas between them, are confined.
    Confined(&'a str),
    Why(Question),
    /// Why a user has a bit on the open window that was given a title last, or hasn't.
    WhyTitled {
        user: UserId,
        bit: Bit,
        title: &'a str,
    },
    Setup,
}

/// Which entries of a log are asked for. Times are in milliseconds since 1970.
#[derive(Clone, Copy)]
pub struct LogAsked<'a> {
    pub user: Option<UserId>,
    pub window: Option<WindowWord<'a>>,
    pub since: u64,
    pub until: u64,
}

/// What the program does with a file: it judges it, or prints its lines, its log, or what it says of rights.
#[derive(Clone, Copy)]
pub enum Verb<'a> {
    Check,
    Show { is_json: bool },
    Log(LogAsked<'a>),
    Ask(RightsAsked<'a>),
}

/// The last entry that counts, by its place or its time.
#[derive(Clone, Copy)]
pub enum LastAsked {
    All,
    Place(u64),
    Time(u64),
}

/// As whose trail a file is read, up to which entry's place, and whether more is waited for at its end.
#[derive(Clone, Copy)]
pub struct Limits {
    pub owner: Option<UserId>,
    pub last: Option<u64>,
    pub follows: bool,
}

/// What the arguments ask of a file.
#[derive(Clone, Copy)]
pub struct TrailArgs<'a> {
    pub verb: Verb<'a>,
    pub path: &'a str,
    pub owner: Option<UserId>,
    pub last: LastAsked,
    pub follows: bool,
}

/// An argument that isn't understood: what is wrong, the argument, and what to do.
#[derive(Clone, Copy)]
pub struct Mistake<'a> {
    pub what: &'static str,
    pub word: &'a str,
    pub advice: &'static str,
}

/// What is found in a word, or that the word isn't understood.
fn found_in<'a, T>(
    found: Option<T>,
    word: &'a str,
    what: &'static str,
    advice: &'static str,
) -> Result<T, Mistake<'a>>
    ensures { IfOk result (λ it. found ≡ Some it) }
{
    match found {
        Some(it) => Ok(it),
        None => Err(Mistake { what, word, advice }),
    }
}

const NAME_FORM: &str =
    "a name has 1 to 20 lower-case letters, digits and _, and begins with a letter";

/// The user of a name.
fn user_named<'a>(word: &'a str, what: &'static str) -> Result<UserId, Mistake<'a>>
    ensures { IfOk result (λ user. named_by word.entry.now ≡ Some user) }
{
    found_in(UserId::of(word.as_bytes()), word, what, NAME_FORM)
}

/// The user of a name, if one is given.
fn user_in<'a>(name: Option<&'a str>, what: &'static str) -> Result<Option<UserId>, Mistake<'a>>
    ensures { IfOk result (IsUserOf (text_of name.entry)) }
{
    match name {
        Some(name) => Ok(Some(user_named(name, what)?)),
        None => Ok(None),
    }
}

/// The last entry that counts, by its place or its time.
fn last_of(word: Option<&str>) -> Result<LastAsked, Mistake<'_>>
    ensures { IfOk result (IsLastOf (text_of word.entry)) }
{
    let Some(word) = word else {
        return Ok(LastAsked::All);
    };
    if let Some(place) = read_u64(word.as_bytes()) {
        return Ok(LastAsked::Place(place));
    }
    let advice =
        "give the place of an entry, a number from 0 on, or a time as 2025-11-24T16:00:02Z";
    let ms = found_in(ms_of(word), word, "--at names no entry", advice)?;
    Ok(LastAsked::Time(ms))
}

/// The first of the words between commas that names no user.
fn stray_in(names: &str) -> Option<&str>
    ensures { result ≡ None → are_named names.now ≡ true }
{
    names
        .split(',')
        .find(|name| UserId::of(name.as_bytes()).is_none())
}

/// What `who` is asked. If names are given, each is a user's.
fn who_of(names: Option<&str>) -> Result<RightsAsked<'_>, Mistake<'_>>
    ensures { IfOk result (IsWhoOf (text_of names.entry)) }
{
    let Some(names) = names else {
        return Ok(RightsAsked::Who);
    };
    match stray_in(names) {
        None => Ok(RightsAsked::Confined(names)),
        Some(name) => Err(Mistake {
            what: "--confined names no user",
            word: if name.is_empty() { names } else { name },
            advice: NAME_FORM,
        }),
    }
}

/// The users whom the words between commas name.
pub fn users_named(alloc: Global, names: &str) -> Result<Vec<UserId>, AllocError>
    ensures { IfOk result (λ users. users.items ≡ users_named names.now) }
{
    names
        .split(',')
        .filter_map(|name| UserId::of(name.as_bytes()))
        .collect(alloc)
}

/// What `why` is asked: about a window's serial or a command, else about a window's title.
fn why_of<'a>(user: &'a str, bit: &'a str, object: &'a str) -> Result<RightsAsked<'a>, Mistake<'a>>
    ensures { IfOk result (IsWhyOf user.entry.now bit.entry.now object.entry.now) }
{
    let user = user_named(user, "USER is no user")?;
    let bit = found_in(
        read_bit(bit.as_bytes()),
        bit,
        "BIT is no bit",
        "give r, w or x",
    )?;
    match read_object(object.as_bytes()) {
        Some(object) => Ok(RightsAsked::Why(Question { user, bit, object })),
        None => Ok(RightsAsked::WhyTitled {
            user,
            bit,
            title: object,
        }),
    }
}

/// A window's serial or title.
fn window_of(word: Option<&str>) -> Option<WindowWord<'_>>
    ensures { IsWindowOf (text_of word.entry) result }
{
    let word = word?;
    match read_u32(word.as_bytes()) {
        Some(serial) => Some(WindowWord::Serial(serial)),
        None => Some(WindowWord::Title(word)),
    }
}

/// A time in the form of RFC 3339, in milliseconds since 1970.
fn ms_of(time: &str) -> Option<u64>
    ensures { IfSome result (IsTime time.now) }
{
    match time.parse::<Timestamp>() {
        Ok(time) => u64::try_from(time.as_millisecond()).ok(),
        Err(_) => None,
    }
}

/// A time that is given, else this one.
fn time_of<'a>(word: Option<&'a str>, what: &'static str, else_ms: u64) -> Result<u64, Mistake<'a>>
    ensures { IfOk result (IsTimeOf (text_of word.entry) else_ms) }
{
    let Some(word) = word else {
        return Ok(else_ms);
    };
    found_in(
        ms_of(word),
        word,
        what,
        "give a time as 2025-11-24T16:00:02Z",
    )
}

/// Which entries of a log the arguments ask for.
fn log_of<'a>(matches: &ArgMatches<'a>) -> Result<LogAsked<'a>, Mistake<'a>>
    ensures { IfOk result (IsLogOf (found_of matches.now)) }
{
    let user = user_in(matches.get_str("user"), "--user names no user")?;
    let since = time_of(matches.get_str("since"), "--since is no time", 0)?;
    let until = time_of(matches.get_str("until"), "--until is no time", u64::MAX)?;
    Ok(LogAsked {
        user,
        window: window_of(matches.get_str("window")),
        since,
        until,
    })
}

/// An argument that must be there: without it there are no matches.
fn text_at<'a>(matches: &ArgMatches<'a>, name: &str) -> &'a str
    ensures { result.now ≡ text_at (found_of matches.now) name.now }
{
    matches.get_str(name).unwrap_or("")
}

/// What the subcommand of this name does with these arguments.
fn verb_of<'a>(name: &str, matches: &ArgMatches<'a>) -> Result<Verb<'a>, Mistake<'a>>
    ensures { IfOk result (IsVerbOf (way_of name.now) (found_of matches.now)) }
{
    match name {
        "check" => Ok(Verb::Check),
        "log" => Ok(Verb::Log(log_of(matches)?)),
        "who" => Ok(Verb::Ask(who_of(matches.get_str("confined"))?)),
        "setup" => Ok(Verb::Ask(RightsAsked::Setup)),
        "why" => {
            let (user, bit) = (text_at(matches, "user"), text_at(matches, "bit"));
            Ok(Verb::Ask(why_of(user, bit, text_at(matches, "object"))?))
        }
        _ => Ok(Verb::Show {
            is_json: matches.get_flag("json"),
        }),
    }
}

/// What the arguments of this subcommand ask, or the one that isn't understood.
pub fn asked_of<'a>(name: &str, matches: &ArgMatches<'a>) -> Result<TrailArgs<'a>, Mistake<'a>>
    ensures { IfOk result (IsAskedBy name.now (found_of matches.now)) }
{
    let owner = user_in(matches.get_str("owner"), "--owner names no user")?;
    let last = last_of(matches.get_str("at"))?;
    let verb = verb_of(name, matches)?;
    Ok(TrailArgs {
        verb,
        path: text_at(matches, "file"),
        owner,
        last,
        follows: matches.get_flag("follow"),
    })
}
