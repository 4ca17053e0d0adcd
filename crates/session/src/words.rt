//! The arguments of the simulator.

ghost use Rattle.std.specs.Prelude.{◌≡◌, Bool, true, false, Some, IfOk, IfErr, map, codes, option_and_then, option_map};
ghost use Rattle.std.specs.String.{string_bytes};
ghost use Rattle.acl.specs.declared.leaders.Edition.{Edition as Groups};
ghost use Rattle.acl.specs.declared.user_id.UserId.{UserId as Owner};
ghost use Rattle.acl.specs.Names.{named_by};
ghost use Rattle.clap.specs.Words.{found_of, kind_of, rows_of, matches_of, takes, first_of, one_text, rule_of};
ghost use Rattle.session.specs.Words.{muxsim, edition, setup, show, trail, owner, edition_text, Asks, IsBeginning};

use crate::setup_file::Beginning;
use acl::{Edition, UserId};
use clap::error::ErrorKind;
use clap::{Arg, ArgAction, ArgMatches, Command, Error};
use program_words::SetupLine;
use std::alloc::{AllocError, Global};

/// `--edition`: the edition of groups.
fn edition_word(alloc: Global) -> Arg<'static>
    ensures rule { rule_of result ≡ edition }
    ensures local { result.global ≡ false }
{
    Arg::new(alloc, "edition")
        .long("edition")
        .value_name("N")
        .value_parser(clap::value_parser!(u8).range(1..=2))
        .default_value("2")
        .help("1: a user is in one group at most; 2: in up to eight")
}

/// `--setup`: the file of a setup.
fn setup_word(alloc: Global) -> Arg<'static>
    ensures rule { rule_of result ≡ setup }
    ensures local { result.global ≡ false }
{
    Arg::new(alloc, "setup")
        .long("setup")
        .value_name("FILE")
        .help("A file of the owner's first commands, one a line")
}

/// `--show`: views at the end.
fn show_word(alloc: Global) -> Arg<'static>
    ensures rule { rule_of result ≡ show }
    ensures local { result.global ≡ false }
{
    Arg::new(alloc, "show")
        .long("show")
        .action(ArgAction::SetTrue)
        .help("Prints what each client is to see after the last event")
}

/// `--trail`: the file of the trail.
fn trail_word(alloc: Global) -> Arg<'static>
    ensures rule { rule_of result ≡ trail }
    ensures local { result.global ≡ false }
{
    Arg::new(alloc, "trail")
        .long("trail")
        .value_name("FILE")
        .help("A new file for the session's trail, which mux-trail reads")
}

/// The owner's name.
fn owner_word(alloc: Global) -> Arg<'static>
    ensures rule { rule_of result ≡ owner }
    ensures local { result.global ≡ false }
{
    Arg::new(alloc, "owner")
        .value_name("OWNER")
        .required(true)
        .help("The name of the session's owner")
}

/// Reads `muxsim [--edition N] [--setup FILE] [--show] [--trail FILE] OWNER`, with the program's name
/// first.
pub fn read_words<'a>(alloc: Global, words: &'a [String]) -> Result<ArgMatches<'a>, Error>
    ensures ok { IfOk result
        (λ m. rows_of (found_of m) ≡ matches_of muxsim (map string_bytes words.entry.now)) }
    ensures err { IfErr result (λ e. takes muxsim (map string_bytes words.entry.now) ≡ true
        → kind_of e ≡ ErrorKind.OutOfMemory) }
{
    Command::new(alloc, "muxsim")
        .about("Plays a script of events over a session")
        .arg(edition_word(alloc))?
        .arg(setup_word(alloc))?
        .arg(show_word(alloc))?
        .arg(trail_word(alloc))?
        .arg(owner_word(alloc))?
        .try_get_matches_from(words)
}

/// The edition that the arguments name.
pub fn edition_of(matches: &ArgMatches) -> Edition
    ensures { (groups : Groups) → one_text (found_of matches.now) (codes "edition")
        ≡ Some (edition_text groups) → result ≡ groups }
{
    match matches.get_one::<u8>("edition") {
        Some(1) => Edition::First,
        _ => Edition::Second,
    }
}

/// The owner that the arguments name.
pub fn owner_of(matches: &ArgMatches) -> Option<UserId>
    ensures { result
        ≡ option_and_then named_by (first_of (codes "owner") (rows_of (found_of matches.now))) }
{
    match matches.get_str("owner") {
        Some(owner) => UserId::of(owner.as_bytes()),
        None => None,
    }
}

/// How the session of these arguments begins with this setup. None if the arguments are invalid, or if
/// the owner isn't a valid name.
pub fn beginning_of<'a>(
    alloc: Global,
    words: &[String],
    setup: &'a [SetupLine<'a>],
) -> Result<Option<Beginning<'a>>, AllocError>
    ensures { (groups : Groups) (name : Owner) (shows : Bool)
        → Asks (map string_bytes words.now) groups name shows
        → IfOk result (IsBeginning groups name setup.now) }
{
    let matches = match read_words(alloc, words) {
        Ok(matches) => matches,
        Err(error) if error.kind() == ErrorKind::OutOfMemory => return Err(AllocError),
        Err(_) => return Ok(None),
    };
    match owner_of(&matches) {
        Some(owner) => Ok(Some(Beginning {
            edition: edition_of(&matches),
            owner,
            setup,
        })),
        None => Ok(None),
    }
}

/// The file that the arguments name after `--setup` or `--trail`, whichever `name` says. None if the
/// arguments are invalid.
pub fn path_of<'a>(
    alloc: Global,
    words: &'a [String],
    name: &str,
) -> Result<Option<&'a str>, AllocError>
    ensures { takes muxsim (map string_bytes words.now) ≡ true
        → IfOk result (λ path. option_map (λ p. p.now) path
        ≡ first_of name.now (matches_of muxsim (map string_bytes words.now))) }
{
    match read_words(alloc, words) {
        Ok(matches) => Ok(matches.get_str(name)),
        Err(error) if error.kind() == ErrorKind::OutOfMemory => Err(AllocError),
        Err(_) => Ok(None),
    }
}
