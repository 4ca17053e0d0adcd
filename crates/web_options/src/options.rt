//! What the arguments of `mux-web` ask for.

ghost use Rattle.std.specs.Prelude.{◌≡◌, ◌++◌, IfErr, IfOk, OnOk, option_map};
ghost use Rattle.std.specs.List.{flat_map};
ghost use Rattle.std.specs.Str.{chars};
ghost use Rattle.std.specs.String.{string_bytes};
ghost use Rattle.clap.specs.Words.{found_of};
ghost use Rattle.web_options.specs.Asking.{HasNoSocket, IsAskedFor, MayBeSocket, quoted, select_keys, text_of};
ghost use Rattle.web_options.specs.Listening.{CantListen, ListensAt};

use crate::fault::WebFault;
use crate::listening::{Listen, listen_at};
use crate::page::ReadsFiles;
use clap::ArgMatches;
use std::alloc::{AllocError, Global};
use std::io::ErrorKind;

/// What the arguments ask for.
#[derive(Clone, Copy)]
pub struct WebOptions<'a> {
    /// The server's socket.
    pub socket: &'a str,
    /// Where browsers come in.
    pub listen: &'a str,
    pub(crate) watch: Option<&'a str>,
    pub(crate) watch_token: Option<&'a str>,
    // The window that watchers are shown, if one is named.
    pub(crate) window: Option<&'a str>,
    /// The folder of the links, if one is named.
    pub links: Option<&'a str>,
    /// How many pages may be open.
    pub most: usize,
    // The folder of the page, if one is named.
    pub(crate) page: Option<&'a str>,
    /// Whether it logs who comes and goes.
    pub tells: bool,
}

// Appends a character as it is typed within quotes.
fn put_quoted(keys: &mut String, it: char) -> Result<(), AllocError>
    ensures { OnOk result (string_bytes keys.new ≡ string_bytes keys.old ++ quoted it) }
{
    if it == '\'' {
        return keys.push_str("'\\''");
    }
    if it.is_control() {
        return Ok(());
    }
    keys.push(it)
}

// Appends a text as it is typed within quotes.
fn put_all_quoted(keys: &mut String, text: &str) -> Result<(), AllocError>
    ensures { OnOk result (string_bytes keys.new
        ≡ string_bytes keys.old ++ flat_map quoted (chars text.now)) }
{
    for it in text.chars() {
        put_quoted(keys, it)?;
    }
    Ok(())
}

// The keys of the command select with this window, at the prompt.
fn select_keys(alloc: Global, window: &str) -> Result<String, AllocError>
    ensures { IfOk result (λ keys. string_bytes keys ≡ select_keys window.now) }
{
    let mut keys = String::from_str(alloc, "\u{1}:select '")?;
    put_all_quoted(&mut keys, window)?;
    keys.push_str("'\r")?;
    Ok(keys)
}

impl<'a> WebOptions<'a> {
    /// (Arguments that must be there are: without them there are no matches.)
    pub fn of(matches: &ArgMatches<'a>) -> WebOptions<'a>
        ensures { IsAskedFor (found_of matches.now) result }
    {
        WebOptions {
            socket: matches.get_str("socket").unwrap_or(""),
            listen: matches.get_str("listen").unwrap_or(""),
            watch: matches.get_str("watch"),
            watch_token: matches.get_str("watch-token"),
            window: matches.get_str("window"),
            links: matches.get_str("links"),
            most: usize::from(matches.get_one::<u16>("most").unwrap_or(1)),
            page: matches.get_str("page"),
            tells: matches.get_flag("log"),
        }
    }

    /// The keys that choose the window for watchers, if one is named: the command select, at the prompt.
    pub fn choice(&self, alloc: Global) -> Result<Option<String>, AllocError>
        ensures { IfOk result (λ made. option_map string_bytes made
            ≡ option_map select_keys (text_of self.now.window)) }
    {
        match self.window {
            Some(window) => Ok(Some(select_keys(alloc, window)?)),
            None => Ok(None),
        }
    }

    /// Where browsers come in. An address that others can reach is refused, and so is a part of one.
    pub fn listens(&self, alloc: Global) -> Result<Listen<'a>, WebFault>
        ensures ok { IfOk result (ListensAt self.now.listen.now) }
        ensures fault { IfErr result (CantListen self.now.listen.now) }
    {
        listen_at(alloc, self.listen)
    }
}

/// Warns of a socket and of a folder that aren't there yet, and refuses what can't be a socket.
pub fn look_for_paths<R: ReadsFiles + AllocGlobal + Eprint>(
    rt: &R,
    options: WebOptions<'_>,
) -> Result<(), WebFault>
    ensures ok { OnOk result (MayBeSocket (R.is_other rt.now) options.entry.socket.now) }
    ensures fault { IfErr result (HasNoSocket (R.is_other rt.now) options.entry.socket.now) }
{
    let path = options.socket;
    match rt.is_other(path) {
        Ok(true) => return Err(WebFault::NoSocket(String::from_str(rt.alloc(), path)?)),
        Ok(false) => {}
        Err(error) => {
            if error.kind() == ErrorKind::NotFound {
                let _ = eprintln!(rt;
                    "mux-web: no server yet: {path}: start muxd with this --socket"
                );
            }
        }
    }
    if let Some(folder) = options.links
        && let Err(error) = rt.is_other(folder)
        && error.kind() == ErrorKind::NotFound
    {
        let _ = eprintln!(rt; "mux-web: no folder of links yet: {folder}: mux-user link makes it");
    }
    Ok(())
}
