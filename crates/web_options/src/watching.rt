//! The user as whom anybody may watch.

ghost use Rattle.std.specs.Prelude.{◌≡◌, Some, None, IfOk, IfErr};
ghost use Rattle.attach_proto.specs.Texts.{token_of};
ghost use Rattle.web_options.specs.Asking.{CantWatch, HasNoToken, MayWatch, line_of, text_of};

use crate::fault::WebFault;
use crate::options::WebOptions;
use crate::page::ReadsFiles;
use acl::UserId;
use attach_proto::Token;
use program_words::SystemError;
use std::alloc::AllocGlobal;
use web_requests::Watcher;

// The token that a file has: its digits, and maybe a line feed.
fn token_of(file: &[u8]) -> Option<Token>
    ensures { result ≡ token_of (line_of file.now) }
{
    match file {
        [digits @ .., b'\n'] => Token::read(digits),
        _ => Token::read(file),
    }
}

// The user of this name, with the token of the file at this path.
fn named<R: ReadsFiles + AllocGlobal>(rt: &R, name: &str, path: &str) -> Result<Watcher, WebFault>
    ensures ok { IfOk result (λ w. MayWatch (R.reads rt.now) (Some name.now) (Some path.now) None (Some w)) }
    ensures fault { IfErr result (HasNoToken (R.reads rt.now) name.now path.now) }
{
    let alloc = rt.alloc();
    let name = String::from_str(alloc, name)?;
    if UserId::of(name.as_bytes()).is_none() {
        return Err(WebFault::NoName(name));
    }
    let path = String::from_str(alloc, path)?;
    let file = match rt.read_file(path.as_str()) {
        Ok(file) => file,
        Err(error) => return Err(WebFault::NoFile(path, SystemError(error))),
    };
    match token_of(file.as_slice()) {
        Some(token) => Ok(Watcher { name, token }),
        None => Err(WebFault::NoToken(path)),
    }
}

/// The user as whom anybody may watch, if the arguments name one.
pub fn watcher_of<R: ReadsFiles + AllocGlobal>(
    rt: &R,
    options: WebOptions<'_>,
) -> Result<Option<Watcher>, WebFault>
    ensures ok { IfOk result (MayWatch (R.reads rt.now) (text_of options.entry.watch)
        (text_of options.entry.watch_token) (text_of options.entry.window)) }
    ensures fault { IfErr result (CantWatch (R.reads rt.now) (text_of options.entry.watch)
        (text_of options.entry.watch_token) (text_of options.entry.window)) }
{
    match (options.watch, options.watch_token) {
        (Some(name), Some(path)) => Ok(Some(named(rt, name, path)?)),
        (None, None) if options.window.is_some() => Err(WebFault::NobodyWatches),
        (None, None) => Ok(None),
        _ => Err(WebFault::Alone),
    }
}
