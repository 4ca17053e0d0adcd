//! Where browsers come in, and pages of which origins.

ghost use Rattle.std.specs.Prelude.{◌≡◌, ◌↔◌, ◌++◌, ◌∷◌, [], None, IfOk, IfErr, IfSome, OnOk, IsTrue, map};
ghost use Rattle.std.specs.Net.Grammar.{IsSocketText};
ghost use Rattle.std.specs.String.{string_bytes};
ghost use Rattle.std.specs.List.{AllByRecursion, list_all};
ghost use Rattle.web_options.specs.Listening.{CantListen, HasNoOrigins, IsNoOrigin, IsNotLocal, IsOrigin, IsPath};
ghost use Rattle.web_options.specs.Listening.{IsWrong, ListensAt, Origins, is_host, is_host_byte, is_origin, local_origins, texts};

use crate::fault::WebFault;
use std::alloc::{AllocError, Global};
use std::net::{IpAddr, SocketAddr};
use web_requests::Loopback;

/// Where browsers come in.
#[derive(Clone, Copy)]
pub enum Listen<'a> {
    Address(Loopback),
    Path(&'a str),
}

// The address that a text names, if only this machine reaches it.
fn local(text: &str) -> Option<Loopback>
    ensures some { IfSome result (IsSocketText text.now) }
    ensures none { result ≡ None → IsNotLocal text.now }
{
    match text.parse::<SocketAddr>() {
        Ok(address) => Loopback::of(address),
        Err(_) => None,
    }
}

fn is_path(text: &str) -> bool
    ensures { IsTrue result ↔ IsPath text.now }
{
    let bytes = text.as_bytes();
    let is_shaped = bytes.contains(&b'/') || !bytes.contains(&b':');
    is_shaped && text.parse::<IpAddr>().is_err() && text.parse::<u16>().is_err()
}

/// Where a text asks to listen. An address that others can reach is refused, and so is a part of one.
pub fn listen_at<'a>(alloc: Global, text: &'a str) -> Result<Listen<'a>, WebFault>
    ensures ok { IfOk result (ListensAt text.now) }
    ensures fault { IfErr result (CantListen text.now) }
{
    if let Some(address) = local(text) {
        return Ok(Listen::Address(address));
    }
    if is_path(text) {
        return Ok(Listen::Path(text));
    }
    Err(WebFault::NotLocal(String::from_str(alloc, text)?))
}

fn is_host_byte(byte: u8) -> bool
    ensures { result ≡ is_host_byte byte }
{
    byte.is_ascii_lowercase() || byte.is_ascii_digit() || b".-_:[]".contains(&byte)
}

fn are_host_bytes(bytes: &[u8]) -> bool
    ensures { result ≡ list_all is_host_byte bytes.now }
{
    bytes.iter().all(|byte| is_host_byte(*byte))
}

fn is_host(bytes: &[u8]) -> bool
    ensures { result ≡ is_host bytes.now }
{
    !bytes.is_empty() && are_host_bytes(bytes)
}

// Whether a text is an origin as a browser sends it: http or https, and a host, maybe with a port.
fn is_origin(text: &[u8]) -> bool
    ensures { result ≡ is_origin text.now }
{
    (text.starts_with(b"https://") && is_host(&text[8..]))
        || (text.starts_with(b"http://") && is_host(&text[7..]))
}

// The origins of a page at a port of this machine.
fn local_origins(alloc: Global, port: u16) -> Result<Vec<String>, AllocError>
    ensures { IfOk result (λ origins. map string_bytes origins.items ≡ local_origins port) }
{
    let mut origins = Vec::new(alloc);
    origins.push(format!(in alloc; "http://127.0.0.1:{port}")?)?;
    origins.push(format!(in alloc; "http://[::1]:{port}")?)?;
    Ok(origins)
}

// Adds a name to the origins.
fn add_origin(origins: &mut Vec<String>, alloc: Global, name: &str) -> Result<(), WebFault>
    ensures ok { OnOk result (IsOrigin name.now
        × (map string_bytes origins.new.items ≡ map string_bytes origins.old.items ++ name.now ∷ [])) }
    ensures fault { IfErr result (IsNoOrigin name.now) }
{
    let text = String::from_str(alloc, name)?;
    if !is_origin(name.as_bytes()) {
        return Err(WebFault::NotOrigin(text));
    }
    origins.push(text)?;
    Ok(())
}

// The origins that are named.
fn named_origins(alloc: Global, named: &[&str]) -> Result<Vec<String>, WebFault>
    ensures ok { IfOk result (λ origins. (map string_bytes origins.items ≡ texts named.now)
        × AllByRecursion IsOrigin (texts named.now)) }
    ensures fault { IfErr result (IsWrong (texts named.now)) }
{
    let mut origins = Vec::new(alloc);
    for name in named {
        add_origin(&mut origins, alloc, name)?;
    }
    Ok(origins)
}

/// The origins that the arguments name, or if they name none, those of an address of this machine.
pub fn origins_of(
    alloc: Global,
    named: &[&str],
    listen: Listen<'_>,
) -> Result<Vec<String>, WebFault>
    ensures ok { IfOk result (λ origins. Origins (texts named.now) listen.entry (map string_bytes origins.items)) }
    ensures fault { IfErr result (HasNoOrigins (texts named.now) listen.entry) }
{
    if !named.is_empty() {
        return named_origins(alloc, named);
    }
    match listen {
        Listen::Address(address) => Ok(local_origins(alloc, address.address().port())?),
        Listen::Path(_) => Err(WebFault::NoOrigin),
    }
}
