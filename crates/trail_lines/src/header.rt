//! The first line of a trail's file.

ghost use Rattle.std.specs.Prelude.{◌≡◌, ◌++◌, OnOk};
ghost use Rattle.trail_lines.specs.Unreadable.{Gives};
ghost use Rattle.trail_lines.specs.Heading.{edition_in, form_text, header_text, header_fields, read_header};

use crate::UnreadLine;
use acl::{Edition, UserId};
use line_fields::parts::user_at;
use line_fields::{cut, read_u64};
use session::{Bytes, push_decimal};
use std::alloc::{AllocError, Global};

/// What the first line says. Nothing proves it: the owner is whom the writer of the file named.
pub struct Header {
    pub edition: Edition,
    pub owner: UserId,
    /// The program that wrote the file, and its version: one word.
    pub version: Bytes,
    /// When the trail began, in milliseconds since 1970.
    pub ms: u64,
}

impl Drop for Header {
    fn drop(self) {
        let Header {
            edition: _,
            owner: _,
            version: _,
            ms: _,
        } = self;
    }
}

/// The edition that a digit means, if it means one.
fn edition_in(word: &[u8]) -> Option<Edition>
    ensures { result ≡ edition_in word.now }
{
    if word == b"1".as_slice() {
        Some(Edition::First)
    } else if word == b"2".as_slice() {
        Some(Edition::Second)
    } else {
        None
    }
}

/// The beginning of a first line, by the edition of groups.
fn form_text(edition: Edition) -> &'static [u8]
    ensures { result.now ≡ form_text edition }
{
    match edition {
        Edition::First => b"mux-trail 1 1 ",
        Edition::Second => b"mux-trail 1 2 ",
    }
}

/// Appends the first line, without a line feed.
pub fn print_header(header: &Header, out: &mut Vec<u8>) -> Result<(), AllocError>
    ensures { OnOk result (out.new.items ≡ out.old.items ++ header_text header.now) }
{
    out.extend_from_slice(form_text(header.edition))?;
    out.extend_from_slice(header.owner.as_bytes())?;
    out.extend_from_slice(b" ")?;
    out.extend_from_slice(header.version.as_slice())?;
    out.extend_from_slice(b" ")?;
    push_decimal(header.ms, out)
}

/// The fields of a first line, in any spelling.
#[tactic(auto, unfolding(crate::specs::Heading::header_fields))]
fn header_fields(alloc: Global, line: &[u8]) -> Result<Header, UnreadLine>
    ensures { Gives (λ header. header) result (header_fields line.now) }
{
    let (_, rest) = cut(line, b' ').ok_or(UnreadLine::Malformed)?;
    let (_, rest) = cut(rest, b' ').ok_or(UnreadLine::Malformed)?;
    let (edition, rest) = cut(rest, b' ').ok_or(UnreadLine::Malformed)?;
    let edition = edition_in(edition).ok_or(UnreadLine::Malformed)?;
    let (owner, rest) = user_at(rest, b' ').ok_or(UnreadLine::Malformed)?;
    let (version, ms) = cut(rest, b' ').ok_or(UnreadLine::Malformed)?;
    let ms = read_u64(ms).ok_or(UnreadLine::Malformed)?;
    let version = Bytes::of(alloc, version)?;
    Ok(Header {
        edition,
        owner,
        version,
        ms,
    })
}

/// What a first line says, given without its line feed. `Malformed` if no first line is printed so.
#[tactic(auto, unfolding(crate::specs::Heading::read_header))]
pub fn read_header(alloc: Global, line: &[u8]) -> Result<Header, UnreadLine>
    ensures { Gives (λ header. header) result (read_header line.now) }
{
    let header = header_fields(alloc, line)?;
    let mut printed = Vec::new(alloc);
    print_header(&header, &mut printed)?;
    if printed.as_slice() != line {
        return Err(UnreadLine::Malformed);
    }
    Ok(header)
}
