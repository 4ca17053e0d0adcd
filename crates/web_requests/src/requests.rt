//! Requests, and what answers them.

ghost use Rattle.std.specs.Prelude.{◌≡◌, All, length, IfOk, option_copied, take};
ghost use Rattle.httparse.specs.Spans.{span_bytes, IsHeaderWithin, IsRequestWithin};
ghost use Rattle.websocket.specs.Headers.{fields_of, eq_ignore_case};
ghost use Rattle.std.specs.String.{string_bytes};
ghost use Rattle.web_requests.specs.Serving.{guards, head_of, reply, refusal, reply_with, file_at, value_of};
ghost use Rattle.web_requests.specs.Serving.{address_of, spanned, IsPage, Opens, page_for, AnswersSocket, AnswersBytes};

use crate::site::Site;
use httparse::Status;
use httparse::spans::{EMPTY_HEADER_SPAN, HeaderSpan, RequestSpans, parse_request};
use std::alloc::{AllocError, Global};
use websocket::handshake::server::{check_request, write_response};

const MOST_HEADERS: usize = 64;

/// The longest head of a request.
const LONGEST_HEAD: usize = 16_384;

/// The longest address that is kept.
const LONGEST_ADDRESS: usize = 64;

/// What a request is answered by.
#[derive(Drop)]
pub enum Response {
    /// The request's head is incomplete.
    Part,
    /// These bytes, and then the end.
    Page(Vec<u8>),
    /// These bytes, and then messages.
    Socket(Upgrade),
}

/// A WebSocket that begins.
#[derive(Drop)]
pub struct Upgrade {
    /// The answer to its request.
    pub answer: Vec<u8>,
    /// The length of its request.
    pub request: usize,
    /// The address that the web server before the bridge saw, if it told one.
    pub address: Vec<u8>,
}

// What each answer says to a browser: no code but of files of this origin, no frames, nothing kept.
const GUARDS: &[u8] =
    b"Content-Security-Policy: default-src 'none'; script-src 'self'; style-src 'self'; \
connect-src 'self'; img-src data:; base-uri 'none'; form-action 'none'; frame-ancestors 'none'\r\n\
X-Content-Type-Options: nosniff\r\n\
Referrer-Policy: no-referrer\r\n\
Cache-Control: no-store\r\n\
Cross-Origin-Opener-Policy: same-origin\r\n\
Cross-Origin-Resource-Policy: same-origin\r\n\
X-Frame-Options: DENY\r\n\
Connection: close\r\n\r\n";

#[tactic(auto, unfolding(crate::specs::Serving::guards))]
fn guards() -> &'static [u8]
    ensures { result.now ≡ guards }
{
    GUARDS
}

/// The head of an answer up to its guards.
fn head(alloc: Global, status: &str, kind: &str, len: usize) -> Result<String, AllocError>
    ensures { IfOk result (λ head. string_bytes head ≡ head_of status.now kind.now len) }
{
    let head = format!(in alloc;
        "HTTP/1.1 {status}\r\nContent-Type: {kind}\r\nContent-Length: {len}\r\n"
    )?;
    Ok(head)
}

/// An answer with a body, which is left out for HEAD.
#[tactic(auto, unfolding(crate::specs::Serving::reply))]
fn page(
    alloc: Global,
    status: &str,
    kind: &str,
    body: &[u8],
    is_shown: bool,
) -> Result<Vec<u8>, AllocError>
    ensures { IfOk result (λ bytes. bytes.items ≡ reply status.now kind.now body.now is_shown) }
{
    let mut bytes = head(alloc, status, kind, body.len())?.into_bytes();
    bytes.extend_from_slice(guards())?;
    if is_shown {
        bytes.extend_from_slice(body)?;
    }
    Ok(bytes)
}

/// An answer that only has a status.
pub fn refusal(alloc: Global, status: &str) -> Result<Vec<u8>, AllocError>
    ensures { IfOk result (λ bytes. bytes.items ≡ refusal status.now) }
{
    page(alloc, status, "text/plain", status.as_bytes(), true)
}

fn refused(alloc: Global, status: &str) -> Result<Response, AllocError>
    ensures { IfOk result (IsPage (refusal status.now)) }
{
    Ok(Response::Page(refusal(alloc, status)?))
}

// Whether a header has this name, in any case.
#[tactic(auto, unfolding(websocket::specs::Headers::eq_ignore_case))]
fn is_named(head: &[u8], span: &HeaderSpan, name: &[u8]) -> bool
    requires { IsHeaderWithin (length head.now) span.now }
    ensures { result ≡ eq_ignore_case (span_bytes head.now span.now.name) name.now }
{
    span.name.of(head).eq_ignore_ascii_case(name)
}

// The value of the one header of this name; None if there is none, or if there are two.
fn value_of<'b>(head: &'b [u8], spans: &[HeaderSpan], name: &[u8]) -> Option<&'b [u8]>
    requires { All (IsHeaderWithin (length head.now)) spans.now }
    ensures { option_copied result ≡ value_of (fields_of head.now spans.now) name.now }
{
    let mut found = None;
    for span in spans {
        if is_named(head, span, name) {
            if found.is_some() {
                return None;
            }
            found = Some(span.value.of(head));
        }
    }
    found
}

// The first bytes of an address.
fn shortened(address: &[u8]) -> &[u8]
    ensures { result.now ≡ take 64 address.now }
{
    if address.len() <= LONGEST_ADDRESS {
        return address;
    }
    &address[..LONGEST_ADDRESS]
}

// The address that the web server before the bridge saw; empty if it told none.
fn address_of(alloc: Global, head: &[u8], spans: &[HeaderSpan]) -> Result<Vec<u8>, AllocError>
    requires { All (IsHeaderWithin (length head.now)) spans.now }
    ensures { IfOk result (λ address. address.items ≡ address_of (fields_of head.now spans.now)) }
{
    match value_of(head, spans, b"X-Real-IP") {
        Some(address) => shortened(address).to_vec(alloc),
        None => Ok(Vec::new(alloc)),
    }
}

// The answer after which messages come.
fn opened(
    alloc: Global,
    accept: &[u8; 28],
    request: usize,
    address: Vec<u8>,
) -> Result<Response, AllocError>
    ensures { IfOk result (Opens accept.now request address.items) }
{
    let mut answer = Vec::new(alloc);
    match write_response(accept, &[], &mut answer) {
        Ok(()) => Ok(Response::Socket(Upgrade {
            answer,
            request,
            address,
        })),
        Err(_) => Err(AllocError),
    }
}

fn socket(
    alloc: Global,
    site: &Site,
    head: &[u8],
    found: &RequestSpans,
    spans: &[HeaderSpan],
) -> Result<Response, AllocError>
    requires { IsRequestWithin head.now spans.now found.now }
    ensures { IfOk result (AnswersSocket site.now (spanned head.now spans.now found.now)) }
{
    let fields = &spans[..found.headers];
    match value_of(head, fields, b"Origin") {
        Some(origin) if site.lets_in(origin) => {}
        _ => return refused(alloc, "403 Forbidden"),
    }
    let Ok(accept) = check_request(head, found, spans) else {
        return refused(alloc, "400 Bad Request");
    };
    let address = address_of(alloc, head, fields)?;
    opened(alloc, &accept, found.len, address)
}

// A file, for a request that asks to see it or only its head.
fn file(alloc: Global, site: &Site, method: &[u8], path: &[u8]) -> Result<Response, AllocError>
    ensures { IfOk result (IsPage (page_for site.now method.now path.now)) }
{
    let is_shown = method == b"GET".as_slice();
    if !is_shown && method != b"HEAD".as_slice() {
        return refused(alloc, "405 Method Not Allowed");
    }
    match site.file(path) {
        Some(file) => {
            let bytes = page(alloc, "200 OK", file.kind, &file.content, is_shown)?;
            Ok(Response::Page(bytes))
        }
        None => refused(alloc, "404 Not Found"),
    }
}

/// What answers the request that these bytes begin with.
pub fn answered(alloc: Global, site: &Site, bytes: &[u8]) -> Result<Response, AllocError>
    ensures { IfOk result (AnswersBytes site.now bytes.now) }
{
    let mut spans = [EMPTY_HEADER_SPAN; MOST_HEADERS];
    match parse_request(bytes, &mut spans) {
        Ok(Status::Complete(found)) => {
            let path = found.path.of(bytes);
            if path == b"/rows".as_slice() {
                socket(alloc, site, bytes, &found, &spans)
            } else {
                file(alloc, site, found.method.of(bytes), path)
            }
        }
        Ok(Status::Partial) if bytes.len() < LONGEST_HEAD => Ok(Response::Part),
        Ok(Status::Partial) => refused(alloc, "431 Request Header Fields Too Large"),
        Err(_) => refused(alloc, "400 Bad Request"),
    }
}
