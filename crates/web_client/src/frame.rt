//! Frames of a page.

ghost use Rattle.std.specs.Prelude.{◌≡◌, ◌↔◌, option_map, IfOk, IfSome, IsTrue};
ghost use Rattle.websocket.specs.Content.{received_content, IsReceivedInside, HasValidText};
ghost use Rattle.web_client.specs.Frames.{answered_by, answered_after, IsSaid};

use crate::wire::WireFault;
use std::alloc::Global;
use websocket::protocol::{Message, Received};

/// What a frame of the page was.
#[derive(Drop)]
pub enum PageFrame {
    /// It isn't whole, or the connection ends with it.
    None,
    /// It has no message for the bridge.
    Other,
    Message(Vec<u8>),
}

impl PageFrame {
    /// Whether no more frames are read now.
    pub fn is_last(&self) -> bool
        ensures { IsTrue result ↔ (self.now ≡ PageFrame.None) }
    {
        match self {
            PageFrame::None => true,
            PageFrame::Other | PageFrame::Message(_) => false,
        }
    }
}

/// What a frame says that was read, if it ends a message. A page sends no texts.
pub fn said(
    alloc: Global,
    received: &Option<Received>,
    input: &[u8],
) -> Result<PageFrame, WireFault>
    requires inside { IfSome received.now (IsReceivedInside input.now) }
    requires text { IfSome received.now (λ it. HasValidText (received_content input.now it)) }
    ensures { IfOk result (IsSaid (option_map (received_content input.now) received.now)) }
{
    match received {
        Some(received) => match received.message(input) {
            Message::Binary(bytes) => Ok(PageFrame::Message(bytes.to_vec(alloc)?)),
            Message::Text(_) => Ok(PageFrame::Message(Vec::new(alloc))),
            Message::Close(_) => Ok(PageFrame::None),
            Message::Ping(_) | Message::Pong(_) => Ok(PageFrame::Other),
        },
        None => Ok(PageFrame::Other),
    }
}

// The number of bytes that a pong answers for.
fn count_in(bytes: &[u8], before: u64) -> u64
    ensures { result ≡ answered_by bytes.now before }
{
    match bytes.first_chunk::<8>() {
        Some(count) => u64::from_be_bytes(*count),
        None => before,
    }
}

/// How many bytes of rows the page has answered for, after a frame that was read.
pub fn answered_for(received: &Option<Received>, input: &[u8], before: u64) -> u64
    requires inside { IfSome received.now (IsReceivedInside input.now) }
    requires text { IfSome received.now (λ it. HasValidText (received_content input.now it)) }
    ensures { result ≡ answered_after (option_map (received_content input.now) received.now) before }
{
    match received {
        Some(received) => match received.message(input) {
            Message::Pong(bytes) => count_in(bytes, before),
            Message::Binary(_) | Message::Text(_) | Message::Close(_) | Message::Ping(_) => before,
        },
        None => before,
    }
}
