//! The program `mux`: a client, a window or a command of a session that a server serves.
#![tactic(auto)]

mod attach;
mod beside;
mod ending;
mod opening;
mod reading;
mod shared;
mod typing;
mod waiting;
mod writing;

pub use attach::client;
pub use beside::Connects;
use client_words::ClientHost;
use std::io::{Read, Write};
use std::time::Clock;

/// A runtime with what a peer's threads ask for, except to wait and to start threads: a function says
/// these two itself, as they let it never return.
pub trait PeerHost: Connects + ClientHost + AllocGlobal + Clock + Copy + Send + 'static {}

impl<R: Connects + ClientHost + AllocGlobal + Clock + Copy + Send + 'static> PeerHost for R {}

/// What a peer reads its input from, in a thread of its own.
pub trait Source: Read + Send + Drop + 'static {}

impl<I: Read + Send + Drop + 'static> Source for I {}

/// What a peer writes its output to, in a thread of its own.
pub trait Sink: Write + Send + Drop + 'static {}

impl<O: Write + Send + Drop + 'static> Sink for O {}
