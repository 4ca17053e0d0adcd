//! What commands do: to users and their rights, to windows, to locks, and to the page of the client that
//! gives them; what they list, and what `wall` says. What an event shares with a command is here too.
#![tactic(auto)]

mod access;
mod closing;
mod giver;
mod going;
mod leaving;
mod lists;
mod masks;
mod names;
mod objects;
mod pages;
mod window;

pub use access::{acladd, aclchg, acldel, aclgrp, aclgrp_of, aclumask, defwritelock, writelock};
pub use giver::{CommandReply, Context, client_of};
pub use leaving::{close_window, detach, detach_client, kill, multiuser, quit, wall};
pub use lists::{displays, screen, windows};
pub use pages::{focus, next, only, other, prev, remove, scrollview, select, split};
pub use window::{fit, number, stuff, title, write};
