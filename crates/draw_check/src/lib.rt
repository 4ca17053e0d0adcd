//! Whether bytes from a server consist of the control functions that draws use.
#![tactic(auto)]

mod place;

ghost use Rattle.std.specs.Prelude.{◌≡◌, ◌↔◌, ◌++◌, [], ℕ, List, IsTrue, true};
ghost use Rattle.draw_check.specs.Functions.{BeginDraws, is_function, AreDraws};
ghost use Rattle.draw_check.specs.Places.{place_after};
ghost use Rattle.std.specs.List.{AllByRecursion, flat_map};
ghost use Rattle.control_parser.specs.declared.parser.Func.{Func};
ghost use Rattle.control_parser.specs.Spelling.{spelling, IsGivenInUtf8};
ghost use Rattle.draw_check.specs.Used.{is_used};

use crate::place::DrawPlace;
use std::marker::Model;

/// Checks whether bytes consist of the functions that draws use.
#[derive(Drop)]
pub struct DrawCheck {
    /// `None` once a byte came that no such function has there.
    place: Option<DrawPlace>,
}

impl Model for DrawCheck {
    ghost use Rattle.std.specs.Prelude.{Option};
    ghost use Rattle.draw_check.specs.declared.place.DrawPlace.{DrawPlace};

    ghost Value = { Option DrawPlace };

    ghost view = { λ c. c.place };
}

impl DrawCheck {
    /// A check that has read nothing.
    pub fn new() -> DrawCheck
        ensures { result ≡ place_after [] }
    {
        DrawCheck {
            place: Some(DrawPlace::Between),
        }
    }

    /// Reads more bytes. Returns whether all bytes up to here begin a list of functions that draws
    /// use. Once they don't, no later bytes do.
    pub fn feed(&mut self, bytes: &[u8]) -> bool
        ensures stands { (came : List ℕ) → self.old ≡ place_after came →
            self.new ≡ place_after (came ++ bytes.now) }
        ensures passes { (came : List ℕ) → self.old ≡ place_after came →
            (IsTrue result ↔ BeginDraws (came ++ bytes.now)) }
    {
        for byte in bytes {
            self.place = match self.place {
                Some(place) => place.next(*byte),
                None => None,
            };
        }
        self.place.is_some()
    }
}

/// The 7-bit spelling of a control function that draws use is one of the functions of a draw.
pub fn used_functions_pass()
    ensures { (f : Func) → IsGivenInUtf8 f → is_used f ≡ true → is_function (spelling f) ≡ true }
{}

/// No bytes are functions of a draw, and functions of a draw can follow one another.
pub fn draws_join()
    ensures none { AreDraws [] }
    ensures joined { (front later : List ℕ) → AreDraws front → AreDraws later → AreDraws (front ++ later) }
    ensures one { (bytes : List ℕ) → is_function bytes ≡ true → AreDraws bytes }
{}
