//! What a client's user types, on its way to the session: it is read along with the session, so that a client's own
//! commands come between two keys.
#![tactic(auto)]

mod frames;
mod typing;

ghost use Rattle.std.specs.Prelude.{◌≡◌, ◌<◌, ◌++◌, ◌∷◌, [], ℕ, List, codes};
ghost use Rattle.keys.specs.Grammar.{items, line, nothing};
ghost use Rattle.client_typing.specs.Assisting.{HasSent, Makes, Standing};
ghost use Rattle.client_typing.specs.Fitting.{fit_keys, given_keys, IsLine};
ghost use Rattle.client_typing.specs.Own.{view_command};

pub use frames::{put_frame, put_frames};
pub use typing::Typing;

/// Where the session waits for no key, the keys that give a command are one line of the prompt, and what the
/// user typed before and after it reads as it does alone. The client's own commands are such ones.
pub fn own_keys_split_nothing()
    ensures given { (command before later : List ℕ) → IsLine command → (items before).1 ≡ nothing
        → items (before ++ (given_keys command ++ later))
        ≡ ((items before).0 ++ line command ∷ (items later).0, (items later).1) }
    ensures alone { (before later : List ℕ) → (items before).1 ≡ nothing
        → items (before ++ later) ≡ ((items before).0 ++ (items later).0, (items later).1) }
    ensures fit { IsLine (codes "fit") }
    ensures view { (back : ℕ) → back < 65536 → IsLine (view_command back) }
{}

/// With keys of its own a client sends each key that is typed, in order and once, but for those that it takes. What it
/// gives of its own comes where the session waits for no key, no matter how the keys are split among reads.
pub fn typed_keys_are_sent()
    ensures begins { HasSent nothing 0 [] [] }
    ensures sent { (lines : ℕ) (old new : Standing) (keys more typed sent : List ℕ) → Makes lines old keys more new
        → HasSent old.rest old.back typed sent → HasSent new.rest new.back (typed ++ keys) (sent ++ more) }
    ensures fit { (back : ℕ) (typed sent : List ℕ) → HasSent nothing back typed sent
        → HasSent nothing back typed (sent ++ fit_keys) }
{}
