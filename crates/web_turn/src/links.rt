//! Links: each stands for a user and a token, and is good for one use.

ghost use Rattle.std.specs.Prelude.{◌≡◌, ℕ, List, None, IfSome, option_map};
ghost use Rattle.std.specs.String.{string_bytes};
ghost use Rattle.web_turn.specs.Links.{IsLinkFile, StandsAt, TakesLink};
ghost use Rattle.web_turn.specs.Turning.{Gives, Redeems, TakesFrom};

use crate::link_files::LinkFiles;
use attach_proto::Token;
use web_relay::Relay;

/// What a page is told if its link stands for nothing.
pub const USED: &str = "this link was used, or is too old: ask for a new one";

// The name, the token and the number that the file of a link has.
fn parts_of(text: &str) -> Option<(&str, &str, u64)>
    ensures some { IfSome result (λ it. IsLinkFile text.now it.0.now it.1.now it.2) }
    ensures none { result ≡ None → (name token : List ℕ) (end : ℕ) → IsLinkFile text.now name token end → ⊥ }
{
    let Some((name, rest)) = text.split_once(' ') else {
        return None;
    };
    let Some((token, rest)) = rest.split_once(' ') else {
        return None;
    };
    let Some((end, _)) = rest.split_once('\n') else {
        return None;
    };
    match end.parse::<u64>() {
        Ok(end) => Some((name, token, end)),
        Err(_) => None,
    }
}

// The user and the token that a link with this file stands for, this number of seconds after 1970.
#[tactic(auto, using(crate::proofs::Linking::is_over))]
fn link_at(text: &str, seconds: u64) -> Option<(&str, &str)>
    ensures some { IfSome result (λ it. StandsAt text.now seconds it.0.now it.1.now) }
    ensures none { result ≡ None → (name token : List ℕ) → StandsAt text.now seconds name token → ⊥ }
{
    let Some((name, token, end)) = parts_of(text) else {
        return None;
    };
    if end <= seconds {
        return None;
    }
    Some((name, token))
}

/// What takes links. Its relation is shown by a call alone: a user and a token are those of a file that was taken.
pub trait TakesLinks {
    ghost use Rattle.std.specs.Prelude.{ℕ, List, Option, option_map};
    ghost use Rattle.std.specs.String.{string_bytes};

    // A folder, the secret of a link, and what was taken: the text of its file, and when, in seconds after 1970.
    ghost takes: { Self → (folder secret : List ℕ) → Option (List ℕ × ℕ) → Type 0 };

    /// Takes the file of the link with this secret: only one use can remove it. None if it was used or never was.
    fn take_link(&self, folder: &str, secret: Token) -> Option<(String, u64)>
        ensures { takes self.now folder.now secret (option_map (λ it. (string_bytes it.0, it.1)) result) };
}

impl<R: LinkFiles> TakesLinks for R {
    ghost takes = { λ host folder secret taken. TakesLink (R.finds host) (R.removes host) folder secret taken };

    fn take_link(&self, folder: &str, secret: Token) -> Option<(String, u64)> {
        let found = self.find_link(folder, secret)?;
        self.remove_link(folder, found)
    }
}

// Gives a page what its link stands for.
fn give<S: Drop>(text: &str, seconds: u64, relay: &mut Relay<S>)
    ensures { Gives text.now seconds relay.old relay.new }
{
    match link_at(text, seconds) {
        Some((name, token)) => relay.hand(name, token),
        None => relay.refuse(USED),
    }
}

// Takes the file of the link with this secret, if there is a folder of links.
fn take_from<R: TakesLinks>(rt: &R, links: Option<&str>, secret: Token) -> Option<(String, u64)>
    ensures { TakesFrom (R.takes rt.now) links.entry secret (option_map (λ it. (string_bytes it.0, it.1)) result) }
{
    match links {
        Some(folder) => rt.take_link(folder, secret),
        None => None,
    }
}

/// Gives a page that shows a link the user and the token that it stands for.
pub fn redeem<R: TakesLinks, S: Drop>(rt: &R, links: Option<&str>, relay: &mut Relay<S>)
    ensures { Redeems (R.takes rt.now) links.entry relay.old relay.new }
{
    let Some(secret) = relay.secret() else {
        return;
    };
    let Some((text, seconds)) = take_from(rt, links, secret) else {
        return relay.refuse(USED);
    };
    give(text.as_str(), seconds, relay);
}
