//! The users that words name.

ghost use Rattle.std.specs.Prelude.{◌≡◌, IfOk, map};
ghost use Rattle.acl.specs.Table.{StandsFor};
ghost use Rattle.session_model.specs.Tables.{Tables};
ghost use Rattle.session_model.specs.Naming.{names_of, new_leader_of};
ghost use Rattle.session_commands.specs.Asked.{named, other_names};

use acl::{Acl, NewLeader, UserId};
use command_lang::{Leader, Text, Users};
use std::alloc::{AllocError, Global};

/// The known users but the owner, in the order in which they became known.
pub fn others(alloc: Global, acl: &Acl) -> Result<Vec<Option<UserId>>, AllocError>
    ensures { IfOk result (λ names. names.items ≡ other_names acl.now) }
{
    let owner = acl.owner();
    let mut names = Vec::new(alloc);
    for place in 0..acl.user_count() {
        let user = acl.user_at(place);
        if Some(owner) != user {
            names.push(user)?;
        }
    }
    Ok(names)
}

/// The user that a word names, if it is a name.
pub fn named(word: &Text) -> Option<UserId>
    ensures { result ≡ named word.now }
{
    UserId::of(word.as_str().as_bytes())
}

/// The users that words name, or none for a word that is no name.
fn each_named(alloc: Global, words: &[Text]) -> Result<Vec<Option<UserId>>, AllocError>
    ensures { IfOk result (λ names. names.items ≡ map named words.now) }
{
    words.iter().map(|word| named(word)).collect(alloc)
}

/// The users of a command on the lists: `*` is all known users but the owner, and a word that is no
/// name names nobody.
pub fn names_of(alloc: Global, acl: &Acl, users: &Users) -> Result<Vec<Option<UserId>>, AllocError>
    ensures { IfOk result (λ names. (t : Tables) → StandsFor acl.now t.edition t.owner t.acts
        → names.items ≡ names_of t users.now) }
{
    match users {
        Users::All => others(alloc, acl),
        Users::Listed(words) => each_named(alloc, words.as_slice()),
    }
}

/// The leader that a word names, or nobody for `none`.
pub fn new_leader(leader: &Leader) -> NewLeader
    ensures { result ≡ new_leader_of leader.now }
{
    match leader {
        Leader::Nobody => NewLeader::Nobody,
        Leader::Named(word) => NewLeader::Named(named(word)),
    }
}
