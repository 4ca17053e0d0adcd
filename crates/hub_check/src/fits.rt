//! Whether an entry has only acts that its event can have, and is of a user who may have it.

ghost use Rattle.std.specs.Prelude.{◌≡◌, ◌↔◌, true};
ghost use Rattle.std.specs.List.{list_all};
ghost use Rattle.acl.specs.declared.leaders.Edition.{Edition};
ghost use Rattle.acl.specs.declared.user_id.UserId.{UserId};
ghost use Rattle.acl.specs.History.{History};
ghost use Rattle.hub_trail.specs.Fitting.{detaches};
ghost use Rattle.hub_trail.specs.Legal.{can_have, is_client_of, Fits, IsOfKnown};
ghost use Rattle.rights.specs.Following.{StandsAfter};

use acl::{Act, UserId};
use hub_record::TrailEntry;
use hub_trail::{Ending, Finished, Kept, all_shut, attaches_one, from_command, made_by, opens_one};
use rights::Rights;
use session::Verdict;

/// Whether the act is that this client goes, or that its user leaves a window.
fn detaches(rights: &Rights, client: u32, act: Act) -> bool
    ensures { (edition : Edition) (owner : UserId) (h : History) →
        StandsAfter rights.now edition owner h →
        result ≡ detaches (is_client_of h client) client act }
{
    match act {
        Act::Parted { client: parted } => parted == client,
        Act::Left { user, .. } => rights.is_client_of(client, user),
        _ => false,
    }
}

/// Whether by each act this client goes, or its user leaves a window.
fn all_detach(rights: &Rights, client: u32, acts: &[Act]) -> bool
    ensures { (edition : Edition) (owner : UserId) (h : History) →
        StandsAfter rights.now edition owner h →
        result ≡ list_all (detaches (is_client_of h client) client) acts.now }
{
    for act in acts {
        if !detaches(rights, client, *act) {
            return false;
        }
    }
    true
}

/// Whether an event that was done can have these acts.
fn can_have(
    rights: &Rights,
    event: &Kept,
    finished: Finished,
    verdicts: &[Verdict],
    acts: &[Act],
) -> bool
    ensures { (edition : Edition) (owner : UserId) (h : History) →
        StandsAfter rights.now edition owner h →
        result ≡ can_have h event.now finished verdicts.now acts.now }
{
    match event {
        Kept::Attach { user, .. } => attaches_one(finished.made, *user, acts),
        Kept::Detach { client } => all_detach(rights, *client, acts),
        Kept::Keys { client } => made_by(Some(*client), from_command(verdicts), acts),
        Kept::Command { .. } => made_by(None, from_command(verdicts), acts),
        Kept::Open { user, .. } => opens_one(finished.made, *user, acts),
        Kept::Closed { window } => all_shut(*window, acts),
    }
}

/// Whether an entry of this event has only acts that the event can have, and none if it was refused.
pub fn fits(rights: &Rights, event: &Kept, entry: &TrailEntry) -> bool
    ensures { (edition : Edition) (owner : UserId) (h : History) →
        StandsAfter rights.now edition owner h → (result ≡ true)
        ↔ Fits h event.now entry.now.reply entry.now.verdicts entry.now.acts }
{
    match entry.ending() {
        Ok(finished) => can_have(rights, event, finished, entry.verdicts(), entry.acts()),
        Err(_) => entry.acts().is_empty(),
    }
}

/// Whether an Attach, a Command or an Open is a known user's, or it wasn't done. True of other events.
pub fn is_of_known(rights: &Rights, event: &Kept, ending: &Ending) -> bool
    ensures { (edition : Edition) (owner : UserId) (h : History) →
        StandsAfter rights.now edition owner h → (result ≡ true)
        ↔ IsOfKnown owner h event.now ending.now }
{
    match ending {
        Ok(_) => match event {
            Kept::Attach { user, .. } => rights.knows(*user),
            Kept::Command { user, .. } => rights.knows(*user),
            Kept::Open { user, .. } => rights.knows(*user),
            Kept::Detach { .. } | Kept::Keys { .. } | Kept::Closed { .. } => true,
        },
        Err(_) => true,
    }
}
