//! Worked rows of a session, computed from its definitions: what four users get when they type,
//! change access lists, take locks and open windows; what policies and traps do; and to whom the laws of
//! guests apply. Each function here does nothing; its contract states the rows.

ghost use Rattle.session_laws.specs.WorkedDrawing as drawing;
ghost use Rattle.session_laws.specs.WorkedEntries as entries;
ghost use Rattle.session_laws.specs.WorkedLocking as locking;
ghost use Rattle.session_laws.specs.WorkedOpening as opening;

mod guests;
mod policies;

pub use guests::{
    consoles, guests_and_others, hidden_output, late_guests, locks_that_stay, several_openers,
    spectators,
};
pub use policies::{
    class, late_comers, locks, openers, ops, presets, removed_users, roles, single_user_mode,
    support,
};

/// Who may type and give commands: entries, leaders in both editions, masks and presets.
pub fn rights_of_users()
    ensures denied { entries.Denied }
    ensures once { entries.Once }
    ensures by_leader { entries.ByLeader }
    ensures leader_denied { entries.LeaderDenied }
    ensures second_leader { entries.SecondLeader }
    ensures two_denied { entries.TwoDenied }
    ensures first_edition { entries.FirstEdition }
    ensures no_leader { entries.NoLeader }
    ensures leaders { entries.Leaders }
    ensures leader_removed { entries.LeaderRemoved }
    ensures removed { entries.Removed }
    ensures owner_kept { entries.OwnerKept }
    ensures all_or_nothing { entries.AllOrNothing }
    ensures no_kill { entries.NoKill }
    ensures no_kill_there { entries.NoKillThere }
    ensures later_window { entries.LaterWindow }
    ensures later_name { entries.LaterName }
{}

/// Who holds a lock, and what frees it.
pub fn locks_of_windows()
    ensures stops { locking.Stops }
    ensures frees { locking.Frees }
    ensures stops_owner { locking.StopsOwner }
    ensures beats_leader { locking.BeatsLeader }
    ensures leaving_frees { locking.LeavingFrees }
    ensures entering_takes { locking.EnteringTakes }
    ensures others_lock { locking.OthersLock }
    ensures stays { locking.Stays }
    ensures withdrawn_everywhere { locking.WithdrawnEverywhere }
    ensures last_client { locking.LastClient }
    ensures default { locking.Default }
{}

/// Windows, clients, lists and keys.
pub fn windows_and_clients()
    ensures no_more { opening.NoMore }
    ensures kill { opening.Kill }
    ensures none_in_focus { opening.NoneInFocus }
    ensures new_serial { opening.NewSerial }
    ensures number_taken { opening.NumberTaken }
    ensures no_client { opening.NoClient }
    ensures window_list { opening.WindowList }
    ensures client_list { opening.ClientList }
    ensures keys_in_steps { opening.KeysInSteps }
    ensures keys_cut { opening.KeysCut }
    ensures single_user { opening.SingleUser }
    ensures not_let_in { opening.NotLetIn }
    ensures unknown { opening.Unknown }
    ensures too_small { opening.TooSmall }
    ensures wall { opening.Wall }
    ensures stuff { opening.Stuff }
{}

/// What a client sees: a window that may be read, and no more of it after r is taken; a new size;
/// and a draw without a change.
pub fn draws_of_clients()
    ensures readable { drawing.Readable }
    ensures revoked { drawing.Revoked }
    ensures begins_anew { drawing.BeginsAnew }
    ensures drawn_once { drawing.DrawnOnce }
{}
