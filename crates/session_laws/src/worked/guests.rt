//! Worked rows of the laws of guests, computed from the definitions: guests to whom the laws apply,
//! what others could do, and what frees a lock. Each function here does nothing; its contract
//! states the rows.

ghost use Rattle.session_laws.specs.WorkedConsoles as consoles;
ghost use Rattle.session_laws.specs.WorkedGuests as guests;
ghost use Rattle.session_laws.specs.WorkedHiding as hiding;
ghost use Rattle.session_laws.specs.WorkedLateComers as late;
ghost use Rattle.session_laws.specs.WorkedLocks as locks;
ghost use Rattle.session_laws.specs.WorkedOperators as operators;
ghost use Rattle.session_laws.specs.WorkedWatching as watching;

/// bob, who has x on no command that changes rights, is a guest, and what bob asks for changes
/// nothing. With x on one of them, or if another user gives such a command, bob gets more. bob
/// can't free eve's lock by leaving its window, and can by `multiuser off`.
pub fn guests_and_others()
    ensures guest { guests.BobIsGuest }
    ensures in_vain { guests.InVain }
    ensures by_himself { guests.ByHimself }
    ensures by_another { guests.ByAnother }
    ensures powerless { guests.BobIsPowerless }
    ensures stays { guests.Stays }
    ensures freed { guests.Freed }
    ensures parted { guests.Parted }
{}

/// Output that no later draw of bob's client shows is hidden from bob, also if by then the client
/// shows another window or bob may not read. None of own's windows is hidden from own.
pub fn hidden_output()
    ensures shown_before { hiding.ShownBefore }
    ensures none_of_own { hiding.NoneOfOwn }
    ensures turned_before { hiding.TurnedBefore }
    ensures turned_behind { hiding.TurnedBehind }
    ensures never_read { hiding.NeverRead }
{}

/// bob, whom the policy of a support call let in, is a spectator: bob may read the window and move
/// between windows.
pub fn spectators()
    ensures watches { watching.BobWatches }
    ensures reads { watching.HeReads }
{}

/// Confinement, if only the owner opens consoles and rights come from a file: two users of the file
/// and a guest are shut out of r, w and x. A console that is opened again gives nobody a bit before
/// the file's lines are given, not even a user who became known by hand.
pub fn consoles()
    ensures granted { consoles.Granted }
    ensures guests { consoles.AreGuestsThen }
    ensures shut_out { consoles.AllShutOut }
    ensures reopened { consoles.Reopened }
    ensures by_hand { consoles.ByHand }
{}

/// Confinement, if four users open windows: users who watch the operators get neither w nor x on
/// later windows, whichever of own, ann, bob and console opens them.
pub fn several_openers()
    ensures guests { operators.WatchersAreGuests }
    ensures no_write { operators.NoneTypes }
    ensures no_execute { operators.NoneActs }
    ensures come { operators.Come }
{}

/// A guest who becomes known after console set its masks has r, w and x on what console opens. So
/// the law of confinement doesn't hold without its premise on masks. After console masks the guest,
/// too, the guest gets nothing more.
pub fn late_guests()
    ensures guest { late.IsGuest }
    ensures unmasked { late.Unmasked }
    ensures reopened { late.Reopened }
    ensures needed { late.MasksAreNeeded }
    ensures mended { late.Mended }
    ensures nothing { late.NothingComes }
{}

/// eve holds the lock of window 2. Each way that the law of locks lists frees it, by an act on
/// eve's rights or on her leader's; other steps of other users leave it.
pub fn locks_that_stay()
    ensures holds { locks.Holds }
    ensures freed { locks.Freed }
    ensures by_leaders { locks.ByLeaders }
    ensures keeps { locks.Keeps }
    ensures own_keeps { locks.OwnKeeps }
{}
