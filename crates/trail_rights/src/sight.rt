//! Windows, deciders and settlers, after the acts of a file's entries.

ghost use Rattle.std.specs.Prelude.{◌≡◌, ◌∷◌, OnOk, IfOk, [], map};
ghost use Rattle.std.specs.List.{AllByRecursion};
ghost use Rattle.acl.specs.declared.user_id.UserId.{UserId};
ghost use Rattle.trail_rights.specs.Marks.{marked_on};
ghost use Rattle.trail_rights.specs.Deciding.{HasDecided, decider_after, sought_by};
ghost use Rattle.trail_rights.specs.Settling.{HasSettled, setting_by};
ghost use Rattle.trail_rights.specs.Windows.{windows_after, without_window};
ghost use Rattle.trail_rights.specs.Seeing.{HasSeen, Sees, sought};

use crate::acts::Mark;
use crate::decider::Decider;
use crate::settler::{Settler, settle_all};
use acl::Act;
use std::alloc::AllocError;

/// Open windows, what decides some bits and the values of some settings, after the acts that were followed.
#[derive(Drop)]
pub struct Sight {
    windows: Vec<u32>,
    deciders: Vec<Decider>,
    settlers: Vec<Settler>,
}

/// Drops this window from the list.
fn drop_window(windows: &mut Vec<u32>, window: u32)
    ensures { windows.new.items ≡ without_window window windows.old.items }
{
    windows.retain(|other| *other != window);
}

/// The open windows after an act: a window that opens is the last.
fn follow_windows(windows: &mut Vec<u32>, act: &Act) -> Result<(), AllocError>
    ensures { OnOk result (windows.new.items ≡ windows_after act.now windows.old.items) }
{
    match *act {
        Act::Opened { window, .. } => {
            drop_window(windows, window);
            windows.push(window)?;
        }
        Act::Closed { window } => drop_window(windows, window),
        _ => {}
    }
    Ok(())
}

/// Each decider after one more act.
fn decide_all(deciders: &mut Vec<Decider>, mark: Mark, act: &Act)
    ensures { deciders.new.items ≡ map (decider_after mark act.now) deciders.old.items }
{
    for decider in deciders.iter_mut() {
        *decider = decider.after(mark, act);
    }
}

impl Sight {
    /// Follows one act.
    fn follow(&mut self, mark: Mark, act: &Act) -> Result<(), AllocError>
        ensures sees { OnOk result (Sees self.old self.new (λ marked. (mark, act.now) ∷ marked)) }
        ensures sought { sought self.new ≡ sought self.old }
    {
        follow_windows(&mut self.windows, act)?;
        decide_all(&mut self.deciders, mark, act);
        settle_all(&mut self.settlers, mark, act);
        Ok(())
    }

    /// Follows acts in order.
    fn follow_all(&mut self, acts: &[(Mark, Act)]) -> Result<(), AllocError>
        ensures sees { OnOk result (Sees self.old self.new (λ marked. marked_on marked acts.now)) }
        ensures sought { sought self.new ≡ sought self.old }
    {
        for pair in acts {
            self.follow(pair.0, &pair.1)?;
        }
        Ok(())
    }

    /// What these deciders and settlers, given as they are before the first act, find in acts. It looks for
    /// nothing else.
    pub fn of(
        deciders: Vec<Decider>,
        settlers: Vec<Settler>,
        acts: &[(Mark, Act)],
    ) -> Result<Sight, AllocError>
        ensures seen { (owner : UserId) → AllByRecursion (HasDecided owner []) deciders.items →
            AllByRecursion (HasSettled []) settlers.items →
            IfOk result (λ sight. HasSeen sight owner (marked_on [] acts.now)) }
        ensures sought { IfOk result (λ sight. sought sight
            ≡ (map sought_by deciders.items, map setting_by settlers.items)) }
    {
        let mut sight = Sight {
            windows: Vec::new(*deciders.allocator()),
            deciders,
            settlers,
        };
        sight.follow_all(acts)?;
        Ok(sight)
    }

    /// The windows that are open, in the order in which they were opened.
    pub fn windows(&self) -> &[u32]
        ensures { result.now ≡ self.now.windows.items }
    {
        self.windows.as_slice()
    }

    /// What decides the bits that it looks for.
    pub fn deciders(&self) -> &[Decider]
        ensures { result.now ≡ self.now.deciders.items }
    {
        self.deciders.as_slice()
    }

    /// What gives their values to the settings that it looks for.
    pub fn settlers(&self) -> &[Settler]
        ensures { result.now ≡ self.now.settlers.items }
    {
        self.settlers.as_slice()
    }
}
