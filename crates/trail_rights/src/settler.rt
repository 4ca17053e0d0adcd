//! What acts set besides rights: who is known, masks and presets.

ghost use Rattle.std.specs.Prelude.{◌≡◌, ◌||◌, None, true, false, map};
ghost use Rattle.acl.specs.Same.{same_user, same_bit, same_preset};
ghost use Rattle.acl.specs.History.{decided, decides_mask, decides_preset};
ghost use Rattle.trail_rights.specs.Settling.{first_settler, same_setting, settler_after, settler_in, settles};

use crate::acts::Mark;
use crate::decider::decides_known;
use acl::{Act, Bit, PresetKind, UserId};

/// What acts set. Its value is the one that the latest act gives.
#[derive(Clone, Copy)]
pub enum RightsSetting {
    /// Whether an act made the user known. The owner is known without an act.
    Listed { user: UserId },
    /// Whether the user gets the bit on windows that `by` opens later.
    Mask { by: UserId, user: UserId, bit: Bit },
    /// Whether a user who becomes known gets the bit on open windows, or on commands.
    Preset { kind: PresetKind, bit: Bit },
}

/// Looks for the latest act that gives a setting its value.
#[derive(Clone, Copy)]
pub struct Settler {
    setting: RightsSetting,
    value: bool,
    found: Option<(Mark, Act)>,
}

/// Whether the masks of this user, or those for this user, begin anew.
fn begins(named: UserId, by: UserId, user: UserId) -> Option<bool>
    ensures { result ≡ decided (same_user named by || same_user named user) true }
{
    if named == by || named == user {
        Some(true)
    } else {
        None
    }
}

/// What the act says of a mask.
fn decides_mask(by: UserId, user: UserId, bit: Bit, act: &Act) -> Option<bool>
    ensures { result ≡ decides_mask by user bit act.now }
{
    match *act {
        Act::Masked {
            by: giver,
            user: named,
            bit: given,
            value,
        } => if giver == by && named == user && given == bit {
            Some(value)
        } else {
            None
        },
        Act::Known { user: named } => begins(named, by, user),
        Act::Gone { user: named } => begins(named, by, user),
        _ => None,
    }
}

/// What the act says of a preset.
fn decides_preset(kind: PresetKind, bit: Bit, act: &Act) -> Option<bool>
    ensures { result ≡ decides_preset kind bit act.now }
{
    match *act {
        Act::Preset {
            kind: named,
            bit: given,
            value,
        } => if named == kind && given == bit {
            Some(value)
        } else {
            None
        },
        _ => None,
    }
}

/// What the act says of a setting.
fn settles(setting: RightsSetting, act: &Act) -> Option<bool>
    ensures { result ≡ settles setting act.now }
{
    match setting {
        RightsSetting::Listed { user } => decides_known(user, act),
        RightsSetting::Mask { by, user, bit } => decides_mask(by, user, bit, act),
        RightsSetting::Preset { kind, bit } => decides_preset(kind, bit, act),
    }
}

/// Whether the settings are the same.
fn is_same(setting: RightsSetting, other: RightsSetting) -> bool
    ensures { result ≡ same_setting setting other }
{
    match (setting, other) {
        (RightsSetting::Listed { user }, RightsSetting::Listed { user: named }) => user == named,
        (
            RightsSetting::Mask { by, user, bit },
            RightsSetting::Mask {
                by: giver,
                user: named,
                bit: given,
            },
        ) => by == giver && user == named && bit == given,
        (
            RightsSetting::Preset { kind, bit },
            RightsSetting::Preset {
                kind: named,
                bit: given,
            },
        ) => kind == named && bit == given,
        _ => false,
    }
}

impl Settler {
    /// Before the first act.
    pub fn new(setting: RightsSetting) -> Settler
        ensures { result ≡ first_settler setting }
    {
        Settler {
            setting,
            value: !matches!(setting, RightsSetting::Listed { .. }),
            found: None,
        }
    }

    /// The setting that it looks for.
    pub fn setting(&self) -> RightsSetting
        ensures { result ≡ self.now.setting }
    {
        self.setting
    }

    /// The setting's value.
    pub fn value(&self) -> bool
        ensures { result ≡ self.now.value }
    {
        self.value
    }

    /// The act that gave the value, with its mark, if one did.
    pub fn found(&self) -> Option<(Mark, Act)>
        ensures { result ≡ self.now.found }
    {
        self.found
    }

    /// The settler after one more act.
    pub fn after(self, mark: Mark, act: &Act) -> Settler
        ensures { result ≡ settler_after mark act.now self }
    {
        match settles(self.setting, act) {
            Some(value) => Settler {
                value,
                found: Some((mark, *act)),
                ..self
            },
            None => self,
        }
    }
}

/// The first settler that looks for a setting.
pub fn settler_in(settlers: &[Settler], setting: RightsSetting) -> Option<Settler>
    ensures { result ≡ settler_in settlers.now setting }
{
    for settler in settlers {
        if is_same(settler.setting, setting) {
            return Some(*settler);
        }
    }
    None
}

/// Whether an act may give a setting a value.
fn may_settle(act: &Act) -> bool
    ensures { result ≡ false → (s : RightsSetting) → settles s act.now ≡ None }
{
    matches!(
        *act,
        Act::Known { .. } | Act::Gone { .. } | Act::Masked { .. } | Act::Preset { .. }
    )
}

/// Each settler after one more act.
pub fn settle_all(settlers: &mut Vec<Settler>, mark: Mark, act: &Act)
    ensures { settlers.new.items ≡ map (settler_after mark act.now) settlers.old.items }
{
    if !may_settle(act) {
        return;
    }
    for settler in settlers.iter_mut() {
        *settler = settler.after(mark, act);
    }
}
