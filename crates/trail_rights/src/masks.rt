//! Masks, and what a user gets who becomes known.

ghost use Rattle.std.specs.Prelude.{◌≡◌, ◌++◌, [], IfOk, OnOk, map};
ghost use Rattle.std.specs.List.{AllByRecursion, flat_map};
ghost use Rattle.session.specs.Texts.{letter};
ghost use Rattle.trail_rights.specs.declared.settler.RightsSetting.TheVariants.{Listed};
ghost use Rattle.trail_rights.specs.Settling.{HasSettled, first_settler, setting_by};
ghost use Rattle.trail_rights.specs.Masking.{masks_for, masks_of, presets_of, settings_of};
ghost use Rattle.trail_rights.specs.Masking.{given_text, mask_letter, mask_text, masks_text};
ghost use Rattle.trail_rights.specs.Masking.{newcomer_text, other_text, preset_letter, preset_text, setting_text};

use crate::settler::{RightsSetting, Settler, settler_in};
use acl::{Bit, PresetKind, UserId};
use std::alloc::{AllocError, Global};

/// Appends what an opener masks for a user.
fn push_masks(by: UserId, user: UserId, settings: &mut Vec<RightsSetting>) -> Result<(), AllocError>
    ensures { OnOk result (settings.new.items ≡ settings.old.items ++ masks_for by user) }
{
    settings.extend_from_slice(&[
        RightsSetting::Mask {
            by,
            user,
            bit: Bit::Read,
        },
        RightsSetting::Mask {
            by,
            user,
            bit: Bit::Write,
        },
        RightsSetting::Mask {
            by,
            user,
            bit: Bit::Execute,
        },
    ])
}

/// Appends what an opener masks for each user.
fn push_all_masks(
    by: UserId,
    users: &[UserId],
    settings: &mut Vec<RightsSetting>,
) -> Result<(), AllocError>
    ensures { OnOk result (settings.new.items ≡ settings.old.items ++ masks_of users.now by) }
{
    for user in users {
        push_masks(by, *user, settings)?;
    }
    Ok(())
}

/// Appends the presets of a kind.
fn push_presets(kind: PresetKind, settings: &mut Vec<RightsSetting>) -> Result<(), AllocError>
    ensures { OnOk result (settings.new.items ≡ settings.old.items ++ presets_of kind) }
{
    settings.extend_from_slice(&[
        RightsSetting::Preset {
            kind,
            bit: Bit::Read,
        },
        RightsSetting::Preset {
            kind,
            bit: Bit::Write,
        },
        RightsSetting::Preset {
            kind,
            bit: Bit::Execute,
        },
    ])
}

/// Appends which of these users are known.
fn push_listed(users: &[UserId], settings: &mut Vec<RightsSetting>) -> Result<(), AllocError>
    ensures { OnOk result (settings.new.items ≡ settings.old.items ++ map Listed users.now) }
{
    for user in users {
        settings.push(RightsSetting::Listed { user: *user })?;
    }
    Ok(())
}

/// Appends what each opener masks for each user.
fn push_each_masks(users: &[UserId], settings: &mut Vec<RightsSetting>) -> Result<(), AllocError>
    ensures { OnOk result (settings.new.items ≡ settings.old.items ++ flat_map (masks_of users.now) users.now) }
{
    for by in users {
        push_all_masks(*by, users, settings)?;
    }
    Ok(())
}

/// Settlers of these settings, before the first act.
fn settlers_of(alloc: Global, settings: &[RightsSetting]) -> Result<Vec<Settler>, AllocError>
    ensures { IfOk result (λ settlers. settlers.items ≡ map first_settler settings.now) }
{
    let mut settlers = Vec::new(alloc);
    for setting in settings {
        settlers.push(Settler::new(*setting))?;
    }
    Ok(settlers)
}

/// Settlers before the first act: of who is known, what each user masks for each, and the presets.
pub fn settings_of(alloc: Global, users: &[UserId]) -> Result<Vec<Settler>, AllocError>
    ensures sought { IfOk result (λ settlers. map setting_by settlers.items ≡ settings_of users.now) }
    ensures settled { IfOk result (λ settlers. AllByRecursion (HasSettled []) settlers.items) }
{
    let mut settings = Vec::new(alloc);
    push_listed(users, &mut settings)?;
    push_each_masks(users, &mut settings)?;
    push_presets(PresetKind::Windows, &mut settings)?;
    push_presets(PresetKind::Commands, &mut settings)?;
    settlers_of(alloc, settings.as_slice())
}

/// The letter of a bit.
pub fn letter(bit: Bit) -> &'static [u8]
    ensures { result.now ≡ letter bit }
{
    match bit {
        Bit::Read => b"r",
        Bit::Write => b"w",
        Bit::Execute => b"x",
    }
}

/// The letter of a bit if the setting gives it, else a hyphen; a question mark if the setting wasn't
/// looked for.
fn given_text(settler: Option<Settler>, bit: Bit) -> &'static [u8]
    ensures { result.now ≡ given_text settler bit }
{
    match settler {
        Some(settler) if settler.value() => letter(bit),
        Some(_) => b"-",
        None => b"?",
    }
}

/// Appends the letter of a bit if the setting gives it, else a hyphen or a question mark.
fn push_setting(
    settlers: &[Settler],
    setting: RightsSetting,
    bit: Bit,
    out: &mut Vec<u8>,
) -> Result<(), AllocError>
    ensures { OnOk result (out.new.items ≡ out.old.items ++ setting_text settlers.now setting bit) }
{
    out.extend_from_slice(given_text(settler_in(settlers, setting), bit))
}

/// Appends the letter of a bit if a mask leaves it to a user, else a hyphen or a question mark.
fn push_mask_bit(
    settlers: &[Settler],
    by: UserId,
    user: UserId,
    bit: Bit,
    out: &mut Vec<u8>,
) -> Result<(), AllocError>
    ensures { OnOk result (out.new.items ≡ out.old.items ++ mask_letter settlers.now by user bit) }
{
    push_setting(settlers, RightsSetting::Mask { by, user, bit }, bit, out)
}

/// Appends which bits a user gets on windows that an opener opens later.
fn push_mask(
    settlers: &[Settler],
    by: UserId,
    user: UserId,
    out: &mut Vec<u8>,
) -> Result<(), AllocError>
    ensures { OnOk result (out.new.items ≡ out.old.items ++ mask_text settlers.now by user) }
{
    out.extend_from_slice(b" ")?;
    out.extend_from_slice(user.as_bytes())?;
    out.extend_from_slice(b":")?;
    push_mask_bit(settlers, by, user, Bit::Read, out)?;
    push_mask_bit(settlers, by, user, Bit::Write, out)?;
    push_mask_bit(settlers, by, user, Bit::Execute, out)
}

/// Appends which bits a user gets on windows that an opener opens later, unless they are the opener.
fn push_other(
    settlers: &[Settler],
    by: UserId,
    user: UserId,
    out: &mut Vec<u8>,
) -> Result<(), AllocError>
    ensures { OnOk result (out.new.items ≡ out.old.items ++ other_text settlers.now by user) }
{
    if user == by {
        return Ok(());
    }
    push_mask(settlers, by, user, out)
}

/// Appends which bits each other user gets on windows that an opener opens later.
fn push_others(
    settlers: &[Settler],
    users: &[UserId],
    by: UserId,
    out: &mut Vec<u8>,
) -> Result<(), AllocError>
    ensures { OnOk result (out.new.items ≡ out.old.items ++ flat_map (other_text settlers.now by) users.now) }
{
    for user in users {
        push_other(settlers, by, *user, out)?;
    }
    Ok(())
}

/// Appends the line of an opener: which bits each other user gets on windows that they open later.
fn push_mask_line(
    settlers: &[Settler],
    users: &[UserId],
    by: UserId,
    out: &mut Vec<u8>,
) -> Result<(), AllocError>
    ensures { OnOk result (out.new.items ≡ out.old.items ++ masks_text settlers.now users.now by) }
{
    out.extend_from_slice(b"masks ")?;
    out.extend_from_slice(by.as_bytes())?;
    push_others(settlers, users, by, out)?;
    out.extend_from_slice(b"\n")
}

/// Appends the letter of a bit if a preset gives it.
fn push_preset_bit(
    settlers: &[Settler],
    kind: PresetKind,
    bit: Bit,
    out: &mut Vec<u8>,
) -> Result<(), AllocError>
    ensures { OnOk result (out.new.items ≡ out.old.items ++ preset_letter settlers.now kind bit) }
{
    push_setting(settlers, RightsSetting::Preset { kind, bit }, bit, out)
}

/// Appends the bits of a preset.
fn push_preset(settlers: &[Settler], kind: PresetKind, out: &mut Vec<u8>) -> Result<(), AllocError>
    ensures { OnOk result (out.new.items ≡ out.old.items ++ preset_text settlers.now kind) }
{
    push_preset_bit(settlers, kind, Bit::Read, out)?;
    push_preset_bit(settlers, kind, Bit::Write, out)?;
    push_preset_bit(settlers, kind, Bit::Execute, out)
}

/// Appends what a user gets who becomes known now: on open windows, on commands, and on windows that are
/// opened later, since no mask takes a bit from them yet.
fn push_newcomer(settlers: &[Settler], out: &mut Vec<u8>) -> Result<(), AllocError>
    ensures { OnOk result (out.new.items ≡ out.old.items ++ newcomer_text settlers.now) }
{
    out.extend_from_slice(b"newcomer windows:")?;
    push_preset(settlers, PresetKind::Windows, out)?;
    out.extend_from_slice(b" commands:")?;
    push_preset(settlers, PresetKind::Commands, out)?;
    out.extend_from_slice(b" later:rwx\n")
}

/// Appends the users' masks, and what a user gets who becomes known now.
pub fn push_mask_lines(
    settlers: &[Settler],
    users: &[UserId],
    out: &mut Vec<u8>,
) -> Result<(), AllocError>
    ensures { OnOk result (out.new.items ≡ out.old.items ++ (flat_map
        (masks_text settlers.now users.now) users.now ++ newcomer_text settlers.now)) }
{
    for user in users {
        push_mask_line(settlers, users, *user, out)?;
    }
    push_newcomer(settlers, out)
}
