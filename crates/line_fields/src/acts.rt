//! The words of acts.

ghost use Rattle.std.specs.Prelude.{◌≡◌, ◌++◌, OnOk, option_map};
ghost use Rattle.std.specs.List.{flat_map};
ghost use Rattle.acl.specs.declared.act.Act.TheVariants as act;
ghost use Rattle.line_fields.specs.Acts.{kind_text, kind_in, said, after_colon, act_text, rest_in, act_in};

use crate::numbers::{read_u32, u32_at};
use crate::parts::{
    push_change, push_mode, push_name, push_object, push_preset, push_user, read_change, read_mode,
    read_object, read_preset, read_user, user_at,
};
use crate::texts::cut;
use Part::{Change, Leader, Mode, Preset, Serial, Target, User};
use acl::{Act, Bit, LockMode, Object, PresetKind, UserId};
use session_model::push_decimal;
use std::alloc::AllocError;

/// A part of an act.
#[derive(Clone, Copy)]
enum Part {
    User(UserId),
    Leader(Option<UserId>),
    Serial(u32),
    Change(Bit, bool),
    Target(Object),
    Mode(LockMode),
    Preset(PresetKind),
}

impl Part {
    /// Appends the part.
    fn push(self, out: &mut Vec<u8>) -> Result<(), AllocError>
        ensures { OnOk result (out.new.items ≡ out.old.items ++ said self) }
    {
        match self {
            Part::User(user) => push_name(user, out),
            Part::Leader(user) => push_user(user, out),
            Part::Serial(serial) => push_decimal(u64::from(serial), out),
            Part::Change(bit, value) => push_change(bit, value, out),
            Part::Target(object) => push_object(object, out),
            Part::Mode(mode) => push_mode(mode, out),
            Part::Preset(kind) => push_preset(kind, out),
        }
    }

    /// Appends a colon and the part.
    fn push_after_colon(self, out: &mut Vec<u8>) -> Result<(), AllocError>
        ensures { OnOk result (out.new.items ≡ out.old.items ++ after_colon self) }
    {
        out.extend_from_slice(b":")?;
        self.push(out)
    }
}

/// The kind of an act.
#[derive(Clone, Copy)]
pub enum ActKind {
    Known,
    Gone,
    Set,
    Grouped,
    Masked,
    Preset,
    Opened,
    Closed,
    Attached,
    Parted,
    Entered,
    Left,
    Mode,
    Default,
}

impl ActKind {
    /// All kinds.
    const ALL: [ActKind; 14] = [
        ActKind::Known,
        ActKind::Gone,
        ActKind::Set,
        ActKind::Grouped,
        ActKind::Masked,
        ActKind::Preset,
        ActKind::Opened,
        ActKind::Closed,
        ActKind::Attached,
        ActKind::Parted,
        ActKind::Entered,
        ActKind::Left,
        ActKind::Mode,
        ActKind::Default,
    ];

    /// The word that an act of this kind begins with.
    fn word(self) -> &'static [u8]
        ensures { result.now ≡ kind_text self }
    {
        match self {
            ActKind::Known => b"known",
            ActKind::Gone => b"gone",
            ActKind::Set => b"set",
            ActKind::Grouped => b"grouped",
            ActKind::Masked => b"masked",
            ActKind::Preset => b"preset",
            ActKind::Opened => b"opened",
            ActKind::Closed => b"closed",
            ActKind::Attached => b"attached",
            ActKind::Parted => b"parted",
            ActKind::Entered => b"entered",
            ActKind::Left => b"left",
            ActKind::Mode => b"mode",
            ActKind::Default => b"default",
        }
    }

    /// Appends the word of the kind, and the parts, each after a colon.
    fn push(self, parts: &[Part], out: &mut Vec<u8>) -> Result<(), AllocError>
        ensures { OnOk result (out.new.items
            ≡ out.old.items ++ (kind_text self ++ flat_map after_colon parts.now)) }
    {
        out.extend_from_slice(self.word())?;
        for part in parts {
            part.push_after_colon(out)?;
        }
        Ok(())
    }

    /// The kind whose acts begin with the word.
    fn named(word: &[u8]) -> Option<ActKind>
        ensures { result ≡ kind_in word.now }
    {
        ActKind::ALL
            .iter()
            .find(|kind| kind.word() == word)
            .copied()
    }
}

/// Appends an act.
pub fn push_act(act: &Act, out: &mut Vec<u8>) -> Result<(), AllocError>
    ensures { OnOk result (out.new.items ≡ out.old.items ++ act_text act.now) }
{
    match *act {
        Act::Known { user } => ActKind::Known.push(&[User(user)], out),
        Act::Gone { user } => ActKind::Gone.push(&[User(user)], out),
        Act::Set {
            user,
            bit,
            object,
            value,
        } => ActKind::Set.push(&[User(user), Change(bit, value), Target(object)], out),
        Act::Grouped { user, leader } => ActKind::Grouped.push(&[User(user), Leader(leader)], out),
        Act::Masked {
            by,
            user,
            bit,
            value,
        } => ActKind::Masked.push(&[User(by), User(user), Change(bit, value)], out),
        Act::Preset { kind, bit, value } => ActKind::Preset.push(
            &[Preset(kind), Change(bit, value)],
            out,
        ),
        Act::Opened { by, window } => ActKind::Opened.push(&[User(by), Serial(window)], out),
        Act::Closed { window } => ActKind::Closed.push(&[Serial(window)], out),
        Act::Attached { client, user } => ActKind::Attached.push(
            &[Serial(client), User(user)],
            out,
        ),
        Act::Parted { client } => ActKind::Parted.push(&[Serial(client)], out),
        Act::Entered { user, window } => ActKind::Entered.push(&[User(user), Serial(window)], out),
        Act::Left { user, window } => ActKind::Left.push(&[User(user), Serial(window)], out),
        Act::Mode { by, window, mode } => ActKind::Mode.push(
            &[User(by), Serial(window), Mode(mode)],
            out,
        ),
        Act::Default { mode } => ActKind::Default.push(&[Mode(mode)], out),
    }
}

/// `USER:SERIAL`
fn read_serial(rest: &[u8]) -> Option<(UserId, u32)>
    ensures opened { option_map (λ p. act.Opened p.0 p.1) result ≡ rest_in ActKind.Opened rest.now }
    ensures entered { option_map (λ p. act.Entered p.0 p.1) result ≡ rest_in ActKind.Entered rest.now }
    ensures left { option_map (λ p. act.Left p.0 p.1) result ≡ rest_in ActKind.Left rest.now }
{
    let (user, rest) = user_at(rest, b':')?;
    Some((user, read_u32(rest)?))
}

/// `USER:CHANGE:OBJECT`
fn read_set(rest: &[u8]) -> Option<Act>
    ensures { result ≡ rest_in ActKind.Set rest.now }
{
    let (user, rest) = user_at(rest, b':')?;
    let (change, object) = cut(rest, b':')?;
    let change = read_change(change)?;
    Some(Act::Set {
        user,
        bit: change.bit,
        object: read_object(object)?,
        value: change.value,
    })
}

/// `USER:LEADER`
fn read_grouped(rest: &[u8]) -> Option<Act>
    ensures { result ≡ rest_in ActKind.Grouped rest.now }
{
    let (user, leader) = user_at(rest, b':')?;
    let leader = read_user(leader)?;
    Some(Act::Grouped { user, leader })
}

/// `USER:USER:CHANGE`
fn read_masked(rest: &[u8]) -> Option<Act>
    ensures { result ≡ rest_in ActKind.Masked rest.now }
{
    let (by, rest) = user_at(rest, b':')?;
    let (user, change) = user_at(rest, b':')?;
    let change = read_change(change)?;
    Some(Act::Masked {
        by,
        user,
        bit: change.bit,
        value: change.value,
    })
}

/// `PRESET:CHANGE`
fn read_preset_act(rest: &[u8]) -> Option<Act>
    ensures { result ≡ rest_in ActKind.Preset rest.now }
{
    let (kind, change) = cut(rest, b':')?;
    let kind = read_preset(kind)?;
    let change = read_change(change)?;
    Some(Act::Preset {
        kind,
        bit: change.bit,
        value: change.value,
    })
}

/// `CLIENT:USER`
fn read_attached(rest: &[u8]) -> Option<Act>
    ensures { result ≡ rest_in ActKind.Attached rest.now }
{
    let (client, user) = u32_at(rest, b':')?;
    let user = UserId::of(user)?;
    Some(Act::Attached { client, user })
}

/// `USER:WINDOW:MODE`
fn read_mode_act(rest: &[u8]) -> Option<Act>
    ensures { result ≡ rest_in ActKind.Mode rest.now }
{
    let (by, rest) = user_at(rest, b':')?;
    let (window, mode) = u32_at(rest, b':')?;
    let mode = read_mode(mode)?;
    Some(Act::Mode { by, window, mode })
}

/// Reads what follows an act's kind.
fn read_rest(kind: ActKind, rest: &[u8]) -> Option<Act>
    ensures { result ≡ rest_in kind rest.now }
{
    match kind {
        ActKind::Known => UserId::of(rest).map(|user| Act::Known { user }),
        ActKind::Gone => UserId::of(rest).map(|user| Act::Gone { user }),
        ActKind::Set => read_set(rest),
        ActKind::Grouped => read_grouped(rest),
        ActKind::Masked => read_masked(rest),
        ActKind::Preset => read_preset_act(rest),
        ActKind::Opened => read_serial(rest).map(|(by, window)| Act::Opened { by, window }),
        ActKind::Closed => read_u32(rest).map(|window| Act::Closed { window }),
        ActKind::Attached => read_attached(rest),
        ActKind::Parted => read_u32(rest).map(|client| Act::Parted { client }),
        ActKind::Entered => read_serial(rest).map(|(user, window)| Act::Entered { user, window }),
        ActKind::Left => read_serial(rest).map(|(user, window)| Act::Left { user, window }),
        ActKind::Mode => read_mode_act(rest),
        ActKind::Default => read_mode(rest).map(|mode| Act::Default { mode }),
    }
}

/// The act that a word says.
#[tactic(auto, unfolding(crate::specs::Acts::act_in))]
pub fn read_act(word: &[u8]) -> Option<Act>
    ensures { result ≡ act_in word.now }
{
    let (kind, rest) = cut(word, b':')?;
    read_rest(ActKind::named(kind)?, rest)
}
