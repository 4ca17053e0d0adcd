//! Receipts in few bytes.

ghost use Rattle.std.specs.Prelude.{◌≡◌, ◌↔◌, ◌∷◌, ◌++◌, ◌<◌, ◌≤◌, [], true, length, slice_get};
ghost use Rattle.std.specs.Prelude.{IfSome, OnOk, Some, vec_len, vec_capacity};
ghost use Rattle.hub_record.specs.EntryLists.{HasOneMore};
ghost use Rattle.hub_record.specs.Receipts.{HasRoom, IsOf, LosesLast};

use crate::reply::KeptReply;
use crate::search::{KEPT, WAYS, first_by, number_of_event, slot_of};
use crate::trail_entry::TrailEntry;
use hub_trail::{Ending, Kept};
use std::alloc::{AllocError, Global};
use std::marker::Model;
use std::mem::size_of;

/// The place of an entry, and the code of a form. It takes 8 bytes.
#[derive(Clone, Copy)]
struct PlaceCode {
    place: u32,
    code: u32,
}

const _: () = prove!(size_of::<PlaceCode>() <= 8);

/// The event and the reply that receipts share.
#[derive(Drop)]
struct Form {
    event: Kept,
    reply: KeptReply,
}

/// A receipt says that an entry with this event and this reply stands at a place of the trail.
#[derive(Drop)]
pub struct Receipt<'a> {
    place: usize,
    form: &'a Form,
}

impl<'a> Model for Receipt<'a> {
    ghost use Rattle.hub_record.specs.Receipts.{Receipt, receipt_of};

    ghost Value = { Receipt };

    ghost view = { λ r. receipt_of r.place r.form.now };
}

impl<'a> Receipt<'a> {
    /// The entry's place in the trail, counted from 0.
    pub fn place(&self) -> usize
        ensures { result ≡ self.now.place }
    {
        self.place
    }

    /// The entry's event.
    pub fn event(&self) -> &'a Kept
        ensures { result.now ≡ self.now.event }
    {
        &self.form.event
    }

    /// The entry's reply, without its text.
    pub fn ending(&self) -> Ending
        ensures { result ≡ self.now.reply }
    {
        self.form.reply.ending()
    }

    /// Whether the receipt has the event and the reply of the entry.
    pub fn is_of(&self, entry: &TrailEntry) -> bool
        ensures { (result ≡ true) ↔ IsOf entry.now self.now }
    {
        entry.is_told(&self.form.event, &self.form.reply)
    }
}

/// A list of receipts, the oldest first. Receipts with equal events and replies share one stored
/// form, if a search among a few codes finds it.
pub struct Receipts {
    told: Vec<PlaceCode>,
    forms: Vec<Form>,
    kept: Vec<u32>,
}

impl Drop for Receipts {
    fn drop(self) {
        let Receipts {
            told: _,
            forms: _,
            kept: _,
        } = self;
    }
}

impl Model for Receipts {
    ghost use Rattle.std.specs.Prelude.{◌<◌, length, vec_len, vec_capacity};
    ghost use Rattle.std.specs.List.{AllByRecursion};
    ghost use Rattle.hub_record.specs.Receipts.{Receipted, told_by};

    ghost Value = { Receipted };

    ghost view = { λ r. record {
      receipts = told_by r.forms.items r.told.items;
      most = vec_capacity r.told;
      forms = vec_len r.forms;
      most_forms = vec_capacity r.forms;
    } };

    ghost invariant = { λ r. AllByRecursion (λ t. t.code < length r.forms.items) r.told.items };
}

/// Whether both forms are equal.
fn is_same(form: &Form, other: &Form) -> bool
    ensures { (result ≡ true) ↔ (form.now ≡ other.now) }
{
    form.event.is_same(&other.event) && form.reply.is_same(&other.reply)
}

/// The code of a form equal to `wanted`, among the kept codes from `first` on; `None` if none of
/// those tried is.
fn find(forms: &[Form], kept: &[u32], first: usize, wanted: &Form) -> Option<u32>
    requires { first ≤ 4092 }
    ensures { IfSome result (λ code. slice_get forms.now code ≡ Some wanted.now) }
{
    for way in 0..WAYS {
        if let Some(code) = kept.get(first + way) {
            if let Some(form) = forms.get(*code as usize) {
                if is_same(form, wanted) {
                    return Some(*code);
                }
            }
        }
    }
    None
}

/// The code of the form: that of an equal form, if one is found, or of the form itself, stored
/// after the others.
fn store(forms: &mut Vec<Form>, kept: &mut [u32], form: Form) -> u32
    requires room { vec_len forms.old < vec_capacity forms.old }
    requires few { vec_len forms.old < 4294967296 }
    ensures code { slice_get forms.new.items result ≡ Some form }
    ensures more { HasOneMore forms.old.items forms.new.items }
{
    let first = first_by(number_of_event(&form.event), &form.reply);
    if let Some(code) = find(forms.as_slice(), kept, first, &form) {
        return code;
    }
    let code = forms.len() as u32;
    forms.push_reserved(form);
    if let Some(slot) = kept.get_mut(slot_of(first, code)) {
        *slot = code;
    }
    code
}

/// Makes the list of kept codes, unless it is there. `AllocError` if memory is refused.
fn fill(kept: &mut Vec<u32>) -> Result<(), AllocError> {
    for _slot in kept.len()..KEPT {
        kept.push(0)?;
    }
    Ok(())
}

impl Receipts {
    /// A list without receipts.
    pub fn new(alloc: Global) -> Receipts
        ensures { result.receipts ≡ [] }
    {
        Receipts {
            told: Vec::new(alloc),
            forms: Vec::new(alloc),
            kept: Vec::new(alloc),
        }
    }

    /// The number of receipts.
    pub fn len(&self) -> usize
        ensures { result ≡ length self.now.receipts }
    {
        self.told.len()
    }

    /// Makes room for one more receipt. `AllocError` if memory is refused, or if no code is left
    /// for another form.
    pub fn reserve(&mut self) -> Result<(), AllocError>
        ensures same { self.new.receipts ≡ self.old.receipts }
        ensures room { OnOk result (HasRoom self.new) }
    {
        fill(&mut self.kept)?;
        self.told.reserve(1)?;
        self.forms.reserve(1)?;
        if self.forms.len() > u32::MAX as usize {
            return Err(AllocError);
        }
        Ok(())
    }

    /// Puts a receipt after the others, for which there is room.
    pub fn push(&mut self, place: usize, event: Kept, reply: KeptReply)
        requires room { HasRoom self.old }
        requires place { place < 4294967296 }
        ensures { self.new.receipts
            ≡ self.old.receipts ++ record { place = place; event = event; reply = reply } ∷ [] }
    {
        let form = Form { event, reply };
        let code = store(&mut self.forms, self.kept.as_mut_slice(), form);
        self.told.push_reserved(PlaceCode {
            place: place as u32,
            code,
        });
    }

    /// The receipt with this number, from 0.
    pub fn at(&self, number: usize) -> Receipt<'_>
        requires { number < length self.now.receipts }
        ensures { slice_get self.now.receipts number ≡ Some result }
    {
        let told = self.told[number];
        Receipt {
            place: told.place as usize,
            form: &self.forms[told.code as usize],
        }
    }

    /// Removes the last receipt.
    pub fn pop(&mut self)
        requires { 0 < length self.old.receipts }
        ensures { LosesLast self.old.receipts self.new.receipts }
    {
        let _last = self.told.pop();
    }
}
