//! The notes of a step: its acts and its checks.

ghost use Rattle.std.specs.Prelude.{◌≡◌};
ghost use Rattle.session_state.specs.Noted.{nothing};

use acl::Act;
use session_model::Verdict;
use std::alloc::Global;
use std::marker::Model;

/// What a step did to rights and locks, and what it checked. Each step makes new notes, unless it is
/// refused for want of memory.
pub struct Notes {
    acts: Vec<Act>,
    verdicts: Vec<Verdict>,
}

impl Drop for Notes {
    fn drop(self) {
        let Notes {
            acts: _,
            verdicts: _,
        } = self;
    }
}

impl Model for Notes {
    ghost use Rattle.session_state.specs.Noted.{Noted};

    ghost Value = { Noted };

    ghost view = { λ n. record { acts = n.acts.items; verdicts = n.verdicts.items } };
}

impl Notes {
    /// Notes without acts and verdicts.
    pub fn new(alloc: Global) -> Notes
        ensures { result ≡ nothing }
    {
        Notes::of(Vec::new(alloc), Vec::new(alloc))
    }

    /// The acts of the step, in their order.
    pub fn acts(&self) -> &[Act]
        ensures { result.now ≡ self.now.acts }
    {
        self.acts.as_slice()
    }

    /// What the step checked, in the order of the checks.
    pub fn verdicts(&self) -> &[Verdict]
        ensures { result.now ≡ self.now.verdicts }
    {
        self.verdicts.as_slice()
    }

    /// Takes the acts and the verdicts of the step out, each in their order.
    pub fn into_parts(self) -> (Vec<Act>, Vec<Verdict>)
        ensures acts { result.0.items ≡ self.acts }
        ensures verdicts { result.1.items ≡ self.verdicts }
    {
        let Notes { acts, verdicts } = self;
        (acts, verdicts)
    }

    /// Notes of these acts and verdicts.
    pub fn of(acts: Vec<Act>, verdicts: Vec<Verdict>) -> Notes
        ensures { result ≡ record { acts = acts.items; verdicts = verdicts.items } }
    {
        Notes { acts, verdicts }
    }
}
