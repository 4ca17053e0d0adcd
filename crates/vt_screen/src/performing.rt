//! Performs all the actions of a control function.

ghost use Rattle.std.specs.Prelude.{◌≡◌, ◌≤◌, [], ◌∷◌, None, length, IfSome};
ghost use Rattle.control_parser.specs.declared.parser.Func.TheVariants.{Control, Csi, Esc};
ghost use Rattle.terminal_model.specs.Functions.{actions_of, alone, each, sequence_actions};
ghost use Rattle.terminal_model.specs.Reports.{report};
ghost use Rattle.terminal_model.specs.Table.{effect};
ghost use Rattle.vt_screen_state.specs.Counted.{IsCounted};
ghost use Rattle.vt_screen_state.specs.Meanings.{meaning};
ghost use Rattle.vt_screen_state.specs.Silent.{IsSilent};
ghost use Rattle.vt_screen.specs.Stored.{Answers, Performs, PerformsIf, effect_places};

use crate::screen::Screen;
use charsets::Unit;
use control_parser::Func;
use terminal_model::{Action, Report};
use vt_screen_state::{
    Setting, control_action, escape_action, is_answered, sequence_action, setting_of,
};

impl Screen {
    /// Performs a control function, as the screen table says, and returns the answer. It needs no
    /// memory.
    pub fn apply(&mut self, func: &Func) -> Report
        ensures effect { self.new.screen ≡ effect self.old.screen func.now }
        ensures places { self.new.places ≡ effect_places self.old.screen func.now self.old.places }
        ensures report { result ≡ report self.old.screen func.now }
        ensures few { length result ≤ 12 }
    {
        match func {
            Func::Print(character) => self.answer(Some(Action::Print(Unit::Code(*character)))),
            Func::High(byte) => self.answer(Some(Action::Print(Unit::High(*byte)))),
            Func::Control(control) => self.answer(control_action(*control)),
            Func::Esc {
                intermediates,
                last,
            } => self.answer(escape_action(intermediates.as_slice(), *last)),
            Func::Csi {
                mark,
                params,
                intermediates,
                last,
            } => self.answer_sequence(*mark, params.as_slice(), intermediates.as_slice(), *last),
        }
    }

    /// Performs a control sequence and returns the answer.
    fn answer_sequence(
        &mut self,
        mark: Option<u8>,
        params: &[u16],
        intermediates: &[u8],
        last: u8,
    ) -> Report
        ensures answers { Answers self.old (sequence_actions mark params.now intermediates.now last) result self.new }
        ensures few { length result ≤ 12 }
    {
        if let Some(setting) = setting_of(mark, intermediates, last) {
            self.set_each(setting, params);
            return Report::none();
        }
        self.answer(sequence_action(mark, params, intermediates, last))
    }

    /// Performs the action of a control function that has at most one, and returns the answer.
    fn answer(&mut self, action: Option<Action>) -> Report
        requires { IfSome action IsCounted }
        ensures answers { Answers self.old (alone action) result self.new }
        ensures few { length result ≤ 12 }
    {
        match action {
            Some(action) => self.display.apply(action),
            None => Report::none(),
        }
    }

    /// Performs a C0 control, which isn't answered.
    #[inline(never)]
    pub fn control(&mut self, control: u8)
        ensures { Performs self.old (actions_of (Control control)) self.new }
    {
        if let Some(action) = control_action(control) {
            self.perform(action);
        }
    }

    /// Performs the escape sequence without intermediates that has this final byte. It isn't answered.
    #[inline(never)]
    pub fn escape(&mut self, last: u8)
        ensures { Performs self.old (actions_of (Esc [] last)) self.new }
    {
        if let Some(action) = escape_action(b"", last) {
            self.perform(action);
        }
    }

    /// Designates a set to G0, by its final byte: performs ESC ( and this byte. It isn't answered.
    #[inline(never)]
    pub fn designate(&mut self, last: u8)
        ensures { Performs self.old (actions_of (Esc (0x28 ∷ []) last)) self.new }
    {
        if let Some(action) = escape_action(b"(", last) {
            self.perform(action);
        }
    }

    /// Performs a control sequence without intermediates. CUP and SGR, the commonest ones, have a
    /// case of their own, so that the compiler finds their rows. If the sequence is answered, it
    /// does nothing and returns false.
    #[inline(always)]
    #[tactic(auto, unfolding(terminal_model::specs::Functions::plain_sequence))]
    pub fn sequence(&mut self, mark: Option<u8>, params: &[u16], last: u8) -> bool
        ensures { PerformsIf result self.old (actions_of (Csi mark params.now [] last)) self.new }
    {
        match (mark, last) {
            (None, b'H') => self.perform_sequence(None, params, b'H'),
            (None, b'm') => self.perform_sequence(None, params, b'm'),
            _ => self.perform_other(mark, params, last),
        }
    }

    /// Does the same for any control sequence; its row is looked up as the program runs.
    #[inline(never)]
    fn perform_other(&mut self, mark: Option<u8>, params: &[u16], last: u8) -> bool
        ensures { PerformsIf result self.old (sequence_actions mark params.now [] last) self.new }
    {
        self.perform_sequence(mark, params, last)
    }

    /// Performs a control sequence without intermediates. If it is answered, it does nothing and
    /// returns false. It is inlined, so that what is known of the sequence isn't tested.
    #[inline(always)]
    fn perform_sequence(&mut self, mark: Option<u8>, params: &[u16], last: u8) -> bool
        ensures { PerformsIf result self.old (sequence_actions mark params.now [] last) self.new }
    {
        if let Some(setting) = setting_of(mark, &[], last) {
            self.set_each(setting, params);
            return true;
        }
        if let Some(action) = sequence_action(mark, params, &[], last) {
            if is_answered(&action) {
                return false;
            }
            self.perform(action);
        }
        true
    }

    /// Performs the action of each value that is known, in turn. None of them is answered.
    #[inline(always)]
    fn set_each(&mut self, setting: Setting, values: &[u16])
        ensures { Performs self.old (each (meaning setting) values.now) self.new }
    {
        for value in values {
            if let Some(action) = setting.action(*value) {
                self.perform(action);
            }
        }
    }

    /// Performs one action, which isn't answered.
    #[inline(always)]
    fn perform(&mut self, action: Action)
        requires counted { IsCounted action }
        requires silent { IsSilent action }
        ensures { Performs self.old (action ∷ []) self.new }
    {
        self.display.apply_row(action);
    }
}
