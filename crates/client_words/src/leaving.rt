//! Input with a byte by which the user leaves.

ghost use Rattle.std.specs.Prelude.{◌≡◌, ◌++◌, ◌∷◌, [], ℕ, List, IfOk, OnOk, OnErr};
ghost use Rattle.std.specs.Option.{option_to_list};
ghost use Rattle.client_words.specs.Leaving.{sent, stage};
ghost use Rattle.client_words.specs.Stands.{HasRead};
ghost use Rattle.client_words.specs.declared.leaving.InputStage.TheVariants.{Left};

use std::alloc::AllocError;

/// How far the input was read.
#[derive(Clone, Copy)]
pub enum InputStage {
    Reading,
    /// The last byte is the one that leaves; typed once more it is a byte of the input.
    Waiting,
    /// The user left. What follows is ignored.
    Left,
}

/// Reads input in which one byte leaves. Typed twice it is one byte of the input.
#[derive(Clone, Copy)]
pub struct LeaveReader {
    byte: u8,
    stage: InputStage,
}

impl LeaveReader {
    /// Nothing has come. This byte leaves.
    pub fn new(byte: u8) -> LeaveReader
        ensures byte { result.byte ≡ byte }
        ensures stands { HasRead result [] }
    {
        LeaveReader {
            byte,
            stage: InputStage::Reading,
        }
    }

    pub fn stage(&self) -> InputStage
        ensures { (bytes : List ℕ) → HasRead self.now bytes → result ≡ stage self.now.byte bytes }
    {
        self.stage
    }

    /// Takes a byte. Returns the byte to be sent now, if there is one.
    fn take(&mut self, byte: u8) -> Option<u8>
        ensures sent { (before : List ℕ) → HasRead self.old before
            → sent self.old.byte (before ++ byte ∷ [])
            ≡ sent self.old.byte before ++ option_to_list result }
        ensures stands { (before : List ℕ) → HasRead self.old before
            → HasRead self.new (before ++ byte ∷ []) }
        ensures byte { self.new.byte ≡ self.old.byte }
    {
        match self.stage {
            InputStage::Reading if byte == self.byte => {
                self.stage = InputStage::Waiting;
                None
            }
            InputStage::Reading => Some(byte),
            InputStage::Waiting if byte == self.byte => {
                self.stage = InputStage::Reading;
                Some(byte)
            }
            InputStage::Waiting => {
                self.stage = InputStage::Left;
                None
            }
            InputStage::Left => None,
        }
    }

    /// Takes bytes, and appends those to be sent to `out`. What all calls append together is what is to
    /// be sent of the whole input. After an `Err` no byte was taken.
    pub fn feed(&mut self, bytes: &[u8], out: &mut Vec<u8>) -> Result<(), AllocError>
        ensures sent { (before gone : List ℕ) → HasRead self.old before
            → gone ++ out.old.items ≡ sent self.old.byte before
            → OnOk result (gone ++ out.new.items ≡ sent self.old.byte (before ++ bytes.now)) }
        ensures stands { (before : List ℕ) → HasRead self.old before
            → OnOk result (HasRead self.new (before ++ bytes.now)) }
        ensures byte { self.new.byte ≡ self.old.byte }
        ensures same { OnErr result (self.new ≡ self.old) }
        ensures unsent { OnErr result (out.new.items ≡ out.old.items) }
    {
        out.reserve(bytes.len())?;
        for byte in bytes {
            if let Some(byte) = self.take(*byte) {
                out.push_reserved(byte);
            }
        }
        Ok(())
    }

    /// Says that the byte that waits came alone: the user leaves.
    pub fn leave(&mut self)
        ensures { self.new.stage ≡ Left }
    {
        self.stage = InputStage::Left;
    }
}
