//! Laws of the definitions, for the crates above.
#![tactic(auto, using(crate::proofs::Proved::laws))]

ghost use Rattle.std.specs.Prelude.{◌≡◌, ℕ, List, [], ◌∷◌, ◌++◌, map, true, Some, None};
ghost use Rattle.std.specs.Char.{encode_utf8, IsScalar};
ghost use Rattle.std.specs.List.{AllByRecursion, concat, list_all};
ghost use Rattle.charsets.specs.declared.shifts.CharacterSet.TheVariants.{Ascii};
ghost use Rattle.charsets.specs.declared.shifts.Shifts.{Shifts};
ghost use Rattle.charsets.specs.declared.decoder.Coding.{Coding};
ghost use Rattle.charsets.specs.declared.decoder.Coding.TheVariants.{Utf8};
ghost use Rattle.charsets.specs.declared.decoder.Unit.TheVariants.{Code};
ghost use Rattle.charsets.specs.Shifts.{set_at, is_graphic, mapped, spent};
ghost use Rattle.charsets.specs.Units.{units, units_of_pieces, is_plain, IsUnit};
ghost use Rattle.charsets.specs.Utf8.{codes, with_front};
ghost use Rattle.charsets.specs.Text.{text, IsText};

/// If some bytes leave no incomplete character, the bytes after them are read as if they came
/// first.
pub fn whole_ones_join()
    ensures { (coding : Coding) (front later : List ℕ) → (units coding front).1 ≡ [] →
        units coding (front ++ later)
        ≡ ((units coding front).0 ++ (units coding later).0, (units coding later).1) }
{}

/// If some bytes leave no incomplete character, the codes of the bytes after them follow theirs. So
/// two texts joined are a text, of the characters of both.
pub fn texts_join()
    ensures codes { (front later : List ℕ) → (codes front).1 ≡ [] →
        codes (front ++ later) ≡ with_front (codes front).0 (codes later) }
    ensures texts { (front later : List ℕ) → IsText front → IsText later → IsText (front ++ later) }
    ensures characters { (front later : List ℕ) → IsText front →
        text (front ++ later) ≡ text front ++ text later }
{}

/// CAN (18) drops an incomplete character, which then gives no unit.
pub fn can_ends_all()
    ensures { (coding : Coding) (bytes : List ℕ) →
        units coding (bytes ++ 0x18 ∷ []) ≡ ((units coding bytes).0 ++ Code 0x18 ∷ [], []) }
{}

/// A character written in UTF-8 is read back as that character.
pub fn characters_read_back()
    ensures { (c : ℕ) → IsScalar c → units Utf8 (encode_utf8 c) ≡ (Code c ∷ [], []) }
{}

/// After some bytes, more bytes are read as if only the incomplete character had come before them.
/// That incomplete character by itself gives no unit and stays incomplete.
pub fn beginnings_go_on()
    ensures go_on { (coding : Coding) (front later : List ℕ) → let rest = (units coding front).1 in
        units coding (front ++ later) ≡ (
          (units coding front).0 ++ (units coding (rest ++ later)).0,
          (units coding (rest ++ later)).1,
        ) }
    ensures own { (coding : Coding) (bytes : List ℕ) →
        units coding (units coding bytes).1 ≡ ([], (units coding bytes).1) }
{}

/// Bytes read in pieces give the units of all the bytes at once, no matter where they are cut.
pub fn pieces_are_whole()
    ensures { (coding : Coding) (pieces : List (List ℕ)) →
        units_of_pieces coding [] pieces ≡ units coding (concat pieces) }
{}

/// Each of the bytes 20 to 7E is a unit, in both codings.
pub fn plain_bytes_stand()
    ensures { (coding : Coding) (bytes : List ℕ) → list_all is_plain bytes ≡ true →
        units coding bytes ≡ (map (λ b. Code b) bytes, []) }
{}

/// Bytes give no units but characters and, in ECMA-35, bytes from A0 on.
pub fn each_is_a_unit()
    ensures { (coding : Coding) (bytes : List ℕ) → AllByRecursion IsUnit (units coding bytes).0 }
{}

/// If GL has ASCII and no single shift is pending, a graphic code stands for itself. Without a
/// pending single shift it changes no shift.
pub fn ascii_stands_for_itself()
    ensures maps { (s : Shifts) (c : ℕ) → set_at s s.gl ≡ Ascii → s.single ≡ None →
        is_graphic (Code c) ≡ true → mapped s (Code c) ≡ Some c }
    ensures spends { (s : Shifts) (c : ℕ) → s.single ≡ None → spent s (Code c) ≡ s }
{}
