//! Laws of the definitions, for the crates above.
#![tactic(auto, using(crate::proofs::Proved::laws))]

ghost use Rattle.std.specs.Prelude.{◌≡◌, ℕ, List, [], ◌∷◌, ◌++◌, map, true};
ghost use Rattle.std.specs.List.{AllByRecursion, flat_map, list_all};
ghost use Rattle.charsets.specs.Units.{is_plain, IsUnit};
ghost use Rattle.charsets.specs.declared.decoder.Coding.{Coding};
ghost use Rattle.charsets.specs.declared.decoder.Coding.TheVariants.{Utf8};
ghost use Rattle.charsets.specs.declared.decoder.Unit.{Unit};
ghost use Rattle.charsets.specs.declared.decoder.Unit.TheVariants.{Code};
ghost use Rattle.control_parser.specs.declared.parser.Func.{Func};
ghost use Rattle.control_parser.specs.declared.parser.Func.TheVariants.{Print};
ghost use Rattle.control_parser.specs.Grammar.{functions, is_graphic, nothing, with_front};
ghost use Rattle.control_parser.specs.Spelling.{spelling, IsGiven, IsGivenInUtf8, ReadsAs};
ghost use Rattle.control_parser.specs.Kept.{opening, functions_of_pieces};

/// Units give no functions but those that have a spelling.
pub fn each_is_spelled()
    ensures { (units : List Unit) → AllByRecursion IsUnit units →
        AllByRecursion IsGiven (functions units).0 }
{}

/// If two lists of bytes are read as some functions and leave nothing incomplete, then the one
/// after the other is read as the functions of the first and then those of the second.
pub fn readings_join()
    ensures { (coding : Coding) (front later : List ℕ) (fs gs : List Func) → ReadsAs coding front fs
        → ReadsAs coding later gs → ReadsAs coding (front ++ later) (fs ++ gs) }
{}

/// Functions that are spelled one after another in UTF-8 are read back as these functions.
pub fn spelled_ones_read_back()
    ensures { (fs : List Func) → AllByRecursion IsGivenInUtf8 fs
        → ReadsAs Utf8 (flat_map spelling fs) fs }
{}

/// If some units leave nothing incomplete, the units after them are read as if they came first.
pub fn whole_ones_join()
    ensures { (us vs : List Unit) → (functions us).1 ≡ nothing →
        functions (us ++ vs) ≡ with_front (functions us).0 (functions vs) }
{}

/// CAN drops an incomplete sequence or string, and gives no function.
pub fn can_ends_all()
    ensures { (us : List Unit) → functions (us ++ Code 0x18 ∷ []) ≡ ((functions us).0, nothing) }
{}

/// After some units, more units are read as if only the incomplete sequence or string had come
/// before them. It is begun by units of its own, which give no function and leave it incomplete.
pub fn unended_go_on()
    ensures go_on { (us vs : List Unit) → functions (us ++ vs)
        ≡ with_front (functions us).0 (functions (opening (functions us).1 ++ vs)) }
    ensures own { (us : List Unit) → functions (opening (functions us).1) ≡ ([], (functions us).1) }
    ensures units { (us : List Unit) → AllByRecursion IsUnit (opening (functions us).1) }
{}

/// Units read in pieces give the functions of all the units at once, no matter where they are cut.
pub fn pieces_are_whole()
    ensures { (pieces : List (List Unit)) →
        functions_of_pieces nothing pieces ≡ functions (flat_map (λ piece. piece) pieces) }
{}

/// If nothing is incomplete, graphic codes, 20 to 7E among them, are printed and leave nothing
/// incomplete.
pub fn graphic_codes_print()
    ensures graphic { (codes : List ℕ) → list_all is_graphic codes ≡ true →
        functions (map (λ c. Code c) codes) ≡ (map (λ c. Print c) codes, nothing) }
    ensures plain { (codes : List ℕ) → list_all is_plain codes ≡ true →
        functions (map (λ c. Code c) codes) ≡ (map (λ c. Print c) codes, nothing) }
{}

/// Bytes 20 to 7E are printed, in both codings.
pub fn plain_bytes_print()
    ensures { (coding : Coding) (bytes : List ℕ) → list_all is_plain bytes ≡ true →
        ReadsAs coding bytes (map (λ b. Print b) bytes) }
{}
