//! Laws of the definitions, for the crates above.

ghost use Rattle.std.specs.Prelude.{◌≡◌, ℕ, ◌+◌, ◌-◌, ◌<◌, ◌≤◌, ◌==◌, Bool, true, false, nat_lt, if◌then◌else◌, List};
ghost use Rattle.std.specs.Prelude.{[], ◌∷◌, ◌++◌, length, replicate, Option, Some, None};
ghost use Rattle.std.specs.List.{AllByRecursion};
ghost use Rattle.charsets.specs.declared.decoder.Unit.TheVariants.{Code};
ghost use Rattle.charsets.specs.Shifts.{is_graphic};
ghost use Rattle.cells.specs.declared.cell.Cell.{Cell};
ghost use Rattle.cells.specs.declared.rendition.Rendition.{Rendition};
ghost use Rattle.cells.specs.Line.{blank, IsPaired, spliced};
ghost use Rattle.cells.specs.Page.{line_at, IsPage, IsGridSize, page_from, page_marked, edited};
ghost use Rattle.control_parser.specs.declared.parser.Func.{Func};
ghost use Rattle.control_parser.specs.declared.parser.Func.TheVariants.{Print, Esc, Csi};
ghost use Rattle.control_parser.specs.Spelling.{IsGiven, coding_of, spelling};
ghost use Rattle.terminal_model.specs.declared.action.Action.{Action};
ghost use Rattle.terminal_model.specs.declared.action.Action.TheVariants.{SetMargins, Render, SetMode};
ghost use Rattle.cells.specs.declared.rendition.Attribute.{Attribute};
ghost use Rattle.terminal_model.specs.declared.action.Mode.{Mode};
ghost use Rattle.terminal_model.specs.declared.state.Position.{Position};
ghost use Rattle.terminal_model.specs.Screen.{Page, Screen, IsSound, starting, blank_page, with_state};
ghost use Rattle.terminal_model.specs.Functions.{actions_of, rendered, private_mode_set};
ghost use Rattle.terminal_model.specs.Motion.{bottom_of, unpending, unjoined, moved_to};
ghost use Rattle.terminal_model.specs.Printing.{advanced, columns_of, drawn};
ghost use Rattle.terminal_model.specs.Sizing.{resized};
ghost use Rattle.terminal_model.specs.Table.{acted, effect};
ghost use Rattle.cells.specs.Rendition.{rendition_with};
ghost use Rattle.terminal_model.specs.Settings.{homed, modes_with};
ghost use Rattle.terminal_model.specs.Reports.{report};
ghost use Rattle.terminal_model.specs.Reading.{Act, Terminal, IsTerminal, ready, joined, reads};
ghost use Rattle.terminal_model.specs.Writing.{Writing, IsWriting, Output, writes_all};
ghost use Rattle.terminal_model.specs.Scrollback.{lines_of, all_left, KeepsLast};
ghost use Rattle.charsets.specs.Units.{units};
ghost use Rattle.control_parser.specs.Grammar.{functions};
ghost use Rattle.terminal_model.specs.Whole.{functions_of_bytes, acted_functions, KeepsCodingIn, IsWhole};
ghost use Rattle.terminal_model.specs.Shows.{blank_view};
ghost use Rattle.terminal_model.specs.Drawing.{frame_bytes, frame_start, Draws, IsListed, IsDrawn, AreSpelled};
ghost use Rattle.terminal_model.specs.Drawable.{IsDrawableScreen};
ghost use Rattle.terminal_model.specs.Places.{place, overlaid_cell, with_mark, IsPlain, narrow_at, wide_at, PutsOver};
ghost use Rattle.terminal_model.specs.Places.{PutsMark, mode_final, keypad_final, rendition_values};

/// Bytes read in two pieces give the same as all of them at once, and so does a window's writing.
pub fn pieces_are_whole()
    ensures bytes { (t : Terminal) (a b : List ℕ)
        → reads t (a ++ b) ≡ joined (reads t a) (reads (reads t a).terminal b) }
    ensures writing { (t : Terminal) (a b : List Writing)
        → writes_all t (a ++ b) ≡ joined (writes_all t a) (writes_all (writes_all t a).terminal b) }
    ensures output { (t : Terminal) (a b : List ℕ) (later : List Writing)
        → writes_all t (Output a ∷ Output b ∷ later) ≡ writes_all t (Output (a ++ b) ∷ later) }
{}

/// As long as no function changes the coding, the functions that act while a terminal reads bytes
/// are those that decoder and parser give for all the bytes at once. If the function of the last
/// byte changes the coding, this holds up to there, and later bytes are read in the new coding,
/// from the first of them on.
pub fn reading_is_of_the_whole()
    ensures one_coding { (t : Terminal) (bytes : List ℕ) → IsTerminal t → KeepsCodingIn t bytes
        → IsWhole t bytes }
    ensures fresh { (x : Screen) (bytes : List ℕ) → IsSound x → KeepsCodingIn (ready x) bytes
        → acted_functions (reads (ready x) bytes).acts
        ≡ (functions (units x.state.coding bytes).0).0 }
    ensures up_to_a_change { (t : Terminal) (bytes : List ℕ) (b : ℕ)
        → IsTerminal t → KeepsCodingIn t bytes
        → acted_functions (reads t (bytes ++ b ∷ [])).acts
        ≡ (functions_of_bytes t (bytes ++ b ∷ [])).0 }
    ensures unended_at_a_change { (t : Terminal) (bytes : List ℕ) (b : ℕ)
        → IsTerminal t → KeepsCodingIn t bytes
        → (reads t (bytes ++ b ∷ [])).terminal.unended
        ≡ (functions_of_bytes t (bytes ++ b ∷ [])).1 }
    ensures anew_behind_a_change { (t : Terminal) (bytes : List ℕ) (b : ℕ)
        → IsTerminal t → KeepsCodingIn t bytes
        → ((reads t (bytes ++ b ∷ [])).terminal.screen.state.coding ≡ t.screen.state.coding → ⊥)
        → (reads t (bytes ++ b ∷ [])).terminal.rest ≡ [] }
{}

/// A function that the screen table doesn't list, or lists without the given values, changes
/// nothing and answers nothing. So do margins of fewer than two lines.
pub fn ignored_ones_change_nothing()
    ensures effect { (x : Screen) (f : Func) → actions_of f ≡ [] → effect x f ≡ x }
    ensures report { (x : Screen) (f : Func) → actions_of f ≡ [] → report x f ≡ [] }
    ensures margins { (x : Screen) (top : ℕ) (bottom : Option ℕ)
        → nat_lt top (bottom_of x.state.rows bottom) ≡ false → acted x (SetMargins top bottom) ≡ x }
{}

/// The bytes at the beginning of a first frame bring every terminal, in any state and inside any
/// character, sequence or string, to the cleared screen of its size, and it answers nothing.
pub fn frames_start_anew()
    ensures terminal { (t : Terminal) → IsTerminal t
        → (reads t frame_bytes).terminal ≡ ready (frame_start t.screen) }
    ensures reports { (t : Terminal) → IsTerminal t → (reads t frame_bytes).reports ≡ [] }
{}

/// The cleared screen is sound, it prints a character at the cursor, and it shows the blank view as
/// a frame leaves it.
pub fn frames_start_plain()
    ensures plain { (x : Screen) → IsSound x → IsPlain (frame_start x) }
    ensures drawn { (x : Screen) → IsSound x
        → IsDrawn (blank_view x.state.rows x.state.columns) (ready (frame_start x)) }
{}

/// If a terminal reads the spelling of a function between characters and functions, then that
/// function acts and answers, and no other.
pub fn spelled_ones_act_alone()
    ensures { (x : Screen) (f : Func) → IsGiven f → x.state.coding ≡ coding_of f
        → reads (ready x) (spelling f) ≡ record {
          terminal = ready (effect x f);
          reports = report x f;
          acts = record { before = x; func = f } ∷ [];
        } }
{}

/// A new screen is sound, and every effect and every change of size keeps a screen sound: a
/// well-formed page of its size, the cursor on the page, margins in order, and no more kept lines
/// than it may have.
pub fn screens_stay_sound()
    ensures starting { (rows columns keep : ℕ) → IsGridSize rows columns
        → IsSound (starting rows columns keep) }
    ensures effect { (x : Screen) (f : Func) → IsSound x → IsSound (effect x f) }
    ensures resized { (rows columns : ℕ) (x : Screen) → IsGridSize rows columns → IsSound x
        → IsSound (resized rows columns x) }
{}

/// A terminal stays a terminal, whatever it reads and whatever its window writes.
pub fn terminals_stay_terminals()
    ensures ready { (x : Screen) → IsSound x → IsTerminal (ready x) }
    ensures reading { (t : Terminal) (bytes : List ℕ) → IsTerminal t
        → IsTerminal (reads t bytes).terminal }
    ensures writing { (t : Terminal) (writings : List Writing) → AllByRecursion IsWriting writings
        → IsTerminal t → IsTerminal (writes_all t writings).terminal }
{}

/// A terminal can show each line of a screen and each line that it keeps: it prints the content of
/// each cell, and each right half has its left half beside it. A new screen is so. It is kept so by
/// every effect of a function that units can give, by every change of size, by whatever a terminal
/// reads, and by whatever its window writes.
pub fn pages_stay_drawable()
    ensures starting { (rows columns keep : ℕ) → IsDrawableScreen (starting rows columns keep) }
    ensures effect { (x : Screen) (f : Func) → IsGiven f → IsDrawableScreen x
        → IsDrawableScreen (effect x f) }
    ensures resized { (rows columns : ℕ) (x : Screen) → IsDrawableScreen x
        → IsDrawableScreen (resized rows columns x) }
    ensures reading { (t : Terminal) (bytes : List ℕ) → IsTerminal t → IsDrawableScreen t.screen
        → IsDrawableScreen (reads t bytes).terminal.screen }
    ensures writing { (t : Terminal) (writings : List Writing)
        → AllByRecursion IsWriting writings → IsTerminal t → IsDrawableScreen t.screen
        → IsDrawableScreen (writes_all t writings).terminal.screen }
{}

/// The cells that a printed character changes: a character of width 1 or 2 goes over the cells at
/// the cursor, one of width 0 joins the cell that was printed last.
pub fn printed_ones_stand_at_places()
    ensures narrow { (x : Screen) (c : ℕ) → IsPlain x → is_graphic (Code c) ≡ true
        → columns_of c ≡ 1
        → PutsOver x (narrow_at x (drawn c)) (advanced x.state 1) (effect x (Print c)) }
    ensures wide { (x : Screen) (c : ℕ) → IsPlain x → is_graphic (Code c) ≡ true
        → columns_of c ≡ 2 → x.state.column + 2 ≤ x.state.columns
        → PutsOver x (wide_at x (drawn c)) (advanced x.state 2) (effect x (Print c)) }
    ensures mark { (x : Screen) (c : ℕ) (p : Position) → IsPlain x → is_graphic (Code c) ≡ true
        → columns_of c ≡ 0 → x.state.joining ≡ Some p → p.line < x.state.rows
        → p.column < x.state.columns → PutsMark x p (drawn c) (effect x (Print c)) }
    ensures quiet { (x : Screen) (c : ℕ) → report x (Print c) ≡ [] }
{}

/// The cells that ECH and EL change: those at the cursor become blank.
pub fn erased_ones_stand_at_places()
    ensures cells { (x : Screen) (n : ℕ) → IsSound x → 0 < n → x.state.column + n ≤ x.state.columns
        → PutsOver x (replicate n blank) (unpending x.state)
        (effect x (Csi None (n ∷ []) [] 0x58)) }
    ensures line { (x : Screen) → IsSound x
        → PutsOver x (replicate (x.state.columns - x.state.column) blank) (unpending x.state)
        (effect x (Csi None (0 ∷ []) [] 0x4B)) }
    ensures cells_quiet { (x : Screen) (params : List ℕ) → report x (Csi None params [] 0x58) ≡ [] }
    ensures line_quiet { (x : Screen) → report x (Csi None (0 ∷ []) [] 0x4B) ≡ [] }
{}

/// With ?6 reset, CUP to a place of the page moves the cursor there, ends the pending wrap and the
/// joining of marks, and changes nothing else. It answers nothing.
pub fn moves_change_the_cursor_alone()
    ensures cursor { (x : Screen) (line column : ℕ) → x.state.modes.counts_from_margin ≡ false
        → line < x.state.rows → column < x.state.columns
        → effect x (Csi None ((line + 1) ∷ (column + 1) ∷ []) [] 0x48)
        ≡ with_state x (moved_to x.state line column) }
    ensures quiet { (x : Screen) (params : List ℕ) → report x (Csi None params [] 0x48) ≡ [] }
{}

/// SGR changes only the rendition, value by value; DECSM, DECRM, DECKPAM and DECKPNM change only
/// their mode.
pub fn renditions_and_modes_change_alone()
    ensures turn { (x : Screen) (a b : List ℕ) → effect x (Csi None (a ++ b) [] 0x6D)
        ≡ effect (effect x (Csi None a [] 0x6D)) (Csi None b [] 0x6D) }
    ensures rendition { (x : Screen) (n : ℕ) (a : Attribute) → rendered n ≡ Some (Render a)
        → effect x (Csi None (n ∷ []) [] 0x6D)
        ≡ with_state x
        (unjoined (record x.state { rendition = rendition_with x.state.rendition a })) }
    ensures mode { (x : Screen) (on : Bool) (n : ℕ) (m : Mode)
        → private_mode_set on n ≡ Some (SetMode m on)
        → effect x (Csi (Some 0x3F) (n ∷ []) [] (mode_final on))
        ≡ with_state x (homed m (record x.state { modes = modes_with x.state.modes m on })) }
    ensures keypad { (x : Screen) (on : Bool)
        → effect x (Esc [] (keypad_final on))
        ≡ with_state x (unpending
        (record x.state { modes = record x.state.modes { has_application_keypad = on } })) }
    ensures whole_rendition { (x : Screen) (r : Rendition)
        → effect x (Csi None (rendition_values r) [] 0x6D)
        ≡ with_state x (unjoined (record x.state { rendition = r })) }
    ensures rendition_quiet { (x : Screen) (values : List ℕ)
        → report x (Csi None values [] 0x6D) ≡ [] }
    ensures mode_quiet { (x : Screen) (on : Bool) (n : ℕ) (m : Mode)
        → private_mode_set on n ≡ Some (SetMode m on)
        → report x (Csi (Some 0x3F) (n ∷ []) [] (mode_final on)) ≡ [] }
    ensures keypad_quiet { (x : Screen) (on : Bool) → report x (Esc [] (keypad_final on)) ≡ [] }
{}

/// The cell at each place of a page: after one of its lines got new cells, after a cell got a mark,
/// and on a blank page.
pub fn pages_at_places()
    ensures over { (rows columns at from rest : ℕ) (fresh : List Cell) (page : Page)
        → IsPage rows columns page → at < rows → IsPaired fresh → 0 < length fresh
        → from + length fresh ≤ columns → rest ≡ from + length fresh → (line column : ℕ)
        → place (page_from (edited at (spliced from fresh rest columns)) page) line column
        ≡ (if line == at then overlaid_cell fresh from (line_at page at) column
        else place page line column) }
    ensures marked { (rows columns at from mark : ℕ) (page : Page)
        → IsPage rows columns page → at < rows → from < columns → (line column : ℕ)
        → place (page_marked at from mark page) line column
        ≡ with_mark at from mark page line column }
    ensures blank_page { (rows columns line column : ℕ)
        → place (blank_page rows columns) line column ≡ blank }
{}

/// A screen's scrollback has the last ones of all lines that left its page, newest first, whatever
/// its terminal reads and its window writes. A fresh terminal begins so: no line has left its page.
pub fn last_lines_stay()
    ensures reading { (t : Terminal) (bytes : List ℕ) (lines : Page)
        → IsTerminal t → KeepsLast lines t.screen
        → KeepsLast (lines ++ lines_of (reads t bytes).acts) (reads t bytes).terminal.screen }
    ensures writing { (t : Terminal) (writings : List Writing) (lines : Page)
        → AllByRecursion IsWriting writings → IsTerminal t → KeepsLast lines t.screen
        → KeepsLast (all_left lines t writings) (writes_all t writings).terminal.screen }
    ensures fresh { (rows columns keep : ℕ) (writings : List Writing)
        → IsGridSize rows columns → AllByRecursion IsWriting writings
        → let t : Terminal = ready (starting rows columns keep) in
        KeepsLast (all_left [] t writings) (writes_all t writings).terminal.screen }
    ensures room { (t : Terminal) (writings : List Writing) → AllByRecursion IsWriting writings
        → IsTerminal t → (writes_all t writings).terminal.screen.keep ≡ t.screen.keep }
{}

/// If two lists of acts are discreet and spare, so is the one after the other; and if their bytes
/// are nothing but spellings, so are the bytes of both.
pub fn draws_join()
    ensures spelled { (a b : List ℕ) (first second : List Act) → AreSpelled a first
        → AreSpelled b second → AreSpelled (a ++ b) (first ++ second) }
    ensures one { (x : Screen) (f : Func)
        → AreSpelled (spelling f) (record { before = x; func = f } ∷ []) }
    ensures draws { (old page : Page) (a b : List Act) → Draws old page a → Draws old page b
        → Draws old page (a ++ b) }
{}

/// The functions of frames other than print are in the screen table, and all their values are
/// known.
pub fn frame_functions_are_listed()
    ensures cursor { (rows line column : ℕ)
        → IsListed rows (Csi None (line ∷ column ∷ []) [] 0x48) }
    ensures cells { (rows n : ℕ) → IsListed rows (Csi None (n ∷ []) [] 0x58) }
    ensures line { (rows : ℕ) → IsListed rows (Csi None (0 ∷ []) [] 0x4B) }
    ensures rendition { (rows n : ℕ) (a : Action) → rendered n ≡ Some a
        → IsListed rows (Csi None (n ∷ []) [] 0x6D) }
    ensures whole_rendition { (rows : ℕ) (r : Rendition)
        → IsListed rows (Csi None (rendition_values r) [] 0x6D) }
    ensures mode { (rows : ℕ) (on : Bool) (n : ℕ) (a : Action) → private_mode_set on n ≡ Some a
        → IsListed rows (Csi (Some 0x3F) (n ∷ []) [] (mode_final on)) }
    ensures keypad { (rows : ℕ) (on : Bool) → IsListed rows (Esc [] (keypad_final on)) }
{}
