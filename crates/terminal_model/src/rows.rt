//! Worked rows: what a fresh window shows after it has read some bytes, computed from the
//! definitions.

ghost use Rattle.std.specs.Prelude.{◌≡◌, true, false, List, [], ◌∷◌, ◌++◌, codes, None};
ghost use Rattle.cells.specs.Line.{plain, narrow_cell, marked};
ghost use Rattle.cells.specs.declared.rendition.Colour.TheVariants.{Default, Black, Red, Yellow, Blue, Cyan, White};
ghost use Rattle.terminal_model.specs.Screen.{blank_page, starting};
ghost use Rattle.terminal_model.specs.Sizing.{resized};
ghost use Rattle.terminal_model.specs.Reading.{ready};
ghost use Rattle.terminal_model.specs.Writing.{Output, writes_all};
ghost use Rattle.std.specs.List.{AllByRecursion};
ghost use Rattle.control_parser.specs.declared.parser.Func.TheVariants.{Csi};
ghost use Rattle.terminal_model.specs.Drawing.{IsDiscreet, IsListed};
ghost use Rattle.terminal_model.specs.Rows.{fresh_reads, with_cursor, letters, protected_letters, in_colours};
ghost use Rattle.terminal_model.specs.Rows.{wide_in_colour, wide, seen, shown, shown_keeping, csi, kanji, new_line};
ghost use Rattle.terminal_model.specs.Rows.{narrowed, wide_page, printed_beside};
ghost use Rattle.terminal_model.specs.Scrollback.{all_left};

/// Printing: the pending wrap, wide characters and their halves, marks.
pub fn printed_rows()
    ensures fresh { shown 24 80 [] ≡ with_cursor 0 0 (blank_page 24 80) }
    ensures wrap { shown 2 5 (codes "abcdef")
        ≡ with_cursor 1 1 (letters (codes "abcde") ∷ letters (codes "f    ") ∷ []) }
    ensures wrap_ended { shown 2 5 (codes "abcde" ++ 0x08 ∷ codes "X")
        ≡ with_cursor 0 4 (letters (codes "abcXe") ∷ letters (codes "     ") ∷ []) }
    ensures wide_at_the_edge { shown 2 3 (codes "ab" ++ kanji)
        ≡ with_cursor 1 2 (letters (codes "ab ") ∷ (wide 0x6F22 ++ letters (codes " ")) ∷ []) }
    ensures half_overwritten { shown 2 5 (kanji ++ codes "x" ++ 0x0D ∷ codes "a")
        ≡ with_cursor 0 1 (letters (codes "a x  ") ∷ letters (codes "     ") ∷ []) }
    ensures wide_moved { shown 2 5
        (kanji ++ codes "x" ++ (0x0D ∷ []) ++ csi (codes "4h") ++ codes "a")
        ≡ with_cursor 0 1 ((letters (codes "a") ++ wide 0x6F22 ++ letters (codes "x "))
        ∷ letters (codes "     ") ∷ []) }
    ensures wide_cut { shown 2 5
        (codes "a" ++ kanji ++ codes "b" ++ csi (codes "1;3H") ++ csi (codes "P"))
        ≡ with_cursor 0 2 (letters (codes "a b  ") ∷ letters (codes "     ") ∷ []) }
    ensures third_mark_dropped { shown 2 5 (0x65 ∷ 0xCC ∷ 0x81 ∷ 0xCC ∷ 0x82 ∷ 0xCC ∷ 0x83 ∷ [])
        ≡ with_cursor 0 1 ((marked (marked (narrow_cell 0x65 plain false) 0x301) 0x302
        ∷ letters (codes "    ")) ∷ letters (codes "     ") ∷ []) }
    ensures mark_apart_dropped { shown 2 5 (0x65 ∷ 0x08 ∷ 0x61 ∷ 0x0D ∷ 0xCC ∷ 0x81 ∷ [])
        ≡ with_cursor 0 0 (letters (codes "a    ") ∷ letters (codes "     ") ∷ []) }
{}

/// Reading: sets, codings, broken characters and sequences.
pub fn coded_rows()
    ensures sets { shown 2 5 (0x1B ∷ codes "(0q" ++ 0x1B ∷ codes "(Bq" ++ 0xE2 ∷ 0x82 ∷ 0x41 ∷ [])
        ≡ with_cursor 0 4
        (letters (0x2500 ∷ 0x71 ∷ 0xFFFD ∷ 0x41 ∷ 0x20 ∷ []) ∷ letters (codes "     ") ∷ []) }
    ensures supplemental { shown 2 5 (0x1B ∷ codes "%@" ++ 0x1B ∷ codes "*<" ++ 0xA9 ∷ [])
        ≡ with_cursor 0 1 (letters (0xA9 ∷ codes "    ") ∷ letters (codes "     ") ∷ []) }
    ensures single_shift { shown 2 5 (0x1B ∷ codes "+0" ++ 0x1B ∷ codes "Oqq")
        ≡ with_cursor 0 2 (letters (0x2500 ∷ codes "q   ") ∷ letters (codes "     ") ∷ []) }
    ensures character_cancelled { shown 2 5 (0xE6 ∷ 0xBC ∷ 0x18 ∷ 0xA2 ∷ [])
        ≡ with_cursor 0 1 (letters (0xFFFD ∷ codes "    ") ∷ letters (codes "     ") ∷ []) }
    ensures surrogate_broken { shown 2 5 (0xED ∷ 0xA0 ∷ 0x80 ∷ [])
        ≡ with_cursor 0 3 (letters (0xFFFD ∷ 0xFFFD ∷ 0xFFFD ∷ codes "  ") ∷ blank_page 1 5) }
    ensures beginning_broken { shown 2 5 (0xF0 ∷ 0x90 ∷ 0x80 ∷ 0x41 ∷ [])
        ≡ with_cursor 0 2 (letters (0xFFFD ∷ codes "A   ") ∷ blank_page 1 5) }
    ensures sequence_in_pieces { seen
        (writes_all (ready (starting 2 5 0)) (Output (codes "abc") ∷ Output (0x1B ∷ [])
        ∷ Output (codes "[") ∷ Output (codes "2") ∷ Output (codes "J") ∷ [])).terminal.screen
        ≡ with_cursor 0 3 (blank_page 2 5) }
    ensures great_parameter { shown 2 5 (csi (codes "99999999999999999999;2H"))
        ≡ with_cursor 1 1 (blank_page 2 5) }
    ensures ill_formed_ignored { shown 2 5
        (csi (codes "1$$$p") ++ csi (codes "?1?h") ++ csi (codes "1:2H") ++ codes "a")
        ≡ with_cursor 0 1 (letters (codes "a    ") ∷ blank_page 1 5) }
    ensures string_dropped { shown 2 5 (0x1B ∷ codes "Px" ++ 0x07 ∷ codes "y" ++ 0x18 ∷ codes "a")
        ≡ with_cursor 0 1 (letters (codes "a    ") ∷ blank_page 1 5) }
{}

/// Margins, tab stops, protection, scrollback, reports, a change of size.
pub fn edited_rows()
    ensures protected_stay { shown 2 5
        (csi (0x31 ∷ 0x22 ∷ codes "qab") ++ csi (0x30 ∷ 0x22 ∷ codes "qc") ++ csi (codes "?2J"))
        ≡ with_cursor 0 3
        ((protected_letters (codes "ab") ++ letters (codes "   ")) ∷ letters (codes "     ") ∷ []) }
    ensures place_in_margins { (fresh_reads 24 80 0
        (csi (codes "2;4r") ++ csi (codes "?6h") ++ csi (codes "6n"))).reports
        ≡ 0x1B ∷ 0x5B ∷ 0x31 ∷ 0x3B ∷ 0x31 ∷ 0x52 ∷ [] }
    ensures eight_bits { (fresh_reads 24 80 0 (0x1B ∷ codes " G" ++ csi (codes "c"))).reports
        ≡ 0xC2 ∷ 0x9B ∷ 0x3F ∷ 0x36 ∷ 0x32 ∷ 0x3B ∷ 0x36 ∷ 0x63 ∷ [] }
    ensures scrollback { shown_keeping 2 5 1
        (codes "a" ++ new_line ++ codes "b" ++ new_line ++ codes "c" ++ new_line ++ codes "d")
        ≡ (
          with_cursor 1 1 (letters (codes "c    ") ∷ letters (codes "d    ") ∷ []),
          letters (codes "b    ") ∷ [],
        ) }
    ensures insertion_outside_margins { shown 4 5
        (csi (codes "2;3r") ++ codes "a" ++ csi (codes "L"))
        ≡ with_cursor 0 1 (letters (codes "a    ") ∷ blank_page 3 5) }
    ensures margins_ignored { shown 2 5 (codes "ab" ++ csi (codes "2;2r"))
        ≡ with_cursor 0 2 (letters (codes "ab   ") ∷ blank_page 1 5) }
    ensures tab_stops { shown 24 80 (0x09 ∷ 0x09 ∷ 0x09 ∷ [])
        ≡ with_cursor 0 24 (blank_page 24 80) }
    ensures no_tab_stops { shown 24 80 (0x09 ∷ 0x09 ∷ 0x09 ∷ csi (codes "3g") ++ 0x0D ∷ 0x09 ∷ [])
        ≡ with_cursor 0 79 (blank_page 24 80) }
    ensures scrollback_in_margins { shown_keeping 3 5 5
        (csi (codes "1;2r") ++ codes "a" ++ new_line ++ codes "b" ++ new_line ++ codes "c")
        ≡ (
          with_cursor 1 1 (letters (codes "b    ") ∷ letters (codes "c    ") ∷ blank_page 1 5),
          letters (codes "a    ") ∷ [],
        ) }
    ensures deletion_keeps_nothing { shown_keeping 3 5 5
        (codes "a" ++ new_line ++ codes "b" ++ csi (codes "H") ++ csi (codes "M"))
        ≡ (with_cursor 0 0 (letters (codes "b    ") ∷ blank_page 2 5), []) }
    ensures smaller { seen (resized 2 4 (fresh_reads 3 6 3
        (codes "abc" ++ kanji ++ codes "d" ++ new_line ++ codes "xy")).terminal.screen)
        ≡ with_cursor 1 2 (letters (codes "abc ") ∷ letters (codes "xy  ") ∷ []) }
    ensures scrollback_narrowed { (writes_all
        (ready (starting 2 5 1)) narrowed).terminal.screen.kept
        ≡ letters (codes "fg ") ∷ [] }
    ensures lines_that_left { all_left [] (ready (starting 2 5 1)) narrowed
        ≡ letters (codes "abc") ∷ letters (codes "fg ") ∷ [] }
{}

/// Colours: one after another, saved and restored, on wide characters; blanks have none.
pub fn coloured_rows()
    ensures in_turn { shown 2 5 (csi (codes "31;44m") ++ codes "a"
        ++ csi (codes "39m") ++ codes "b" ++ csi (codes "0m") ++ codes "c")
        ≡ with_cursor 0 3 ((in_colours Red Blue (codes "a") ++ in_colours Default Blue (codes "b")
        ++ letters (codes "c  ")) ∷ blank_page 1 5) }
    ensures each_by_itself { shown 2 5 (csi (codes "38;5;1m") ++ codes "a")
        ≡ with_cursor 0 1
        ((narrow_cell 0x61 (record plain { is_bold = true; is_blinking = true }) false
        ∷ letters (codes "    ")) ∷ blank_page 1 5) }
    ensures blank { shown 2 5 (csi (codes "42m") ++ csi (codes "2J"))
        ≡ with_cursor 0 0 (blank_page 2 5) }
    ensures saved { shown 2 5
        (csi (codes "33m") ++ 0x1B ∷ codes "7" ++ csi (codes "m") ++ 0x1B ∷ codes "8a")
        ≡ with_cursor 0 1
        ((in_colours Yellow Default (codes "a") ++ letters (codes "    ")) ∷ blank_page 1 5) }
    ensures soft_reset { shown 2 5 (csi (codes "32;43m") ++ csi (codes "!p") ++ codes "a")
        ≡ with_cursor 0 1 (letters (codes "a    ") ∷ blank_page 1 5) }
    ensures wide_cut { shown 2 5
        (csi (codes "36m") ++ kanji ++ kanji ++ csi (codes "2H") ++ csi (codes "1;2H") ++ codes "x")
        ≡ with_cursor 0 2 ((letters (codes " ") ++ in_colours Cyan Default (codes "x")
        ++ wide_in_colour Cyan 0x6F22 ++ letters (codes " ")) ∷ blank_page 1 5) }
    ensures insertion { shown 2 5
        (csi (codes "41m") ++ codes "ab" ++ csi (codes "1;2H") ++ csi (codes "2@"))
        ≡ with_cursor 0 1 ((in_colours Default Red (codes "a") ++ letters (codes "  ")
        ++ in_colours Default Red (codes "b") ++ letters (codes " ")) ∷ blank_page 1 5) }
    ensures deletion { shown 2 5 (csi (codes "47m") ++ codes "a"
        ++ new_line ++ codes "b" ++ csi (codes "H") ++ csi (codes "M"))
        ≡ with_cursor 0 0
        ((in_colours Default White (codes "b") ++ letters (codes "    ")) ∷ blank_page 1 5) }
    ensures smaller { seen
        (resized 2 3 (fresh_reads 2 5 0 (csi (codes "30m") ++ codes "ab" ++ kanji)).terminal.screen)
        ≡ with_cursor 0 2
        ((in_colours Black Default (codes "ab") ++ letters (codes " ")) ∷ blank_page 1 3) }
    ensures strings { shown 2 5 (csi (codes "34m") ++ 0x1B ∷ codes "P$qm" ++ 0x1B ∷ codes "\\a")
        ≡ with_cursor 0 1
        ((in_colours Blue Default (codes "a") ++ letters (codes "    ")) ∷ blank_page 1 5) }
{}

/// The content of frames: characters at their places, and functions whose values are known.
pub fn drawn_rows()
    ensures in_place { AllByRecursion (IsDiscreet wide_page)
        (fresh_reads 2 5 0 (kanji ++ codes "x")).acts }
    ensures same_page { (fresh_reads 2 5 0 printed_beside).terminal.screen.page ≡ wide_page }
    ensures out_of_place { AllByRecursion (IsDiscreet wide_page)
        (fresh_reads 2 5 0 printed_beside).acts → ⊥ }
    ensures margins { IsListed 2 (Csi None (2 ∷ 2 ∷ []) [] 0x72) → ⊥ }
    ensures parameter { IsListed 24 (Csi None (1 ∷ []) (0x21 ∷ []) 0x70) → ⊥ }
{}
