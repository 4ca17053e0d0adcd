//! Scripts of views: windows without r, edges, messages, lists and the prompt; and the bytes of draws.

/// Scripts with whole pages after the events.
pub static ROWS: &str = r"
= a window that may not be read has no cursor, and what stands beside it is shown
command own - multiuser on
command own - acladd bob
open own 2 5 0 zero => opened 0 0
open own 2 5 0 one => opened 1 1
output 0 a
output 1 b\1b[?1h\1b=
attach own 4 20 => attached 0
attach bob 7 20 => attached 1
keys 1 \01S\01\09\011
draw 1 => deliver 1 reset .. / ok
command own - aclchg bob -r 1
draw 1 => deliver 1 .. / ok
client 0
|a                   |
|                    |
|0 zero              |
|                    | / cursor 1 2
client 1
|a                   |
|                    |
|0 zero              |
|                    |
|                    |
|1 ?                 |
|                    | / cursor hidden
= the cursor is hidden where its place is outside of the region
open own 2 30 0 sh => opened 0 0
attach own 4 20 => attached 0
output 0 abcdefghijklmnopqrs
draw 0 => deliver 0 reset .. / ok
output 0 tuv
draw 0 => deliver 0 .. / ok
client 0
|abcdefghijklmnopqrst|
|                    |
|0 sh                |
|                    | / cursor hidden
= half a wide character at the edge is a blank, in a region and in its caption
open own 2 20 0 漢漢漢漢漢 => opened 0 0
attach own 4 23 => attached 0
output 0 abcdefghij\e6\bc\a2\0d
keys 0 \01|
draw 0 => deliver 0 reset .. / ok
client 0
|abcdefghij |           |
|           |           |
|0 漢漢漢漢 |--         |
|                       | / cursor 1 1
= the lists of windows and of clients are made anew for each draw
open own 2 5 0 sh => opened 0 0
attach own 4 20 => attached 0
attach own 4 20 => attached 1
attach own 4 20 => attached 2
keys 0 \01w => say 0 0* sh / ok
keys 1 \01* => say 1 0 own 0  1 own 0  2 own 0 / ok
draw 0 => deliver 0 reset .. / ok
draw 1 => deliver 1 reset .. / ok
command own 0 title hi
detach 2 => gone client 2 0 / ok
draw 0 => deliver 0 .. / ok
draw 1 => deliver 1 .. / ok
client 0
|                    |
|                    |
|0 hi                |
|0* hi               | / cursor 1 1
client 1
|                    |
|                    |
|0 hi                |
|0 own 0  1 own 0    | / cursor 1 1
= a message stays until its client types again
open own 2 5 0 sh => opened 0 0
attach own 4 20 => attached 0
attach own 4 20 => attached 1
keys 0 \01:screen\0d => say 0 windows are opened by mux window / ok
keys 1 \01:screen\0d => say 1 windows are opened by mux window / ok
draw 0 => deliver 0 reset .. / ok
draw 1 => deliver 1 reset .. / ok
keys 0 x => input 0 x / ok
draw 0 => deliver 0 .. / ok
draw 1
client 0
|                    |
|                    |
|0 sh                |
|                    | / cursor 1 1
client 1
|                    |
|                    |
|0 sh                |
|windows are opened b| / cursor 1 1
= the prompt's line shows what isn't whole as one character, and is cut at the edge
open own 2 5 0 sh => opened 0 0
attach own 4 20 => attached 0
attach own 4 20 => attached 1
attach own 4 20 => attached 2
attach own 4 20 => attached 3
keys 0 \01:a\e6\bc
keys 1 \01:ab\e6\bc\a2\08\7fc
keys 2 \01:wal \e6\bc\a2\e6\bc\a2\e6\bc\a2\e6\bc\a2\e6\bc\a2\e6\bc\a2\e6\bc\a2\e6\bc\a2
keys 3 \01:wall\1b
draw 0 => deliver 0 reset .. / ok
draw 1 => deliver 1 reset .. / ok
draw 2 => deliver 2 reset .. / ok
draw 3 => deliver 3 reset .. / ok
client 0
|                    |
|                    |
|0 sh                |
|:a�                 | / cursor 1 1
client 1
|                    |
|                    |
|0 sh                |
|:ac                 | / cursor 1 1
client 2
|                    |
|                    |
|0 sh                |
|:wal 漢漢漢漢漢漢漢 | / cursor 1 1
client 3
|                    |
|                    |
|0 sh                |
|                    | / cursor 1 1
= a terminal that was drawn in another size shows the page of its new one
open own 24 80 0 sh => opened 0 0
attach own 24 80 => attached 0
output 0 \1b[7mhi\1b[9;39Hthere
draw 0 => deliver 0 reset .. / ok
resize 0 10 40
draw 0 => deliver 0 reset .. / ok
client 0
|                                        |
|                                        |
|                                        |
|                                        |
|                                        |
|                                        |
|                                        |
|                                      th|
|0 sh                                    |
|                                        | / cursor hidden";

/// Cases that follow `rows::FOUR_CLIENTS`.
pub static CASES: &str = r"
= a title that may not be read is a question mark in a list too
command own - aclchg bob -r 2
command bob - windows => text 0 zero  1 one  2 ?
keys 2 \01w => say 2 0 zero  1 one  2* ? / ok
keys 3 \01w => say 3 0 zero  1 one  2* two / ok
= the list of clients has the windows in focus
keys 1 \01S\01\09
command own - displays => text 0 own 0  1 ann -  2 bob 2  3 eve 2
keys 1 \01* => say 1 0 own 0  1 ann -  2 bob 2  3 eve 2 / ok
= from an empty region the lowest window is next, and the highest the one before
keys 0 \01S\01\09x => say 0 no window / ok
keys 0 \01nx => input 0 x / ok
keys 0 \01px => input 2 x / ok
keys 0 \01 x => input 0 x / ok
keys 0 \01X\01S\01\09\01px => input 2 x / ok
= the other window is the one shown before, from an empty region the one shown last
keys 0 \01\01 => say 0 no window / ok
keys 0 \012\01\01x => input 0 x / ok
keys 0 \01\01x => input 2 x / ok
keys 0 \01S\01\09\01\01x => input 2 x / ok
= a former window that is closed is not shown
keys 0 \011
closed 0 => gone window 0 0 / ok
keys 0 \01\01 => say 0 no window / ok
keys 0 x => input 1 x / ok";

/// The bytes that a draw has for each difference: cases that follow `rows::DRAWN`.
pub static DRAWS: &str = r"
= a new character is printed alone
output 0 !
draw 0 => deliver 0 \1b[m! / ok
= places that are as they were are passed over
output 0 \1b[1;1HX\1b[1;5HY
draw 0 => deliver 0 \1b[1H\1b[mX\1b[3CY\1b[1;5H / ok
= a changed colour prints its character once
output 0 \1b[1;1H\1b[31mh
draw 0 => deliver 0 \1b[1H\1b[;31mh / ok
= blanks in reverse are printed, blanks without rendition erased
output 0 \1b[2J\1b[1;1H
draw 0 => deliver 0 \1b[1H\1b[K / ok
output 0 \1b[?5h
draw 0 => deliver 0 \1b[;7m     \1bE     \1b[1H / ok
output 0 \1b[?5l
draw 0 => deliver 0 \1b[K\1bE\1b[K\1b[1H / ok
= a split prints the bar and the new caption, and the caption in focus is bold
keys 0 \01|
draw 0 => deliver 0 \1b[7C\1b[;7m|\1b[2;10H|\1b[3;10H|--        \1b[1;3H / ok
keys 0 \01\09
draw 0 => deliver 0 \1b[3H\1b[;7m0 sh     \1b[1C\1b[1m--        \1b[?25l / ok
= the cursor and the modes of keys change alone
output 0 \0d
draw 0 => deliver 0 \1b[1H / ok
output 0 \1b[?1h
draw 0 => deliver 0 \1b[?1h / ok
output 0 \1b=
draw 0 => deliver 0 \1b= / ok
output 0 \1b[?25l
draw 0 => deliver 0 \1b[?25l / ok
output 0 \1b[?1l
draw 0 => deliver 0 \1b[?1l / ok
output 0 \1b>
draw 0 => deliver 0 \1b> / ok
output 0 \1b[1\22q
draw 0";

/// Cases that follow `rows::FOUR_CLIENTS`.
pub static REVOKED: &str = r"
= of a page that may not be read any more nothing stays, and nothing else is printed
output 2 hi
draw 2 => deliver 2 reset .. / ok
command own - aclchg bob -r 2
draw 2 => deliver 2 \1b[1H\1b[K\1b[23;3H\1b[;1;7m?  \1b[?25l / ok
draw 2";
