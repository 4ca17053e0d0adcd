//! Scripts of regions: split pages, the part of a window that a region shows, and refusals.

/// Scripts with whole pages after the events.
pub static ROWS: &str = r"
= a page of 24 lines that is split twice has regions of 5, 5 and 10
open own 24 80 0 sh => opened 0 0
attach own 24 80 => attached 0
output 0 \1b#8
keys 0 \01S\01S\01\09\010\01\09\010
draw 0 => deliver 0 reset .. / ok
client 0
|EEEEEEEEEEEEEEEEEEEEEEEEEEEEEEEEEEEEEEEEEEEEEEEEEEEEEEEEEEEEEEEEEEEEEEEEEEEEEEEE|
|EEEEEEEEEEEEEEEEEEEEEEEEEEEEEEEEEEEEEEEEEEEEEEEEEEEEEEEEEEEEEEEEEEEEEEEEEEEEEEEE|
|EEEEEEEEEEEEEEEEEEEEEEEEEEEEEEEEEEEEEEEEEEEEEEEEEEEEEEEEEEEEEEEEEEEEEEEEEEEEEEEE|
|EEEEEEEEEEEEEEEEEEEEEEEEEEEEEEEEEEEEEEEEEEEEEEEEEEEEEEEEEEEEEEEEEEEEEEEEEEEEEEEE|
|EEEEEEEEEEEEEEEEEEEEEEEEEEEEEEEEEEEEEEEEEEEEEEEEEEEEEEEEEEEEEEEEEEEEEEEEEEEEEEEE|
|0 sh                                                                            |
|EEEEEEEEEEEEEEEEEEEEEEEEEEEEEEEEEEEEEEEEEEEEEEEEEEEEEEEEEEEEEEEEEEEEEEEEEEEEEEEE|
|EEEEEEEEEEEEEEEEEEEEEEEEEEEEEEEEEEEEEEEEEEEEEEEEEEEEEEEEEEEEEEEEEEEEEEEEEEEEEEEE|
|EEEEEEEEEEEEEEEEEEEEEEEEEEEEEEEEEEEEEEEEEEEEEEEEEEEEEEEEEEEEEEEEEEEEEEEEEEEEEEEE|
|EEEEEEEEEEEEEEEEEEEEEEEEEEEEEEEEEEEEEEEEEEEEEEEEEEEEEEEEEEEEEEEEEEEEEEEEEEEEEEEE|
|EEEEEEEEEEEEEEEEEEEEEEEEEEEEEEEEEEEEEEEEEEEEEEEEEEEEEEEEEEEEEEEEEEEEEEEEEEEEEEEE|
|0 sh                                                                            |
|EEEEEEEEEEEEEEEEEEEEEEEEEEEEEEEEEEEEEEEEEEEEEEEEEEEEEEEEEEEEEEEEEEEEEEEEEEEEEEEE|
|EEEEEEEEEEEEEEEEEEEEEEEEEEEEEEEEEEEEEEEEEEEEEEEEEEEEEEEEEEEEEEEEEEEEEEEEEEEEEEEE|
|EEEEEEEEEEEEEEEEEEEEEEEEEEEEEEEEEEEEEEEEEEEEEEEEEEEEEEEEEEEEEEEEEEEEEEEEEEEEEEEE|
|EEEEEEEEEEEEEEEEEEEEEEEEEEEEEEEEEEEEEEEEEEEEEEEEEEEEEEEEEEEEEEEEEEEEEEEEEEEEEEEE|
|EEEEEEEEEEEEEEEEEEEEEEEEEEEEEEEEEEEEEEEEEEEEEEEEEEEEEEEEEEEEEEEEEEEEEEEEEEEEEEEE|
|EEEEEEEEEEEEEEEEEEEEEEEEEEEEEEEEEEEEEEEEEEEEEEEEEEEEEEEEEEEEEEEEEEEEEEEEEEEEEEEE|
|EEEEEEEEEEEEEEEEEEEEEEEEEEEEEEEEEEEEEEEEEEEEEEEEEEEEEEEEEEEEEEEEEEEEEEEEEEEEEEEE|
|EEEEEEEEEEEEEEEEEEEEEEEEEEEEEEEEEEEEEEEEEEEEEEEEEEEEEEEEEEEEEEEEEEEEEEEEEEEEEEEE|
|EEEEEEEEEEEEEEEEEEEEEEEEEEEEEEEEEEEEEEEEEEEEEEEEEEEEEEEEEEEEEEEEEEEEEEEEEEEEEEEE|
|EEEEEEEEEEEEEEEEEEEEEEEEEEEEEEEEEEEEEEEEEEEEEEEEEEEEEEEEEEEEEEEEEEEEEEEEEEEEEEEE|
|0 sh                                                                            |
|                                                                                | / cursor 13 1
= a page of 6 lines that is split has regions of 2 and 1
open own 24 80 0 sh => opened 0 0
attach own 6 20 => attached 0
output 0 \1b#8
keys 0 \01S\01\09\010
draw 0 => deliver 0 reset .. / ok
client 0
|EEEEEEEEEEEEEEEEEEEE|
|EEEEEEEEEEEEEEEEEEEE|
|0 sh                |
|EEEEEEEEEEEEEEEEEEEE|
|0 sh                |
|                    | / cursor 4 1
= of halves beside each other the left one is the smaller: 9 and 10 of 20 columns
open own 24 80 0 sh => opened 0 0
attach own 4 20 => attached 0
output 0 \1b#8
keys 0 \01|\01\09\010
draw 0 => deliver 0 reset .. / ok
client 0
|EEEEEEEEE|EEEEEEEEEE|
|EEEEEEEEE|EEEEEEEEEE|
|0 sh     |0 sh      |
|                    | / cursor 1 11
= between two halves of 21 columns stands a bar, beside the captions too
open own 24 80 0 sh => opened 0 0
attach own 4 21 => attached 0
output 0 \1b#8
keys 0 \01|\01\09\010
draw 0 => deliver 0 reset .. / ok
client 0
|EEEEEEEEEE|EEEEEEEEEE|
|EEEEEEEEEE|EEEEEEEEEE|
|0 sh      |0 sh      |
|                     | / cursor 1 12
= only keeps the focused region, which has the whole page
open own 24 80 0 sh => opened 0 0
attach own 5 20 => attached 0
output 0 \1b#8
keys 0 \01S\01Q
draw 0 => deliver 0 reset .. / ok
client 0
|EEEEEEEEEEEEEEEEEEEE|
|EEEEEEEEEEEEEEEEEEEE|
|EEEEEEEEEEEEEEEEEEEE|
|0 sh                |
|                    | / cursor 1 1
= where a page becomes too small the focused region stays alone
open own 2 5 0 zero => opened 0 0
open own 2 5 0 one => opened 1 1
attach own 5 20 => attached 0
output 0 a
output 1 b
keys 0 \01S\01\09\011
draw 0 => deliver 0 reset .. / ok
resize 0 4 20
draw 0 => deliver 0 reset .. / ok
client 0
|b                   |
|                    |
|1 one               |
|                    | / cursor 1 2
= a removed region gives its room to its sibling, whose first region is focused
open own 2 5 0 zero => opened 0 0
open own 2 5 0 one => opened 1 1
attach own 8 20 => attached 0
output 0 a
keys 0 \01S\01S\01\09\01\09\011
draw 0 => deliver 0 reset .. / ok
keys 0 \01X
draw 0 => deliver 0 .. / ok
client 0
|a                   |
|                    |
|                    |
|0 zero              |
|                    |
|                    |
|--                  |
|                    | / cursor 1 2
= a closed window leaves its regions empty
open own 2 5 0 zero => opened 0 0
open own 2 5 0 one => opened 1 1
attach own 9 20 => attached 0
output 0 a
output 1 b
keys 0 \01S\01\09\011\01S\01\09\010
draw 0 => deliver 0 reset .. / ok
closed 0 => gone window 0 0 / ok
draw 0 => deliver 0 .. / ok
client 0
|                    |
|                    |
|                    |
|--                  |
|b                   |
|1 one               |
|                    |
|--                  |
|                    | / cursor hidden
= a region is moved back as far as lines are kept, and shows no cursor
open own 2 5 1 sh => opened 0 0
attach own 4 20 => attached 0
output 0 a\0d\0ab\0d\0ac\0d\0ad
draw 0 => deliver 0 reset .. / ok
keys 0 \01:scrollview 1\0d
draw 0 => deliver 0 .. / ok
keys 0 \01:scrollview 9\0d
draw 0
client 0
|b                   |
|c                   |
|0 sh                |
|                    | / cursor hidden
= who selects a window sees its present page
open own 2 5 1 sh => opened 0 0
attach own 4 20 => attached 0
output 0 a\0d\0ab\0d\0ac\0d\0ad
draw 0 => deliver 0 reset .. / ok
keys 0 \01:scrollview 1\0d
draw 0 => deliver 0 .. / ok
keys 0 \010
draw 0 => deliver 0 .. / ok
client 0
|c                   |
|d                   |
|0 sh                |
|                    | / cursor 2 2";

/// Cases without a beginning.
pub static CASES: &str = r"
= sixteen regions are not split, also where their halves would be too small
attach own 33 20 => attached 0
keys 0 \01S\01\09\01\09\01S\01\09\01\09\01S\01\09\01\09\01S\01\09\01\09\01S\01\09\01\09
keys 0 \01S\01\09\01\09\01S\01\09\01\09\01S\01\09\01\09\01S\01\09\01\09\01S\01\09\01\09
keys 0 \01S\01\09\01\09\01S\01\09\01\09\01S\01\09\01\09\01S\01\09\01\09\01S\01\09\01\09
keys 0 \01S => say 0 regions: 2 / ok
keys 0 \01X\01S
keys 0 \01| => say 0 regions: 2 / ok
= a region is not split where a half would have too little room
attach own 4 20 => attached 0
attach own 5 20 => attached 1
attach own 4 20 => attached 2
keys 0 \01S => say 0 regions: 1 / ok
keys 1 \01S\01S => say 1 regions: 1 / ok
keys 2 \01|\01|\01| => say 2 regions: 1 / ok
keys 2 \01| => say 2 regions: 1 / ok
= the last region is not removed
attach own 5 20 => attached 0
keys 0 \01X => say 0 regions: 3 / ok
keys 0 \01S\01X
keys 0 \01X => say 0 regions: 3 / ok
= a window is given its region's size, unless that has one row
open own 2 5 1 sh => opened 0 0
attach own 24 80 => attached 0
keys 0 \01:fit\0d => size 0 22 80 / ok
keys 0 \01S\01:fit\0d => size 0 11 80 / ok
keys 0 \01|\01:fit\0d => size 0 11 39 / ok
keys 0 \01\09\010\01:fit\0d => size 0 11 40 / ok
resize 0 5 80
keys 0 \01Q\01S\01:fit\0d => say 0 regions: 1 / ok
= without windows none is next, former or selected
attach own 4 20 => attached 0
keys 0 \01n => say 0 no window / ok
keys 0 \01p => say 0 no window / ok
keys 0 \01\01 => say 0 no window / ok
keys 0 \010 => say 0 windows: 2 / ok
command own - windows => text 
command own - split => refused no window";
