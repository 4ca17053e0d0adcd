//! Scripts of one owner: views, typing and refusals.

/// Scripts with whole pages after the events.
pub static ROWS: &str = r"
= the first run: a window prints, its client draws and types
open own 2 5 0 sh => opened 0 0
attach own 4 20 => attached 0
output 0 hi
draw 0 => deliver 0 reset .. / ok
keys 0 x => input 0 x / ok
client 0
|hi                  |
|                    |
|0 sh                |
|                    | / cursor 1 3
= the sixth character goes to the next line of five columns
open own 2 5 0 sh => opened 0 0
attach own 4 20 => attached 0
output 0 abcdef
draw 0 => deliver 0 reset .. / ok
client 0
|abcde               |
|f                   |
|0 sh                |
|                    | / cursor 2 2
= a region of two lines shows the lines up to the cursor's
open own 24 80 0 sh => opened 0 0
attach own 4 20 => attached 0
output 0 a\0d\0ab\0d\0ac
draw 0 => deliver 0 reset .. / ok
client 0
|b                   |
|c                   |
|0 sh                |
|                    | / cursor 2 2
= the command key and a type the command key, and any other key behind it is dropped
open own 24 80 0 sh => opened 0 0
attach own 4 20 => attached 0
keys 0 x\01ay\01z => input 0 x\01y / ok
client 0
|                    |
|                    |
|0 sh                |
|                    | / cursor 1 1
= the command key stands at an event's end, its key at the beginning of the next
open own 24 80 0 sh => opened 0 0
attach own 4 20 => attached 0
keys 0 x\01 => input 0 x / ok
keys 0 ay => input 0 \01y / ok
keys 0 \01
keys 0 zw => input 0 w / ok
client 0
|                    |
|                    |
|0 sh                |
|                    | / cursor 1 1
= a sequence that is cut into four outputs acts as one
open own 2 5 0 sh => opened 0 0
attach own 4 20 => attached 0
output 0 abc\1b
output 0 [
output 0 2
output 0 J
draw 0 => deliver 0 reset .. / ok
client 0
|                    |
|                    |
|0 sh                |
|                    | / cursor 1 4
= a fresh window is blank, its cursor in the first place
open own 24 80 0 sh => opened 0 0
attach own 4 20 => attached 0
draw 0 => deliver 0 reset .. / ok
client 0
|                    |
|                    |
|0 sh                |
|                    | / cursor 1 1
= backspace behind the last column goes to the column before it
open own 2 5 0 sh => opened 0 0
attach own 4 20 => attached 0
output 0 abcde\08X
draw 0 => deliver 0 reset .. / ok
client 0
|abcXe               |
|                    |
|0 sh                |
|                    | / cursor 1 5
= a second draw of the same view gives nothing, and one of another view no reset
open own 2 5 0 sh => opened 0 0
attach own 4 20 => attached 0
output 0 hi
draw 0 => deliver 0 reset .. / ok
draw 0
output 0 !
draw 0 => deliver 0 .. / ok
client 0
|hi!                 |
|                    |
|0 sh                |
|                    | / cursor 1 4
= windows and clients are counted from 0, and each shows window 0
open own 2 5 0 sh => opened 0 0
open own 2 5 0 sh => opened 1 1
attach own 4 20 => attached 0
attach own 5 21 => attached 1
output 0 a
draw 1 => deliver 1 reset .. / ok
client 0
|a                   |
|                    |
|0 sh                |
|                    | / cursor 1 2
client 1
|a                    |
|                     |
|                     |
|0 sh                 |
|                     | / cursor 1 2
= only the owner is known, and sizes and titles have limits, refused in this order
open bob 1 5 0 sh => refused unknown user
open own 1 5 0 sh => refused bad size
open own 201 5 0 sh => refused bad size
open own 2 1 0 sh => refused bad size
open own 2 301 0 sh => refused bad size
open own 2 5 2001 sh => refused bad size
open own 2 5 0  => refused windows: 4
open own 2 5 0 a\01 => refused windows: 4
open own 2 5 0 aaaaaaaaaaaaaaaaaaaaaaaaaaaaaaaaaaaaaaaab => refused windows: 4
open own 200 300 2000 aaaaaaaaaaaaaaaaaaaaaaaaaaaaaaaaaaaaaaaa => opened 0 0
attach bob 3 20 => refused unknown user
attach own 3 20 => refused bad size
attach own 201 20 => refused bad size
attach own 4 19 => refused bad size
attach own 4 301 => refused bad size
attach own 4 20 => attached 0
client 0
|                    |
|                    |
|0 aaaaaaaaaaaaaaaaaa|
|                    | / cursor 1 1
= what isn't there is refused, and keys without a window are told so
keys 0 x => refused no window
output 0 x => refused no window
draw 0 => refused no window
attach own 4 20 => attached 0
keys 0 x => say 0 no window / ok
draw 0 => deliver 0 reset .. / ok
client 0
|                    |
|                    |
|--                  |
|no window           | / cursor hidden
= a user who may not read a window sees its number alone
command own - multiuser on
command own - acladd bob
open own 2 5 0 two => opened 0 0
attach own 4 20 => attached 0
attach bob 4 20 => attached 1
output 0 hi
draw 1 => deliver 1 reset .. / ok
command own - aclchg bob -r 0
draw 1 => deliver 1 .. / ok
client 0
|hi                  |
|                    |
|0 two               |
|                    | / cursor 1 3
client 1
|                    |
|                    |
|0 ?                 |
|                    | / cursor hidden
= a denial is told once for all keys of an event, and is cut at the edge of the last row
command own - multiuser on
command own - acladd bob
open own 24 80 0 sh => opened 0 0
attach own 4 20 => attached 0
attach bob 4 20 => attached 1
command own - aclchg bob -w 0
keys 1 xy => say 1 denied: w on window 0: entry bob -w / ok
draw 1 => deliver 1 reset .. / ok
client 0
|                    |
|                    |
|0 sh                |
|                    | / cursor 1 1
client 1
|                    |
|                    |
|0 sh                |
|denied: w on window | / cursor 1 1
= keys go on in the window that a command among them selects, however they are cut
open own 2 5 0 zero => opened 0 0
open own 2 5 0 one => opened 1 1
attach own 4 20 => attached 0
keys 0 a\01nb => input 0 a / input 1 b / ok
keys 0 \01p
keys 0 a\01 => input 0 a / ok
keys 0 nb => input 1 b / ok
client 0
|                    |
|                    |
|1 one               |
|                    | / cursor 1 1
= a split page shows two windows, each with its caption
open own 2 5 0 zero => opened 0 0
open own 2 5 0 one => opened 1 1
attach own 7 20 => attached 0
output 0 a
output 1 b
draw 0 => deliver 0 reset .. / ok
keys 0 \01S
keys 0 \01\09
keys 0 \01:select 1\0d
draw 0 => deliver 0 .. / ok
client 0
|a                   |
|                    |
|0 zero              |
|b                   |
|                    |
|1 one               |
|                    | / cursor 4 2
= what is listed and the prompt's line stand in the last row
open own 2 5 0 sh => opened 0 0
attach own 4 20 => attached 0
attach own 4 20 => attached 1
keys 0 \01w => say 0 0* sh / ok
keys 1 \01:wal
client 0
|                    |
|                    |
|0 sh                |
|0* sh               | / cursor 1 1
client 1
|                    |
|                    |
|0 sh                |
|:wal                | / cursor 1 1
= keys that are cut into many events do the same as in one
open own 2 5 0 zero => opened 0 0
open own 2 5 0 one => opened 1 1
attach own 4 20 => attached 0
keys 0 a => input 0 a / ok
keys 0 \01
keys 0 n
keys 0 \01
keys 0 :
keys 0 stuff
keys 0 \20
keys 0 xy
keys 0 \0d => input 1 xy / ok
keys 0 c => input 1 c / ok
keys 0 \01:
keys 0 title\20
keys 0 h
keys 0 \c3
keys 0 \a4
keys 0 \08i
keys 0 \0d
keys 0 \01
keys 0 p
keys 0 d => input 0 d / ok
keys 0 \01
keys 0 \01
client 0
|                    |
|                    |
|1 hi                |
|                    | / cursor 1 1";
