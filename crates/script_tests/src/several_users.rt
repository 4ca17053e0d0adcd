//! Scripts of several users: entries, leaders, locks, masks, windows and keys.

/// Cases that follow `rows::FOUR_CLIENTS`.
pub static CASES: &str = r"
= who may not write in a window may by his leader's entry, until that is taken too
command own - aclchg bob -w 2
keys 2 x => say 2 denied: w on window 2: entry bob -w / ok
command own - aclgrp bob ann
keys 2 x => input 2 x / ok
command own - aclchg ann -w 2
keys 2 x => say 2 denied: w on window 2: entry bob -w; leader ann -w / ok
= a lock stops others until its holder may not write any more
keys 3 \01:writelock auto\0d
keys 2 y => say 2 denied: window 2 locked by eve / ok
command own - aclchg eve -w+w 2
keys 2 z => input 2 z / ok
= a lock of auto goes where its holder's last client leaves, one of on stays
keys 3 \01:writelock auto\0d
keys 3 \01:select 0\0d
keys 2 x => input 2 x / ok
keys 2 \01:writelock on\0d
keys 2 \01:select 0\0d
keys 3 \01:select 2\0d
keys 3 x => say 3 denied: window 2 locked by bob / ok
= who comes back to a window whose lock is free takes it, also from the owner
keys 0 \01:select 2\0d
keys 3 \01:writelock auto\0d
keys 3 \01:select 0\0d
keys 2 x => input 2 x / ok
keys 2 \01:select 2\0d
keys 0 y => say 0 denied: window 2 locked by bob / ok
keys 0 \01:writelock off\0d => say 0 denied: window 2 locked by bob / ok
= a lock goes where its holder may not write any more in all windows
keys 3 \01:writelock on\0d
keys 3 \01:select 0\0d
keys 2 x => say 2 denied: window 2 locked by eve / ok
command own - aclchg eve -w #
keys 2 x => input 2 x / ok
= a window that is opened where locks begin as on is locked by its opener
command own - defwritelock on
open own 24 80 0 new => opened 3 3
keys 2 \01:select 3\0d
keys 2 x => say 2 denied: window 3 locked by own / ok
= a client that goes leaves, and its lock with it
keys 3 \01:writelock on\0d
detach 3 => gone client 3 0 / ok
keys 2 x => input 2 x / ok
= a mask is what a user has on windows that open later, with the lowest free numbers
command own - aclchg bob -r 2
command own - aclumask bob-w
command own 2 kill => gone window 2 3 / ok
open own 24 80 0 new => opened 3 2
command bob 2 stuff x => refused denied: w on window 2: entry bob -w
command bob 2 title hi
command bob - windows => text 0 zero  1 one  2 hi
= a preset is what a user who becomes known later has on windows
command own - aclumask ?-w
command own - aclchg cat +x kill
command cat 0 stuff x => refused denied: w on window 0: entry cat -w
= a user without leaders has none, and a command types into its window
command own - aclgrp bob => text bob: none
command own 0 stuff hi => input 0 hi / ok
= the owner can't be removed, and nothing changes
command own - acldel own => refused acl: 2
keys 0 x => input 0 x / ok
command own - windows => text 0 zero  1 one  2 two
= a bound command acts only where x is granted on it
command own - aclchg bob -x kill
keys 2 \01k => say 2 denied: x on kill: entry bob -x / ok
command own - windows => text 0 zero  1 one  2 two
= a command is refused to a user without x on it, and to one without x on its window
command own - aclchg bob -x kill
command bob 0 kill => refused denied: x on kill: entry bob -x
command own - aclchg bob +x-r kill
command own - aclchg bob -x 0
command bob 0 kill => refused denied: x on window 0: entry bob -x
command own - windows => text 0 zero  1 one  2 two
= a list of users is changed wholly or not at all
command own - aclchg bob,own -r 2 => refused acl: 2
command bob - windows => text 0 zero  1 one  2 two
= a message reaches all clients, by rising serials
keys 1 \01:wall hi\0d => say 0 ann: hi / say 1 ann: hi / say 2 ann: hi / say 3 ann: hi / ok
= lines are refused at the place of their first fault
command own - zap => refused line: 1 at 0
command own - aclchg bob w 2 => refused line: 5 at 11
command own 2 number 1 => refused windows: 3
command own - select 0 => refused no window
= who is removed goes, and so do others where the session is the owner's alone again
command own - acldel ann => gone client 1 1 / ok
attach ann 24 80 => refused unknown user
command own - multiuser off => gone client 2 2 / gone client 3 2 / ok
attach bob 24 80 => refused not in multiuser mode
= a window that is closed goes, and who typed into it has none
closed 0 => gone window 0 0 / ok
keys 0 x => say 0 no window / ok
closed 0 => refused no window
= several leaders are asked in the order in which they came
command own - aclchg bob,ann -w 2
command own - aclgrp bob ann
command own - aclgrp bob eve
keys 2 x => input 2 x / ok
command own - aclchg eve -w 2
keys 2 x => say 2 denied: w on window 2: entry bob -w; leader ann -w; leader eve -w / ok
command own - aclgrp bob ann
command own - aclgrp bob => text bob: ann,eve
command own - acldel ann => gone client 1 1 / ok
command own - aclgrp bob => text bob: eve
= a user has eight leaders at most, and one who is there keeps his place
command own - acladd a,b,c,d,e,f,g,h,i
keys 0 \01:aclgrp bob a\0d\01:aclgrp bob b\0d\01:aclgrp bob c\0d\01:aclgrp bob d\0d
keys 0 \01:aclgrp bob e\0d\01:aclgrp bob f\0d\01:aclgrp bob g\0d\01:aclgrp bob h\0d
command own - aclgrp bob i => refused acl: 7
command own - aclgrp bob a
command own - aclgrp bob => text bob: a,b,c,d,e,f,g,h
= a client of another size is drawn anew
output 2 hi
draw 2 => deliver 2 reset .. / ok
draw 2
resize 2 10 40
draw 2 => deliver 2 reset .. / ok";

/// A case in the first edition that follows `rows::FOUR_CLIENTS`.
pub static FIRST: &str = r"
= in the first edition a new leader takes the place of the former one
command own - aclchg bob,ann -w 2
command own - aclgrp bob ann
command own - aclgrp bob eve
command own - aclgrp bob ann
keys 2 x => say 2 denied: w on window 2: entry bob -w; leader ann -w / ok";

/// A case in the second edition, named by `--edition`, that follows `rows::FOUR_CLIENTS`.
pub static SECOND: &str = r"
= the second edition can be named
command own - aclgrp bob ann
command own - aclgrp bob eve
command own - aclgrp bob => text bob: ann,eve";
