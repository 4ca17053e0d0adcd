//! Command lines and what they mean, from the commands' table and the GNU Screen manual.

use crate::stage::{ListStage, TestUser, Want, user};
use AclFault::NoMemory;
use acl::{AclFault, Bit, BitChange, Edition, Object, RightsChange};
use command_lang::{Command, Needs, ParseFault, needs_of, parse, print};
use std::alloc::{AllocError, Global};

/// A line, `=`, and its fault's number and place; or a line, `=`, its command as it is printed, `=`,
/// and the command's needs. Each command has a line with a word too many, and one with a word missing.
/// List commands need multiuser mode, commands about regions or the window shown need a client, and
/// commands about one window need that window.
const ROWS: &str = r##"zap=1 at 0
aclchg bob=2 at 10
select 1 2=3 at 9
number 40=4 at 7
writelock maybe=9 at 10
acladd ann,,bob=9 at 7
wall "a=6 at 5
aclchg bob w 2=5 at 11
=2 at 0
   =2 at 3
  zap=1 at 2
zap "a=1 at 0
"wall=6 at 0
wall a\=6 at 5
select 1 '2=6 at 9
number 40 x=4 at 7
number 00007=4 at 7
number +7=4 at 7
scrollview 2001=4 at 11
aclchg ,bob w 2=9 at 7
aclchg bob +rw- 2=5 at 11
aclchg bob +r 1,=9 at 14
aclumask=2 at 8
aclumask bob=5 at 9
aclumask a,,b=5 at 9
aclumask a,,b+r=9 at 9
aclumask -w a,,b+r=9 at 12
multiuser auto=9 at 10
encoding utf16=9 at 9
split x=9 at 6
detach 1=3 at 7
title 漢字 x=3 at 13
aclchg ann,bob +r-wx=2 at 20
aclumask ann+r ann,,bob-w=9 at 15
title 'one two=6 at 6
acladd ann x=3 at 11
aclchg ann +r 1 x=3 at 16
acldel ann x=3 at 11
aclgrp ann bob x=3 at 15
aclumask ann+r x=5 at 15
writelock on x=3 at 13
writelock auto x=3 at 15
writelock off x=3 at 14
defwritelock on x=3 at 16
multiuser on x=3 at 13
wall a x=3 at 7
detach x=3 at 7
select 1 x=3 at 9
next x=3 at 5
prev x=3 at 5
other x=3 at 6
title a x=3 at 8
number 1 x=3 at 9
kill x=3 at 5
screen x=3 at 7
split -v x=3 at 9
focus x=3 at 6
remove x=3 at 7
only x=3 at 5
fit x=3 at 4
scrollview 1 x=3 at 13
clear x=3 at 6
reset x=3 at 6
encoding utf8 x=3 at 14
stuff a x=3 at 8
windows x=3 at 8
displays x=3 at 9
quit x=3 at 5
acladd=2 at 6
aclchg ann +r=2 at 13
acldel=2 at 6
writelock=2 at 9
defwritelock=2 at 12
multiuser=2 at 9
wall=2 at 4
select=2 at 6
title=2 at 5
number=2 at 6
scrollview=2 at 10
encoding=2 at 8
stuff=2 at 5
title 'a'"\102"=title aB= window
title a\"b=title "a\"b"= window
acladd ann,bob=acladd ann,bob= multiuser
addacl *=acladd *= multiuser
aclchg bob -w+w #,?,"two words"=aclchg bob -w+w "#,?,two words"= multiuser
chacl * +r+w-x 2=aclchg * +rw-x 2= multiuser
acldel bob=acldel bob= multiuser
aclgrp bob=aclgrp bob= multiuser
aclgrp bob none=aclgrp bob none= multiuser
aclumask bob-w ?+r ??-x=aclumask bob-w ?+r ??-x= multiuser
umask -rwx *+r=aclumask -rwx *+r= multiuser
writelock auto=writelock auto= window write lock
defwritelock off=defwritelock off=
multiuser on=multiuser on=
wall ''=wall ""=
detach=detach= client
select one=select one= client
next=next= client
prev=prev= client
other=other= client
title 漢=title "漢"= window
number 007=number 7= window
kill=kill= window
screen=screen=
split=split= client
split -v=split -v= client
focus=focus= client
remove=remove= client
only=only= client
fit=fit= client window
scrollview 2000=scrollview 2000= client
clear=clear= window
reset=reset= window
encoding ecma35=encoding ecma35= window
stuff \015\200\'=stuff "\015200'"= window write lock
windows=windows=
displays=displays=
 quit =quit=
acladd 'ann',bob=acladd ann,bob= multiuser
aclchg ann,bob +r-wx 1,"two words"=aclchg ann,bob +r-wx "1,two words"= multiuser
aclumask ann,bob-w=aclumask ann,bob-w= multiuser
writelock on=writelock on= window write lock
writelock off=writelock off= window lock"##;

/// Whether a command needs exactly what these words name.
fn are(needs: Needs, words: &str) -> bool {
    needs.multiuser == words.contains(" multiuser")
        && needs.client == words.contains(" client")
        && needs.window == words.contains(" window")
        && needs.write == words.contains(" write")
        && needs.lock == words.contains(" lock")
}

/// Whether a command is printed as this text, and has these needs.
fn is_printed(alloc: Global, command: &Command, want: &str) -> Result<bool, AllocError> {
    let Some((line, needs)) = want.split_once('=') else {
        return Ok(false);
    };
    let printed = print(alloc, command)?;
    Ok(printed.as_str() == line && are(needs_of(command), needs))
}

pub fn is_command(alloc: Global, command: Command, want: &str) -> Result<bool, AllocError> {
    is_printed(alloc, &command, want)
}

/// Whether a fault has this number and place.
fn is_fault(alloc: Global, fault: ParseFault, want: &str) -> Result<bool, AllocError> {
    let number = fault.number();
    let place = fault.place();
    if number == 8 && place == 0 {
        return Err(AllocError);
    }
    let told = format!(in alloc; "{number} at {place}")?;
    Ok(told.as_str() == want)
}

fn is_answered(alloc: Global, line: &[u8], want: &str) -> Result<bool, AllocError> {
    match parse(alloc, line) {
        Ok(command) => is_command(alloc, command, want),
        Err(fault) => is_fault(alloc, fault, want),
    }
}

/// Whether a line has this answer. Asks again if memory is refused.
fn is_answered_at_last(alloc: Global, line: &[u8], want: &str) -> bool {
    match is_answered(alloc, line, want) {
        Ok(is_so) => is_so,
        Err(_) => is_answered(alloc, line, want) == Ok(true),
    }
}

/// The first row whose line has another answer.
fn first_wrong(alloc: Global) -> Option<usize> {
    for (number, row) in ROWS.lines().enumerate() {
        let Some((line, want)) = row.split_once('=') else {
            return Some(number);
        };
        if !is_answered_at_last(alloc, line.as_bytes(), want) {
            return Some(number);
        }
    }
    None
}

/// Tests each command and alias, and each fault. With each allocation refused in turn
/// (`tools/refusals`), a refused call says so, hides no fault, and does its work at the next call.
#[test]
fn lines_are_answered_though_refused_once(rt: HostRuntime) {
    assert_eq!(rt; first_wrong(rt.alloc()), None);
}

const CONTROL: &str = "title '\"\\\u{7F}\u{6F22}'";

const CONTROL_PRINTED: &str = "title \"\\\"\\\\\\177\u{6F22}\"= window";

/// Tests a control character, and the longest line with one byte more.
#[test]
fn odd_lines_are_answered_though_refused_once(rt: HostRuntime) {
    assert!(rt;
        is_answered_at_last(rt.alloc(), CONTROL.as_bytes(), CONTROL_PRINTED)
            && is_answered_at_last(rt.alloc(), &[b' '; 1025], "7 at 1024")
    );
}

const WINDOW: Object = Object::Window(0);

/// Sets bob's r on window 0 this many times, by a line of 1,024 changes for each of its objects.
/// Tries again if memory is refused.
fn set_often(stage: &mut ListStage, value: bool, objects: &[Object]) -> Result<(), AclFault> {
    let changes = [BitChange {
        bit: Bit::Read,
        value,
    }; 1024];
    let change = RightsChange {
        names: &[user(TestUser::Bob)],
        changes: &changes,
        objects,
    };
    match stage
        .acl
        .change(change, &mut stage.acts, 0, &mut stage.locks)
    {
        Err(NoMemory) => stage
            .acl
            .change(change, &mut stage.acts, 0, &mut stage.locks),
        answer => answer,
    }
}

/// Whether a line of this many acts is refused and leaves bob's right as it was.
fn is_refused(stage: &mut ListStage, value: bool, objects: &[Object], want: Want) -> bool {
    let count = stage.acts.len();
    set_often(stage, value, objects) == Err(NoMemory)
        && stage.acts.len() == count
        && stage.answers(TestUser::Bob, Bit::Read, WINDOW, want)
}

/// Whether a step does at most 65,536 acts of list commands.
fn is_bounded(alloc: Global) -> bool {
    let Some(mut stage) = ListStage::new(alloc, Edition::Second) else {
        return false;
    };
    stage.acts.clear();
    is_refused(&mut stage, false, &[WINDOW; 65], Want::Passes)
        && set_often(&mut stage, false, &[WINDOW; 64]).is_ok()
        && stage.acts.len() == 65_536
        && is_refused(&mut stage, true, &[WINDOW], Want::NoEntry)
}

#[test]
fn steps_file_65536_acts_at_most_though_refused_once(rt: HostRuntime) {
    assert!(rt; is_bounded(rt.alloc()));
}
