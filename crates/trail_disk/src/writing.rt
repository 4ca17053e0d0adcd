//! One write to a trail's file. Only what stands here says that it was refused.

ghost use Rattle.std.specs.Prelude.{◌≤◌, ◌<◌, [], IfOk, OnErr, length, take};
ghost use Rattle.std.specs.Io.KnownBytes.{Appends};

use std::io::Write;

/// Shows that a file took nothing of a write.
#[derive(Drop)]
pub struct Refused(());

/// Writes once. The answer is how many of the bytes were taken, or that none was.
pub fn write_some<F: Write>(file: &mut F, bytes: &[u8]) -> Result<usize, Refused>
    requires { 0 < length bytes.now }
    ensures bound { IfOk result (λ count. count ≤ length bytes.now) }
    ensures writes { IfOk result (λ count. Appends (F.contents file.old) (F.contents file.new)
        (take count bytes.now)) }
    ensures refused { OnErr result (Appends (F.contents file.old) (F.contents file.new) []) }
{
    match file.write(bytes).unwrap_or(0) {
        0 => Err(Refused(())),
        count => Ok(count),
    }
}
