//! The log of a file's entries, one after another.

ghost use Rattle.std.specs.Prelude.{◌≡◌, ◌++◌, List, [], None, IfErr, IfOk, OnOk};
ghost use Rattle.acl.specs.declared.leaders.Edition.{Edition};
ghost use Rattle.acl.specs.declared.user_id.UserId.{UserId};
ghost use Rattle.trail_lines.specs.Entries.{Said};
ghost use Rattle.trail_log.specs.Joining.{held_ms, held_text};
ghost use Rattle.trail_log.specs.Logging.{HasLogged, PrintsNext};

use crate::choice::Choice;
use crate::joining::{chosen_line, hold, push_held};
use crate::log_line::LogLine;
use crate::names::Names;
use acl::{Edition, UserId};
use std::alloc::{AllocError, Global};
use trail_lines::{Audit, Wrong};

/// Reads the lines of entries, judges the entries, and prints them for people. The last line is held
/// until the next one comes, since typed bytes are joined.
#[derive(Drop)]
pub struct LogWriter {
    audit: Audit,
    names: Names,
    held: Option<LogLine>,
}

impl LogWriter {
    /// Before the first line.
    pub fn new(alloc: Global, edition: Edition, owner: UserId) -> Result<LogWriter, AllocError>
        ensures logged { IfOk result (λ log. HasLogged log edition owner []) }
        ensures held { IfOk result (λ log. log.held ≡ None) }
    {
        let audit = Audit::new(alloc, edition, owner)?;
        Ok(LogWriter {
            audit,
            names: Names::new(alloc),
            held: None,
        })
    }

    /// How many entries were read.
    pub fn count(&self) -> u64
        ensures { result ≡ self.now.audit.next }
    {
        self.audit.count()
    }

    /// Takes the line of the next entry, without its line feed. If the entry is asked for, its line is
    /// held, and the line that was held is appended and its time returned; or the two are joined.
    /// After an `Err` the log takes no line; the line that was held before is held, and can be printed.
    pub fn take(
        &mut self,
        line: &[u8],
        choice: &Choice,
        out: &mut Vec<u8>,
    ) -> Result<Option<u64>, Wrong>
        ensures tells { (edition : Edition) (owner : UserId) (said : List Said) →
            HasLogged self.old edition owner said →
            PrintsNext result self.old self.new choice.now line.now out.old.items out.new.items
            edition owner said }
        ensures held { IfErr result (λ wrong. self.new.held ≡ self.old.held) }
    {
        let said = self.audit.take(line)?;
        let next = chosen_line(*out.allocator(), choice, &self.names, &said)?;
        self.names.take(&said)?;
        let ms = hold(&mut self.held, next, out)?;
        Ok(ms)
    }

    /// Appends the line that is held, if there is one, and returns its time in milliseconds since
    /// 1970. Nothing is joined to it any more. After an `Err` it is still held.
    pub fn end(&mut self, out: &mut Vec<u8>) -> Result<Option<u64>, AllocError>
        ensures text { OnOk result (out.new.items ≡ out.old.items ++ held_text self.old.held) }
        ensures ms { IfOk result (λ ms. ms ≡ held_ms self.old.held) }
        ensures held { OnOk result (self.new.held ≡ None) }
        ensures stays { IfErr result (λ refused. self.new ≡ self.old) }
        ensures logged { (edition : Edition) (owner : UserId) (said : List Said) →
            HasLogged self.old edition owner said → HasLogged self.new edition owner said }
    {
        let ms = push_held(&self.held, out)?;
        self.held = None;
        Ok(ms)
    }
}
