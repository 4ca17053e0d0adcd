//! A file to which a trail is written, and its making.

ghost use Rattle.std.specs.Prelude.{◌≡◌, IfOk};
ghost use Rattle.std.specs.Io.KnownBytes.{Keeps};

use std::fs::{self, File, OpenOptions};
use std::io::{self, Write};
use std::os::unix::fs::OpenOptionsExt;
use std::rt::HostRuntime;

/// A file to which a trail is written. Only a call of `sync` shows what came of one.
pub trait TrailFile: Write {
    ghost use Rattle.std.specs.Prelude.{Result};
    ghost use Rattle.std.specs.declared.io.Error.{Error as Refusal};

    // The file, what came of its sync, and the file after that.
    ghost syncs: { Self → Result (Unit {0}) Refusal → Self → Type 0 } = { λ _ _ _. Unit {0} };

    /// Brings everything that was written to the disk.
    fn sync(&mut self) -> io::Result<()>
        ensures bytes { Keeps (Self.contents self.old) (Self.contents self.new) }
        ensures synced { syncs self.old result self.new };
}

impl TrailFile for File {
    fn sync(&mut self) -> io::Result<()> {
        self.sync_data()
    }
}

/// Shows that a server never said that it is ready, and won't.
pub trait NeverReady {}

/// A file that was made. Only its making gives this, which alone can remove the file.
#[derive(Drop)]
pub struct MadeFile<'a> {
    files: HostRuntime,
    path: &'a str,
}

impl<'a> MadeFile<'a> {
    pub fn path(&self) -> &'a str
        ensures { result.now ≡ self.now.path.now }
    {
        self.path
    }

    pub fn open(&self) -> io::Result<File> {
        fs::open(&self.files, self.path)
    }

    /// Removes the file of a trail that never begins.
    pub fn unmake(self) {
        let _ = fs::remove_file(&self.files, self.path);
    }

    /// Removes the file of a server that was never ready.
    pub fn remove(&self, _server: &impl NeverReady) {
        let _ = fs::remove_file(&self.files, self.path);
    }
}

/// Makes files. Only a call of `make` shows how a file was made.
pub trait FileMaker {
    ghost use Rattle.std.specs.Prelude.{ℕ, List};
    ghost use Rattle.std.specs.declared.fs.File.{File as Made};
    ghost use Rattle.std.specs.declared.fs.OpenOptions.{OpenOptions as Options};

    // The path, how the file is opened, its permissions, and the file.
    ghost makes: { Self → List ℕ → Options → ℕ → Made → Type 0 };

    fn make<'a>(
        &self,
        path: &'a str,
        options: OpenOptions,
        mode: u32,
    ) -> io::Result<(File, MadeFile<'a>)>
        ensures made { IfOk result (λ made. makes self.now path.entry.now options mode made.0) }
        ensures path { IfOk result (λ made. made.1.path.now ≡ path.entry.now) };
}

impl FileMaker for HostRuntime {
    ghost makes = { λ files path options mode file. Unit {0} };

    fn make<'a>(
        &self,
        path: &'a str,
        mut options: OpenOptions,
        mode: u32,
    ) -> io::Result<(File, MadeFile<'a>)> {
        let file = options.mode(mode).open(self, path)?;
        let files = *self;
        Ok((file, MadeFile { files, path }))
    }
}
