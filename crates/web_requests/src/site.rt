//! What a bridge serves: files that were read when it began, and who may ask for them.

ghost use Rattle.std.specs.Prelude.{◌≡◌, ◌++◌, ◌∷◌, [], OnOk, OnErr, option_copied};
ghost use Rattle.web_requests.specs.Serving.{kind_of, path_of, file_at, lets_in};
ghost use Rattle.std.specs.String.{string_bytes};
ghost use Rattle.web_requests.specs.declared.site.SiteFile.{SiteFile};

use attach_proto::Token;
use std::alloc::AllocError;

/// A file of the page. Its path is the one that asks for it.
#[derive(Drop)]
pub struct SiteFile {
    pub path: String,
    pub kind: &'static str,
    pub content: Vec<u8>,
}

/// What is served, and to pages of which origins.
#[derive(Drop)]
pub struct Site {
    pub files: Vec<SiteFile>,
    pub origins: Vec<String>,
    /// The user as whom anybody may watch, if there is one.
    pub watcher: Option<Watcher>,
}

/// A user as whom anybody may watch.
#[derive(Drop)]
pub struct Watcher {
    pub name: String,
    pub token: Token,
}

/// The kind of a file, by its name.
#[tactic(auto, unfolding(crate::specs::Serving::kind_of))]
fn kind_of(path: &[u8]) -> &'static str
    ensures { result.now ≡ kind_of path.now }
{
    if path.ends_with(b".html") {
        "text/html; charset=utf-8"
    } else if path.ends_with(b".js") {
        "text/javascript; charset=utf-8"
    } else if path.ends_with(b".css") {
        "text/css; charset=utf-8"
    } else {
        "application/octet-stream"
    }
}

/// The path of the file that a path asks for.
fn path_of(path: &[u8]) -> &[u8]
    ensures { result.now ≡ path_of path.now }
{
    if path == b"/".as_slice() {
        b"/index.html".as_slice()
    } else {
        path
    }
}

impl Site {
    /// Adds a file.
    pub fn add(&mut self, path: String, content: Vec<u8>) -> Result<(), AllocError>
        ensures ok { OnOk result ((f : SiteFile) × (f.path ≡ path) × (f.kind.now ≡ kind_of (string_bytes path))
            × (f.content ≡ content) × (self.new.files.items ≡ self.old.files.items ++ f ∷ [])) }
        ensures err { OnErr result (self.new.files.items ≡ self.old.files.items) }
        ensures origins { self.new.origins ≡ self.old.origins }
        ensures watcher { self.new.watcher ≡ self.old.watcher }
    {
        let kind = kind_of(path.as_bytes());
        self.files.push(SiteFile {
            path,
            kind,
            content,
        })?;
        Ok(())
    }

    /// The file that a path asks for: one of those that were read, and no other.
    pub fn file(&self, path: &[u8]) -> Option<&SiteFile>
        ensures { option_copied result ≡ file_at self.now.files.items path.now }
    {
        let path = path_of(path);
        self.files.iter().find(|it| it.path.as_bytes() == path)
    }

    /// Whether pages of this origin may speak with the bridge.
    pub fn lets_in(&self, origin: &[u8]) -> bool
        ensures { result ≡ lets_in self.now origin.now }
    {
        self.origins.iter().any(|it| it.as_bytes() == origin)
    }
}
