//! The page that browsers get, and how files are read before the bridge begins.

ghost use Rattle.std.specs.Prelude.{◌≡◌, ◌++◌, ◌∷◌, [], IfErr, IfOk, OnOk, map};
ghost use Rattle.std.specs.String.{string_bytes};
ghost use Rattle.web_options.specs.Asking.{CantRead, CantServe, IsFolder, IsRead, Serves, text_of};
ghost use Rattle.web_requests.specs.declared.site.SiteFile.{SiteFile};

use crate::fault::WebFault;
use crate::options::WebOptions;
use crate::watching::watcher_of;
use program_words::SystemError;
use std::alloc::AllocGlobal;
use std::fs::{File, Files};
use std::{env, fs, io};
use web_requests::Site;

/// What reads files. Each relation is shown by a call of its function alone.
pub trait ReadsFiles {
    ghost use Rattle.std.specs.Prelude.{ℕ, List, Bool, Result, Ok, Err, IfOk, IfErr};
    ghost use Rattle.std.specs.String.{string_bytes};
    ghost use Rattle.std.specs.declared.io.Error.{Error};

    // A path, and what was read there, or why nothing was.
    ghost reads: { Self → List ℕ → Result (List ℕ) Error → Type 0 };

    // A path, and whether something else than a socket has it, or why that isn't known.
    ghost is_other: { Self → List ℕ → Result Bool Error → Type 0 };

    // The folder of the page beside the program's, or why it isn't known.
    ghost lies: { Self → Result (List ℕ) Error → Type 0 };

    /// Reads the file at this path.
    fn read_file(&self, path: &str) -> io::Result<Vec<u8>>
        ensures ok { IfOk result (λ content. reads self.now path.now (Ok content.items)) }
        ensures err { IfErr result (λ error. reads self.now path.now (Err error)) };

    /// Whether something else than a socket has this path.
    fn is_other(&self, path: &str) -> io::Result<bool>
        ensures { is_other self.now path.now result };

    /// The folder of the page beside that of the program: PREFIX/share/mux/web beside PREFIX/bin/mux-web.
    fn folder_beside(&self) -> io::Result<String>
        ensures ok { IfOk result (λ folder. lies self.now (Ok (string_bytes folder))) }
        ensures err { IfErr result (λ error. lies self.now (Err error)) };
}

// The path before its last slash.
fn before_slash(path: &str) -> &str {
    match path.rfind('/') {
        Some(place) => path.get(..place).unwrap_or(""),
        None => "",
    }
}

impl<R: Files<File = File> + AllocGlobal> ReadsFiles for R {
    ghost reads = { λ host path content. Unit {0} };

    ghost is_other = { λ host path other. Unit {0} };

    ghost lies = { λ host folder. Unit {0} };

    fn read_file(&self, path: &str) -> io::Result<Vec<u8>> {
        fs::read(self, path)
    }

    fn is_other(&self, path: &str) -> io::Result<bool> {
        let found = fs::metadata(self, path)?;
        Ok(found.is_file() || found.is_dir())
    }

    fn folder_beside(&self) -> io::Result<String> {
        let program = env::current_exe(self)?;
        let prefix = before_slash(before_slash(program.to_str().unwrap_or("")));
        Ok(format!(in self.alloc(); "{prefix}/share/mux/web")?)
    }
}

/// The folder of the page: the one that the arguments name, or the one beside the program.
fn folder_of<R: ReadsFiles + AllocGlobal>(
    rt: &R,
    options: WebOptions<'_>,
) -> Result<String, WebFault>
    ensures ok { IfOk result (λ folder. IsFolder (R.lies rt.now) (text_of options.entry.page) (string_bytes folder)) }
    ensures fault { IfErr result (CantRead (R.reads rt.now) (R.lies rt.now)) }
{
    let alloc = rt.alloc();
    if let Some(folder) = options.page {
        return Ok(String::from_str(alloc, folder)?);
    }
    match rt.folder_beside() {
        Ok(folder) => Ok(folder),
        Err(error) => Err(WebFault::NoPage(
            String::from_str(alloc, "/proc/self/exe")?,
            SystemError(error),
        )),
    }
}

// Reads the file of the page that has this path.
fn read_file<R: ReadsFiles + AllocGlobal>(
    rt: &R,
    site: &mut Site,
    folder: &str,
    path: &str,
) -> Result<(), WebFault>
    ensures ok { OnOk result ((f : SiteFile) × (string_bytes f.path ≡ path.now) × IsRead (R.reads rt.now) folder.now f
        × (site.new.files.items ≡ site.old.files.items ++ f ∷ [])) }
    ensures fault { IfErr result (CantRead (R.reads rt.now) (R.lies rt.now)) }
    ensures same { site.new ≡ record site.old { files = site.new.files } }
{
    let alloc = rt.alloc();
    let place = format!(in alloc; "{folder}{path}")?;
    match rt.read_file(place.as_str()) {
        Ok(content) => Ok(site.add(String::from_str(alloc, path)?, content)?),
        Err(error) => Err(WebFault::NoPage(place, SystemError(error))),
    }
}

/// Reads all that the bridge serves.
pub fn site_of<R: ReadsFiles + AllocGlobal>(
    rt: &R,
    options: WebOptions<'_>,
    origins: Vec<String>,
) -> Result<Site, WebFault>
    ensures ok { IfOk result (Serves (R.reads rt.now) (R.lies rt.now) options.entry (map string_bytes origins.items)) }
    ensures fault { IfErr result (CantServe (R.reads rt.now) (R.lies rt.now) options.entry) }
{
    let mut site = Site {
        files: Vec::new(rt.alloc()),
        origins,
        watcher: watcher_of(rt, options)?,
    };
    let folder = folder_of(rt, options)?;
    let folder = folder.as_str();
    read_file(rt, &mut site, folder, "/index.html")?;
    read_file(rt, &mut site, folder, "/mux.js")?;
    read_file(rt, &mut site, folder, "/mux.css")?;
    Ok(site)
}
