//! Which parameter files are named.
ghost use Rattle.std.specs.Prelude.{◌≡◌, ◌≤◌, length};

use seatmelon_failures::{DeviceFailure, InputFailure, WordsFailure, WordsOrMemory, unread};
use std::alloc::Global;
use std::fs::DirEntry;
use std::rt::Files;
use std::{fs, io};

/// The most parameter files of an audit.
pub const MOST_FILES: usize = 4096;

// How a parameter file of a folder is called.
const EXTENSION: &str = "toml";

/// How a parameter file was named.
#[derive(Clone, Copy, PartialEq, Eq)]
pub enum Origin {
    /// By itself.
    Named,

    /// By its folder.
    Folder,
}

/// The paths of parameter files, in their order: at most 4,096.
#[derive(Drop)]
pub struct ParameterFiles {
    names: Vec<String>,

    // How each of them was named.
    origins: Vec<Origin>,
    ghost many: { length names.items ≤ 4096 },
}

impl ParameterFiles {
    ghost use Rattle.seatmelon_many.specs.Files.{count_in};

    fn new(alloc: Global) -> ParameterFiles {
        ParameterFiles {
            names: Vec::new(alloc),
            origins: Vec::new(alloc),
        }
    }

    /// Their paths.
    pub fn names(&self) -> &[String]
        ensures { length result.now ≡ count_in self.now }
    {
        self.names.as_slice()
    }

    /// How the file at this place was named.
    pub fn origin(&self, place: usize) -> Origin {
        match self.origins.get(place) {
            Some(origin) => *origin,
            None => Origin::Named,
        }
    }

    // Adds the file of that path, which was named so.
    fn add(&mut self, path: String, origin: Origin) -> Result<(), WordsOrMemory> {
        if self.names.len() == MOST_FILES {
            return Err(WordsFailure::TooManyFiles { most: MOST_FILES }.into());
        }
        match (self.origins.push(origin), self.names.push(path)) {
            (Ok(()), Ok(())) => Ok(()),
            _ => Err(WordsOrMemory::OutOfMemory),
        }
    }
}

// Whether there is a folder at this path.
fn is_folder<R: Files>(rt: &R, path: &str) -> bool {
    match fs::metadata(rt, path) {
        Ok(metadata) => metadata.is_dir(),
        Err(_) => false,
    }
}

// Whether a file of this name is hidden, as the locks and the copies that editors leave beside a file.
fn is_hidden(name: &str) -> bool {
    name.starts_with('.')
}

// Whether an entry of a folder is a parameter file, by its name.
fn is_parameter_file<R: Files>(rt: &R, entry: &DirEntry<R, Global>) -> bool {
    !is_hidden(entry.file_name())
        && entry.path().extension() == Some(EXTENSION)
        && !is_folder(rt, entry.path().as_str())
}

// The paths of the parameter files of a folder, in the order of their names.
fn paths_in<R: AllocGlobal + Files + Clone + Drop>(
    rt: &R,
    folder: &str,
) -> io::Result<Vec<String>> {
    let mut paths = Vec::new(rt.alloc());
    for entry in fs::read_dir(rt, folder)? {
        let entry = entry?;
        if is_parameter_file(rt, &entry) {
            paths.push(String::from_str(rt.alloc(), entry.path().as_str())?)?;
        }
    }
    paths.sort_unstable();
    Ok(paths)
}

// That a folder has no parameter file.
fn no_files(alloc: Global, folder: &str) -> WordsOrMemory {
    match String::from_str(alloc, folder) {
        Ok(path) => WordsFailure::NoFiles { path }.into(),
        Err(error) => error.into(),
    }
}

// Why a folder's files aren't known.
fn unlisted(alloc: Global, folder: &str, error: io::Error) -> DeviceFailure {
    match error.kind() {
        io::ErrorKind::OutOfMemory => DeviceFailure::OutOfMemory,
        _ => unread(alloc, folder, Some(error)),
    }
}

// Adds the parameter files of a folder.
fn add_folder<R: AllocGlobal + Files + Clone + Drop>(
    rt: &R,
    folder: &str,
    files: &mut ParameterFiles,
) -> Result<(), InputFailure> {
    let paths = match paths_in(rt, folder) {
        Ok(paths) => paths,
        Err(error) => return Err(unlisted(rt.alloc(), folder, error).into()),
    };
    if paths.is_empty() {
        return Err(no_files(rt.alloc(), folder).into());
    }
    for path in paths {
        files.add(path, Origin::Folder)?;
    }
    Ok(())
}

/// The parameter files that these paths name: a file names itself, and a folder those of its files whose names end in
/// `.toml` and don't begin with a dot, in the order of their names.
pub fn parameter_files<R: AllocGlobal + Files + Clone + Drop>(
    rt: &R,
    paths: &[&str],
) -> Result<ParameterFiles, InputFailure> {
    let mut files = ParameterFiles::new(rt.alloc());
    for path in paths {
        if is_folder(rt, path) {
            add_folder(rt, path, &mut files)?;
        } else {
            files.add(String::from_str(rt.alloc(), path)?, Origin::Named)?;
        }
    }
    Ok(files)
}
