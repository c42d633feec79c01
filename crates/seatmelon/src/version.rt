//! What the program says of its version.
use seatmelon_text::PROGRAM;
use std::path::PathBuf;
use std::rt::Files;
use std::{env, fs, io};

// The file with the commit, from the folder that the program's own folder stands in.
const COMMIT_FILE: &str = "share/seatmelon/commit";

// The file beside the program in which its installation names the commit.
fn commit_path<R: AllocGlobal + Files>(rt: &R) -> Option<PathBuf> {
    let program = env::current_exe(rt).ok()?;
    let folder = program.parent()?.parent()?;
    folder.join(rt.alloc(), COMMIT_FILE).ok()
}

// The commit that the program was built from, where its installation names one.
fn commit<R: AllocGlobal + Files>(rt: &R) -> Option<String> {
    let text = fs::read_to_string(rt, commit_path(rt)?).ok()?;
    String::from_str(rt.alloc(), text.lines().next()?).ok()
}

/// Writes the version, the sum of the logic, and the commit, on standard output.
pub fn write_version<R: AllocGlobal + Files + Print>(rt: &R) -> io::Result<()> {
    match commit(rt) {
        Some(commit) => println!(rt; "{PROGRAM}\ncommit {commit}"),
        None => println!(rt; "{PROGRAM}\ncommit not recorded"),
    }
}
