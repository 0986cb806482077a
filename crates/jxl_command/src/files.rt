//! Which paths are of one file.

ghost use Rattle.std.specs.Prelude.{◌≡◌};
ghost use Rattle.jxl_command.specs.Files.{are_one as the_are_one};

use std::fs::{self, Metadata};
use std::os::unix::fs::MetadataExt;
use std::path::Path;
use std::rt::Files;

/// What the system knows a file or a directory by, whatever its names are.
#[derive(Clone, Copy)]
pub struct FileId {
    /// The device that it is on.
    pub device: u64,
    /// Its number there.
    pub inode: u64,
}

impl FileId {
    fn of(metadata: &Metadata) -> FileId {
        FileId {
            device: metadata.dev(),
            inode: metadata.ino(),
        }
    }
}

// Whether there are two, and they are the same.
fn are_one(first: Option<FileId>, second: Option<FileId>) -> bool
    ensures { result ≡ the_are_one first second }
{
    match (first, second) {
        (Some(first), Some(second)) => {
            first.device == second.device && first.inode == second.inode
        }
        _ => false,
    }
}

// The regular file of this path; none if there is no file, or it is a device or a pipe.
fn regular_file<R: Files>(files: &R, path: &str) -> Option<FileId> {
    match fs::metadata(files, path) {
        Ok(metadata) if metadata.is_file() => Some(FileId::of(&metadata)),
        _ => None,
    }
}

/// Whether both paths are of one regular file, by links or by other names of its directory.
pub fn is_same_file<R: Files>(files: &R, first: &str, second: &str) -> bool {
    are_one(regular_file(files, first), regular_file(files, second))
}

// The directory that the file of this path would be made in.
fn directory_of<R: Files>(files: &R, path: &str) -> Option<FileId> {
    let parent = match Path::new(path).parent() {
        Some(parent) if !parent.as_str().is_empty() => parent.as_str(),
        _ => ".",
    };
    match fs::metadata(files, parent) {
        Ok(metadata) => Some(FileId::of(&metadata)),
        Err(_) => None,
    }
}

// Whether both paths have the same last name.
fn has_same_name(first: &str, second: &str) -> bool {
    match (Path::new(first).file_name(), Path::new(second).file_name()) {
        (Some(first), Some(second)) => first == second,
        _ => false,
    }
}

/// Whether what is written to both paths goes to one regular file, which is there or is made.
pub fn is_same_output<R: Files>(files: &R, first: &str, second: &str) -> bool {
    if fs::metadata(files, first).is_ok() || fs::metadata(files, second).is_ok() {
        return is_same_file(files, first, second);
    }
    has_same_name(first, second) && are_one(directory_of(files, first), directory_of(files, second))
}
