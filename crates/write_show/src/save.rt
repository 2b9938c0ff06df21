use crate::failure::Failure;
use std::fs::{File, OpenFile};
use std::io::{ErrorKind, Write};
use std::rt::Files;
use std::{fs, io};

#[cfg(test)]
mod tests;

/// Writes a file whole, or not at all: the bytes go into a new file beside it, of the same name
/// with `.part` behind, which then takes its place, also that of a link. Fails where a device or
/// such stands in that place, where there is a file of the new name already, which stays, and where
/// the new file cannot be made, written or moved, and is then removed.
pub fn save<R: Files + AllocGlobal>(rt: &R, path: String, bytes: &[u8]) -> Result<(), Failure> {
    let part = format!(in rt.alloc(); "{path}.part")?;
    if is_special(rt, path.as_str()) {
        let reason = io::Error::new(ErrorKind::InvalidInput, "not a file");
        return Err(Failure::File { file: path, reason });
    }
    let made = match File::create_new(rt, part.as_str()) {
        Ok(made) => made,
        Err(reason) => return Err(Failure::File { file: part, reason }),
    };
    let (at, reason) = match fill(made, bytes) {
        Ok(()) => match fs::rename(rt, part.as_str(), path.as_str()) {
            Ok(()) => return Ok(()),
            Err(reason) => (Some(path), reason),
        },
        Err(reason) => (None, reason),
    };
    match fs::remove_file(rt, part.as_str()) {
        Ok(()) => Err(Failure::File {
            file: at.unwrap_or(part),
            reason,
        }),
        Err(removal) => Err(Failure::Left {
            file: part,
            reason,
            removal,
        }),
    }
}

// Whether a path leads to what is neither a file nor a folder, as a device.
fn is_special(rt: &impl Files, path: &str) -> bool {
    fs::metadata(rt, path).is_ok_and(|found| !found.is_file() && !found.is_dir())
}

// Writes all bytes into a new file, and has the system keep them.
fn fill<F: Write + OpenFile + Drop>(mut file: F, bytes: &[u8]) -> io::Result<()> {
    file.write_all(bytes)?;
    file.sync_all()
}
