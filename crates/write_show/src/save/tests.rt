use crate::save::save;
use std::alloc::{Allocator, Global};
use std::cell::Cell;
use std::fs::{Metadata, OpenFile, OpenOptions};
use std::io;
use std::io::{ErrorKind, Read, Seek, SeekFrom, Write};
use std::rt::Files;
use std::test::Fail;

// What fails, in turn.
#[derive(Clone, Copy, PartialEq, Eq)]
enum Step {
    Make,
    Write,
    Sync,
    Move,
    // nothing
    Done,
}

// A folder that may have the files `show` and `show.part`, and where a step fails.
#[derive(Drop)]
struct Folder {
    heap: Global,
    fails: Step,
    removes: bool,
    has_part: Cell<bool>,
    has_show: Cell<bool>,
}

// A file of a folder, with room for so many bytes.
#[derive(Drop)]
struct Opened {
    fails: Step,
    room: usize,
}

// The bytes that are written.
const BYTES: [u8; 40] = [7; 40];

impl Write for Opened {
    // ten bytes at a time
    fn write(&mut self, buf: &[u8]) -> io::Result<usize> {
        if self.room == 0 {
            return Err(ErrorKind::StorageFull.into());
        }
        let count = buf.len().min(10);
        self.room = self.room.saturating_sub(count);
        Ok(count)
    }

    fn flush(&mut self) -> io::Result<()> {
        Ok(())
    }
}

impl Read for Opened {
    fn read(&mut self, _buf: &mut [u8]) -> io::Result<usize> {
        Err(ErrorKind::Unsupported.into())
    }
}

impl Seek for Opened {
    fn seek(&mut self, _to: SeekFrom) -> io::Result<u64> {
        Err(ErrorKind::Unsupported.into())
    }
}

impl OpenFile for Opened {
    fn metadata(&self) -> io::Result<Metadata> {
        Err(ErrorKind::Unsupported.into())
    }

    fn set_len(&self, _size: u64) -> io::Result<()> {
        Err(ErrorKind::Unsupported.into())
    }

    fn sync_all(&self) -> io::Result<()> {
        if self.fails == Step::Sync {
            return Err(ErrorKind::QuotaExceeded.into());
        }
        Ok(())
    }

    fn sync_data(&self) -> io::Result<()> {
        Err(ErrorKind::Unsupported.into())
    }
}

impl Alloc for Folder {
    type A = Global;

    fn alloc(&self) -> Global {
        self.heap
    }
}

impl Files for Folder {
    type File = Opened;

    type Dir = Opened;

    fn open_file(&self, how: &OpenOptions, path: &str) -> io::Result<Opened> {
        if path != "show.part" || !how.asks_create_new() {
            return Err(ErrorKind::Unsupported.into());
        }
        if self.has_part.get() {
            return Err(ErrorKind::AlreadyExists.into());
        }
        self.has_part.set(true);
        let room = if self.fails == Step::Write { 30 } else { 1000 };
        Ok(Opened {
            fails: self.fails,
            room,
        })
    }

    fn rename(&self, from: &str, to: &str) -> io::Result<()> {
        if from != "show.part" || to != "show" || self.fails == Step::Move {
            return Err(ErrorKind::IsADirectory.into());
        }
        self.has_part.set(false);
        self.has_show.set(true);
        Ok(())
    }

    fn remove_file(&self, path: &str) -> io::Result<()> {
        if path != "show.part" || !self.removes {
            return Err(ErrorKind::PermissionDenied.into());
        }
        self.has_part.set(false);
        Ok(())
    }

    fn open_dir(&self, _path: &str) -> io::Result<Opened> {
        Err(ErrorKind::Unsupported.into())
    }

    fn metadata(&self, _path: &str) -> io::Result<Metadata> {
        Err(ErrorKind::NotFound.into())
    }

    fn symlink_metadata(&self, _path: &str) -> io::Result<Metadata> {
        Err(ErrorKind::Unsupported.into())
    }

    fn copy(&self, _from: &str, _to: &str) -> io::Result<u64> {
        Err(ErrorKind::Unsupported.into())
    }

    fn create_dir(&self, _path: &str) -> io::Result<()> {
        Err(ErrorKind::Unsupported.into())
    }

    fn remove_dir(&self, _path: &str) -> io::Result<()> {
        Err(ErrorKind::Unsupported.into())
    }

    fn remove_dir_all<B: Allocator>(&self, _alloc: B, _path: &str) -> io::Result<()> {
        Err(ErrorKind::Unsupported.into())
    }
}

// What is told of a file that is saved where this fails, and which files are then there.
fn told(heap: Global, fails: Step, removes: bool) -> Result<(String, bool, bool), Fail> {
    let folder = Folder {
        heap,
        fails,
        removes,
        has_part: Cell::new(fails == Step::Make),
        has_show: Cell::new(false),
    };
    let text = match save(&folder, String::from_str(heap, "show")?, &BYTES) {
        Ok(()) => String::from_str(heap, "saved")?,
        Err(failure) => format!(in heap; "{failure}")?,
    };
    Ok((text, folder.has_part.get(), folder.has_show.get()))
}

#[test]
fn whole_or_not_at_all(rt: HostRuntime) -> Result<(), Fail> {
    for (fails, says, has_part) in [
        (Step::Make, "show.part: entity already exists", true),
        (Step::Write, "show.part: no storage space", false),
        (Step::Sync, "show.part: quota exceeded", false),
        (Step::Move, "show: is a directory", false),
        (Step::Done, "saved", false),
    ] {
        let (text, part, show) = told(rt.alloc(), fails, true)?;
        assert_eq!(rt; text.as_str(), says);
        assert_eq!(rt; part, has_part, "at {says}");
        assert_eq!(rt; show, fails == Step::Done, "at {says}");
    }
    Ok(())
}

#[test]
fn what_is_left_is_told(rt: HostRuntime) -> Result<(), Fail> {
    let (text, part, show) = told(rt.alloc(), Step::Move, false)?;
    let says =
        "show.part cannot be written and moved: is a directory; it is left: permission denied";
    assert_eq!(rt; text.as_str(), says);
    assert!(rt; part && !show);
    Ok(())
}
