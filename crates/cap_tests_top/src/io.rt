//! The outside: files and a writer of the system, and those in memory, each with faults.

use cap_io::{FetchError, FileShelf, MemoryShelf, MemorySink, Shelf, Sink, StdSink};
use std::alloc::{AllocError, Allocator, Global};
use std::fs::{File, Metadata, OpenFile, OpenOptions};
use std::io::{ErrorKind, Read, Seek, SeekFrom, Write};
use std::rt::Files;
use std::test::Fail;
use std::{fs, io};

#[test]
fn files_of_the_system(rt: HostRuntime) -> Result<(), Fail> {
    fs::write(&rt, "here", "ab")?;
    fs::create_dir(&rt, "folder")?;
    File::create(&rt, "long")?.set_len(67_108_865)?;
    let mut shelf = FileShelf::new(rt.alloc(), &rt);
    match shelf.fetch("here") {
        Ok(bytes) => assert_eq!(rt; bytes.as_slice(), b"ab".as_slice()),
        Err(error) => assert_eq!(rt; Some(error), None),
    }
    for (name, error) in [
        ("long", FetchError::TooLong(67_108_865)),
        ("absent", FetchError::Failed),
        ("folder", FetchError::Failed),
        ("", FetchError::Failed),
        ("here/", FetchError::Failed),
    ] {
        assert_eq!(rt; shelf.fetch(name).err(), Some(error), "at {name}");
    }
    Ok(())
}

fn unsupported() -> io::Error {
    io::Error::from(ErrorKind::Unsupported)
}

// A file that gives two bytes, is interrupted, gives a third byte, and then fails so or is at its
// end. It does nothing else.
#[derive(Drop)]
struct SlowFile {
    calls: u8,
    last: Option<ErrorKind>,
}

impl Read for SlowFile {
    fn read(&mut self, buffer: &mut [u8]) -> io::Result<usize> {
        self.calls = self.calls.saturating_add(1);
        match (self.calls, self.last) {
            (1, _) => "ab".as_bytes().read(buffer),
            (2, _) => Err(io::Error::from(ErrorKind::Interrupted)),
            (3, _) => "c".as_bytes().read(buffer),
            (_, Some(kind)) => Err(io::Error::from(kind)),
            (_, None) => Ok(0),
        }
    }
}

impl Write for SlowFile {
    fn write(&mut self, _bytes: &[u8]) -> io::Result<usize> {
        Err(unsupported())
    }

    fn flush(&mut self) -> io::Result<()> {
        Err(unsupported())
    }
}

impl Seek for SlowFile {
    fn seek(&mut self, _place: SeekFrom) -> io::Result<u64> {
        Err(unsupported())
    }
}

impl OpenFile for SlowFile {
    fn metadata(&self) -> io::Result<Metadata> {
        Err(unsupported())
    }

    fn set_len(&self, _size: u64) -> io::Result<()> {
        Err(unsupported())
    }

    fn sync_all(&self) -> io::Result<()> {
        Err(unsupported())
    }

    fn sync_data(&self) -> io::Result<()> {
        Err(unsupported())
    }
}

// Files that are slow, each of which fails so at last or is at its end. Nothing else is there.
#[derive(Drop)]
struct SlowFiles {
    last: Option<ErrorKind>,
}

impl Files for SlowFiles {
    type File = SlowFile;

    type Dir = SlowFile;

    fn open_file(&self, _how: &OpenOptions, _path: &str) -> io::Result<SlowFile> {
        Ok(SlowFile {
            calls: 0,
            last: self.last,
        })
    }

    fn open_dir(&self, _path: &str) -> io::Result<SlowFile> {
        Err(unsupported())
    }

    fn metadata(&self, _path: &str) -> io::Result<Metadata> {
        Err(unsupported())
    }

    fn symlink_metadata(&self, _path: &str) -> io::Result<Metadata> {
        Err(unsupported())
    }

    fn copy(&self, _from: &str, _to: &str) -> io::Result<u64> {
        Err(unsupported())
    }

    fn rename(&self, _from: &str, _to: &str) -> io::Result<()> {
        Err(unsupported())
    }

    fn remove_file(&self, _path: &str) -> io::Result<()> {
        Err(unsupported())
    }

    fn create_dir(&self, _path: &str) -> io::Result<()> {
        Err(unsupported())
    }

    fn remove_dir(&self, _path: &str) -> io::Result<()> {
        Err(unsupported())
    }

    fn remove_dir_all<B: Allocator>(&self, _alloc: B, _path: &str) -> io::Result<()> {
        Err(unsupported())
    }
}

#[test]
fn reads_that_break_off(rt: HostRuntime) -> Result<(), Fail> {
    for (last, error) in [
        (None, None),
        (Some(ErrorKind::OutOfMemory), Some(FetchError::OutOfMemory)),
        (Some(ErrorKind::Other), Some(FetchError::Failed)),
    ] {
        let files = SlowFiles { last };
        match FileShelf::new(rt.alloc(), &files).fetch("slow") {
            Ok(bytes) => {
                assert_eq!(rt; error, None);
                assert_eq!(rt; bytes.as_slice(), b"abc".as_slice());
            }
            Err(found) => assert_eq!(rt; Some(found), error),
        }
    }
    Ok(())
}

// Takes two bytes, is interrupted, takes two bytes again, and then takes none.
#[derive(Drop)]
struct SlowWriter<'a> {
    held: &'a mut Vec<u8>,
    calls: u8,
}

impl<'a> Write for SlowWriter<'a> {
    fn write(&mut self, bytes: &[u8]) -> io::Result<usize> {
        self.calls = self.calls.saturating_add(1);
        match self.calls {
            1 | 3 => {
                let count = bytes.len().min(2);
                self.held.extend_from_slice(&bytes[..count])?;
                Ok(count)
            }
            2 => Err(io::Error::from(ErrorKind::Interrupted)),
            _ => Ok(0),
        }
    }

    fn flush(&mut self) -> io::Result<()> {
        Ok(())
    }
}

// Puts a text into a sink over a slow writer, and tells whether that succeeds.
fn is_put(held: &mut Vec<u8>, text: &str) -> bool {
    let mut sink = StdSink::new(SlowWriter { held, calls: 0 });
    sink.put(text.as_bytes()).is_ok()
}

#[test]
fn writes_that_break_off(rt: HostRuntime) -> Result<(), Fail> {
    for (text, is_ok, wanted) in [
        ("", true, ""),
        ("abc", true, "abc"),
        ("abcd", true, "abcd"),
        ("abcde", false, "abcd"),
    ] {
        let mut held = Vec::with_capacity(rt.alloc(), 4)?;
        assert_eq!(rt; is_put(&mut held, text), is_ok, "at {text}");
        assert_eq!(rt; held.as_slice(), wanted.as_bytes(), "at {text}");
    }
    Ok(())
}

#[test]
fn a_file_as_the_writer(rt: HostRuntime) -> Result<(), Fail> {
    let mut sink = StdSink::new(File::create(&rt, "written")?);
    for text in ["ab", "", "c"] {
        assert!(rt; sink.put(text.as_bytes()).is_ok(), "at {text}");
    }
    assert_eq!(rt; fs::read(&rt, "written")?.as_slice(), b"abc".as_slice());
    let mut full = StdSink::new(File::create(&rt, "/dev/full")?);
    assert!(rt; full.put(b"a").is_err());
    Ok(())
}

// Three files, two of them of one name. The second fetch fails.
fn shelf(alloc: Global) -> Result<MemoryShelf, AllocError> {
    let mut files = Vec::new(alloc);
    for (name, text) in [("twice", "first"), ("empty", ""), ("twice", "second")] {
        let bytes = Vec::from_slice(alloc, text.as_bytes())?;
        files.push((String::from_str(alloc, name)?, bytes))?;
    }
    Ok(MemoryShelf::new(files, vec![in alloc; 2]?))
}

#[test]
fn fetches_by_number(rt: HostRuntime) -> Result<(), Fail> {
    let mut shelf = shelf(rt.alloc())?;
    for (name, text) in [
        ("twice", Ok("first")),
        ("empty", Err(FetchError::Failed)),
        ("empty", Ok("")),
        ("absent", Err(FetchError::Absent)),
    ] {
        match shelf.fetch(name) {
            Ok(bytes) => assert_eq!(rt; Ok(bytes.as_slice()), text.map(|text| text.as_bytes())),
            Err(error) => assert_eq!(rt; Some(error), text.err()),
        }
    }
    Ok(())
}

#[test]
fn puts_by_number(rt: HostRuntime) -> Result<(), Fail> {
    let failing = vec![in rt.alloc(); (2u64, 3u64), (2, 1), (6, 9)]?;
    let mut sink = MemorySink::new(rt.alloc(), failing, 8)?;
    for (text, is_ok, written) in [
        ("ab", true, "ab"),
        ("cdef", false, "abcde"),
        ("", true, "abcde"),
        ("fgh", true, "abcdefgh"),
        ("i", false, "abcdefgh"),
        ("", false, "abcdefgh"),
    ] {
        assert_eq!(rt; sink.put(text.as_bytes()).is_ok(), is_ok, "at {text}");
        assert_eq!(rt; sink.bytes(), written.as_bytes(), "at {text}");
    }
    Ok(())
}
