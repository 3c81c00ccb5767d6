// The system: each method is one call of it, but the lock's, of two, and the opening's, of three. What a call does
// is trusted: no clause says it. That it failed, or was interrupted, is counted.
ghost use Rattle.std.specs.Prelude.{◌≡◌, ◌≤◌, true, is_some, None, IfOk, Ok};
ghost use Rattle.dl_host.specs.Blind.{blind, held_where};
ghost use Rattle.dl_host.specs.Hosts.{count_after, is_fault, is_interruption, has_failed, was_interrupted, falls_short, with_faults};
ghost use Rattle.dl_host.specs.Laws.{lawful_counted, blind_lawful};

use dl_base::Area;
use dl_host::{Host, Reader, Stop, file_name};
use std::fs::{File, Files, Metadata, OpenOptions, TryLockError};
use std::io::{ErrorKind, Read, Write};
use std::os::fd::AsRawFd;
use std::os::unix::fs::{FileExt, MetadataExt};
use std::{fs, io};

/// An area's open file, which is locked until it is let go.
#[derive(Drop)]
pub struct AreaFile {
    area: Area,
    file: File,
}

/// The current folder, and standard output. It tells no content, and counts its faults and its interruptions.
#[derive(Drop)]
pub struct Machine<R: Files<File = File> + Print + Drop> {
    rt: R,
    // open from its lock on, for its syncs
    folder: Option<File>,
    counts: Counts,
}

/// How many calls failed, and how many were interrupted.
#[derive(Drop)]
struct Counts {
    faults: u64,
    interruptions: u64,
}

impl Counts {
    fn none() -> Counts
        ensures faults { result.faults ≡ 0 }
        ensures interruptions { result.interruptions ≡ 0 }
    {
        Counts {
            faults: 0,
            interruptions: 0,
        }
    }

    fn count_fault(&mut self)
        ensures faults { self.new.faults ≡ count_after true self.old.faults }
        ensures interruptions { self.new.interruptions ≡ self.old.interruptions }
        ensures later { self.old.faults ≤ self.new.faults }
    {
        self.faults = self.faults.saturating_add(1);
    }

    /// Why a call stopped, which is counted.
    fn stop(&mut self, why: io::Error) -> Stop
        ensures faults { self.new.faults ≡ count_after (is_fault result) self.old.faults }
        ensures interruptions { self.new.interruptions ≡ count_after (is_interruption result) self.old.interruptions }
        ensures later { self.old.faults ≤ self.new.faults }
    {
        match why.kind() {
            ErrorKind::Interrupted => {
                self.interruptions = self.interruptions.saturating_add(1);
                Stop::Interrupted
            }
            _ => {
                self.count_fault();
                Stop::Failed
            }
        }
    }
}

impl<R: Files<File = File> + Print + Drop> Machine<R> {
    /// The current folder. Nothing is asked of it before its lock.
    pub fn new(rt: R) -> Machine<R>
        ensures unlocked { result.folder ≡ None }
        ensures faults { result.counts.faults ≡ 0 }
        ensures interruptions { result.counts.interruptions ≡ 0 }
    {
        Machine {
            rt,
            folder: None,
            counts: Counts::none(),
        }
    }

    /// What a call answered.
    fn counted<T: Drop>(&mut self, answer: io::Result<T>) -> Result<T, Stop>
        ensures ok { IfOk result (λ value. answer ≡ Ok value) }
        ensures folder { self.new.folder ≡ self.old.folder }
        ensures faults { self.new.counts.faults ≡ count_after (has_failed result) self.old.counts.faults }
        ensures interruptions { self.new.counts.interruptions ≡ count_after (was_interrupted result) self.old.counts.interruptions }
        ensures later { self.old.counts.faults ≤ self.new.counts.faults }
    {
        match answer {
            Ok(value) => Ok(value),
            Err(why) => Err(self.counts.stop(why)),
        }
    }

    /// What a call for so many bytes answered; one that did none of them is a fault too.
    fn counted_part(&mut self, answer: io::Result<usize>, asked: usize) -> Result<usize, Stop>
        ensures ok { IfOk result (λ count. answer ≡ Ok count) }
        ensures folder { self.new.folder ≡ self.old.folder }
        ensures faults { self.new.counts.faults ≡ count_after (falls_short asked result) self.old.counts.faults }
        ensures interruptions { self.new.counts.interruptions ≡ count_after (was_interrupted result) self.old.counts.interruptions }
        ensures later { self.old.counts.faults ≤ self.new.counts.faults }
    {
        match answer {
            Ok(count) => {
                if count == 0 && asked > 0 {
                    self.counts.count_fault();
                }
                Ok(count)
            }
            Err(why) => Err(self.counts.stop(why)),
        }
    }

    /// What a call for one byte answered; one that did nothing is a fault.
    fn counted_byte(&mut self, answer: io::Result<usize>) -> Result<(), Stop>
        ensures folder { self.new.folder ≡ self.old.folder }
        ensures faults { self.new.counts.faults ≡ count_after (has_failed result) self.old.counts.faults }
        ensures interruptions { self.new.counts.interruptions ≡ count_after (was_interrupted result) self.old.counts.interruptions }
        ensures later { self.old.counts.faults ≤ self.new.counts.faults }
    {
        match self.counted_part(answer, 1) {
            Ok(0) => Err(Stop::Failed),
            Ok(_) => Ok(()),
            Err(why) => Err(why),
        }
    }

    /// What a lock answered; one that somebody else has is a fault.
    fn counted_lock(&mut self, answer: Result<(), TryLockError>) -> Result<(), Stop>
        ensures folder { self.new.folder ≡ self.old.folder }
        ensures faults { self.new.counts.faults ≡ count_after (has_failed result) self.old.counts.faults }
        ensures interruptions { self.new.counts.interruptions ≡ count_after (was_interrupted result) self.old.counts.interruptions }
        ensures later { self.old.counts.faults ≤ self.new.counts.faults }
    {
        match answer {
            Ok(()) => Ok(()),
            Err(TryLockError::Error(why)) => Err(self.counts.stop(why)),
            Err(TryLockError::WouldBlock) => {
                self.counts.count_fault();
                Err(Stop::Failed)
            }
        }
    }

    /// Looks at a file that was opened: it is to be a regular one, with one name. A second name would be another area's, or
    /// another folder's, and what is written by one would be written over by the other.
    fn look(&mut self, file: &File) -> Result<(), Stop>
        ensures folder { self.new.folder ≡ self.old.folder }
        ensures faults { self.new.counts.faults ≡ count_after (has_failed result) self.old.counts.faults }
        ensures interruptions { self.new.counts.interruptions ≡ count_after (was_interrupted result) self.old.counts.interruptions }
        ensures later { self.old.counts.faults ≤ self.new.counts.faults }
    {
        let found = file.metadata();
        let found = self.counted(found)?;
        if found.is_file() && found.nlink() == 1 {
            Ok(())
        } else {
            self.counts.count_fault();
            Err(Stop::Failed)
        }
    }
}

impl<R: Files<File = File> + Print + Drop> Host for Machine<R> {
    type File = AreaFile;

    ghost outside = { λ m. with_faults m.counts.faults blind };

    ghost interruptions = { λ m. m.counts.interruptions };

    ghost hold = { λ m. held_where (is_some m.folder) };

    ghost area_of = { λ f. f.area };

    /// Opens the folder, and locks it.
    fn lock(&mut self) -> Result<(), Stop> {
        let opened = File::open(&self.rt, ".");
        let folder = self.counted(opened)?;
        let locked = folder.try_lock();
        self.counted_lock(locked)?;
        self.folder = Some(folder);
        Ok(())
    }

    /// Opens the file, looks at it, and locks it: a file that two folders lead to by symbolic links has one run at a time.
    fn open(&mut self, area: Area, name: &str) -> Result<AreaFile, Stop> {
        let opened = OpenOptions::new()
            .read(true)
            .write(true)
            .create(true)
            .open(&self.rt, name);
        let file = self.counted(opened)?;
        self.look(&file)?;
        let locked = file.try_lock();
        self.counted_lock(locked)?;
        Ok(AreaFile { area, file })
    }

    fn sync_folder(&mut self, _file: &AreaFile) -> Result<(), Stop> {
        let Some(folder) = &self.folder else {
            unreachable!();
        };
        let synced = folder.sync_all();
        self.counted(synced)
    }

    fn length(&mut self, file: &AreaFile) -> Result<u64, Stop> {
        let found = file.file.metadata();
        Ok(self.counted(found)?.len())
    }

    fn read_at(&mut self, file: &AreaFile, at: u64, into: &mut [u8]) -> Result<usize, Stop> {
        let read = file.file.read_at(into, at);
        self.counted_part(read, into.len())
    }

    fn write_at(&mut self, file: &AreaFile, at: u64, bytes: &[u8]) -> Result<usize, Stop> {
        let written = file.file.write_at(bytes, at);
        self.counted_part(written, bytes.len())
    }

    /// Writes the byte once more. A system that counted it as written, though its sync failed, has to write it at the next one.
    fn renew(&mut self, file: &AreaFile, at: u64, byte: u8) -> Result<(), Stop> {
        let written = file.file.write_at(&[byte], at);
        self.counted_byte(written)
    }

    fn sync(&mut self, file: &AreaFile) -> Result<(), Stop> {
        let synced = file.file.sync_all();
        self.counted(synced)
    }

    fn tell(&mut self, bytes: &[u8]) -> Result<usize, Stop> {
        let written = io::writer(&self.rt).write(bytes);
        self.counted_part(written, bytes.len())
    }

    ghost lawful = { λ m. lawful_counted m.counts.faults blind blind_lawful };
}

/// Standard input. It tells no content, and counts its faults and its interruptions.
#[derive(Drop)]
pub struct Script<R: Input + Drop> {
    rt: R,
    counts: Counts,
}

impl<R: Input + Drop> Script<R> {
    pub fn new(rt: R) -> Script<R>
        ensures faults { result.counts.faults ≡ 0 }
        ensures interruptions { result.counts.interruptions ≡ 0 }
    {
        Script {
            rt,
            counts: Counts::none(),
        }
    }
}

impl<R: Input + Drop> Reader for Script<R> {
    ghost use Rattle.std.specs.Prelude.{None};

    ghost rest = { λ _. None };

    ghost faults = { λ s. s.counts.faults };

    ghost interruptions = { λ s. s.counts.interruptions };

    fn read(&mut self, into: &mut [u8]) -> Result<usize, Stop> {
        match self.rt.reader().read(into) {
            Ok(count) => Ok(count),
            Err(why) => Err(self.counts.stop(why)),
        }
    }
}

/// Takes the descriptors of standard streams that are closed, so that no file of the folder gets one of them. A folder
/// can be neither read nor written, so what is asked of such a stream fails. Where the root can't be opened the current
/// folder is taken.
pub fn closed_streams<R: Files<File = File>>(rt: &R) -> io::Result<[Option<File>; 3]> {
    let mut taken = [None, None, None];
    for plug in taken.iter_mut() {
        let folder = File::open(rt, "/").or_else(|_| File::open(rt, "."))?;
        if folder.as_raw_fd() > 2 {
            break;
        }
        *plug = Some(folder);
    }
    Ok(taken)
}

/// Whether standard output is the file of an area, which what is told would be written over. None is where the system does not tell
/// the files of streams, by /dev/fd.
pub fn is_output_an_area<R: Files<File = File>>(rt: &R) -> bool {
    is_an_area(rt, "/dev/fd/1")
}

/// The same of standard error, which the status is written to.
pub fn is_error_an_area<R: Files<File = File>>(rt: &R) -> bool {
    is_an_area(rt, "/dev/fd/2")
}

fn is_an_area<R: Files<File = File>>(rt: &R, stream: &str) -> bool {
    let areas = [
        Area::Rows,
        Area::Links,
        Area::Files,
        Area::Archive,
        Area::Backups,
    ];
    match fs::metadata(rt, stream) {
        Ok(found) => areas
            .into_iter()
            .any(|area| is_file(fs::metadata(rt, file_name(area)), &found)),
        Err(_) => false,
    }
}

fn is_file(answer: io::Result<Metadata>, found: &Metadata) -> bool {
    match answer {
        Ok(other) => other.dev() == found.dev() && other.ino() == found.ino(),
        Err(_) => false,
    }
}
