//! A file without a name, in which a text is held.

ghost use Rattle.std.specs.Prelude.{◌≡◌, ◌≤◌, ◌<◌, ◌+◌, ◌-◌, ◌^◌, ◌||◌, [], ◌∷◌, length, min, take};
ghost use Rattle.std.specs.Prelude.{true, false};
ghost use Rattle.std.specs.Prelude.{IfOk, OnOk, Some};
ghost use Rattle.std.specs.Io.KnownBytes.{Appends, Keeps, ReadConsumes, WriteAppends};
ghost use Rattle.opgp_io.specs.Stream.{pull_fails, put_fails};
ghost use Rattle.opgp_tool.specs.SpoolFile.{IsBesideStreams, file_in, left_in, put_so_far};
ghost use Rattle.opgp_tool.specs.SpoolFile.{spool_failed};

use opgp_stack::{RunFault, Spool};
use std::alloc::Global;
use std::fs::{Files, OpenFile, OpenOptions, remove_file};
use std::io;
use std::io::{Read, Seek, SeekFrom, Write};
use std::os::fd::AsRawFd;
use std::os::unix::fs::OpenOptionsExt;

/// How many octets wait in memory to be written at once.
const WAITING: usize = 65_536;

/// How many names are tried for the file.
const NAMES: u32 = 1_000;

/// The last number of a standard stream: that of standard error.
const LAST_STREAM: i32 = 2;

/// A file that is filled, and then read again from its first octet.
#[derive(Drop)]
pub struct SpoolFile<F> {
    file: F,
    waiting: Vec<u8>,
    is_read: bool,
    has_failed: bool,
    /// How many octets were put and aren't read yet.
    left: u64,
}

/// Makes a new file in a directory, which only its owner may read, and takes its name away: so
/// nothing is left of it once the process ends, however that is.
///
/// The errors are `Spool`, if no file could be made there, and `Memory`.
pub fn open_spool<R: Files>(
    alloc: Global,
    files: &R,
    dir: &str,
) -> Result<SpoolFile<R::File>, RunFault>
where
    R::File: AsRawFd,
    ensures sound { IfOk result (λ spool. spool_failed spool ≡ false) }
    ensures beside { IfOk result (λ spool. IsBesideStreams (R.File.raw_fd (file_in spool))) }
{
    let waiting = match Vec::with_capacity(alloc, WAITING) {
        Ok(waiting) => waiting,
        Err(_) => return Err(RunFault::Memory),
    };
    match new_file(alloc, files, dir) {
        Ok(file) => Ok(SpoolFile {
            file,
            waiting,
            is_read: false,
            has_failed: false,
            left: 0,
        }),
        Err(error) if error.kind() == io::ErrorKind::OutOfMemory => Err(RunFault::Memory),
        Err(_) => Err(RunFault::Spool),
    }
}

/// The same open file by a number that no standard stream has. A file opened while a standard
/// stream is closed gets that stream's number: what is meant for the stream would go into the file,
/// or come from it.
pub(crate) fn beside_streams<F: OpenFile + AsRawFd + Drop>(file: F) -> io::Result<F>
    ensures { IfOk result (λ file. IsBesideStreams (F.raw_fd file)) }
{
    if file.as_raw_fd() > LAST_STREAM {
        return Ok(file);
    }
    let moved = file.try_clone()?;
    if moved.as_raw_fd() > LAST_STREAM {
        Ok(moved)
    } else {
        Err(io::Error::from(io::ErrorKind::Unsupported))
    }
}

/// A new file without a name.
fn new_file<R: Files>(alloc: Global, files: &R, dir: &str) -> io::Result<R::File>
where
    R::File: AsRawFd,
    ensures { IfOk result (λ file. IsBesideStreams (R.File.raw_fd file)) }
{
    for number in 0..NAMES {
        let path = match format!(in alloc; "{dir}/opgp-spool-{number}") {
            Ok(path) => path,
            Err(_) => return Err(io::Error::from(io::ErrorKind::OutOfMemory)),
        };
        let mut options = OpenOptions::new();
        options.read(true).write(true).create_new(true).mode(0o600);
        match options.open(files, path.as_str()) {
            Ok(file) => {
                remove_file(files, path.as_str())?;
                return beside_streams(file);
            }
            Err(error) if error.kind() == io::ErrorKind::AlreadyExists => {}
            Err(error) => return Err(error),
        }
    }
    Err(io::Error::from(io::ErrorKind::AlreadyExists))
}

impl<F: Read + Write + Seek> SpoolFile<F> {
    /// Writes what waits.
    fn flush(&mut self) -> io::Result<()>
        ensures same { spool_failed self.new ≡ spool_failed self.old }
        ensures left { left_in self.new ≡ left_in self.old }
        ensures put { OnOk result
            (Keeps (put_so_far F.contents self.old) (put_so_far F.contents self.new)) }
        ensures none { OnOk result (self.new.waiting.items ≡ []) }
    {
        self.file.write_all(self.waiting.as_slice())?;
        self.waiting.clear();
        Ok(())
    }

    /// Writes the first of the octets, or lets them wait.
    fn write(&mut self, octets: &[u8]) -> io::Result<usize>
        ensures bound { IfOk result (λ n. n ≤ length octets.now) }
        ensures same { spool_failed self.new ≡ spool_failed self.old }
        ensures left { left_in self.new ≡ left_in self.old }
        ensures put { IfOk result (λ n. Appends (put_so_far F.contents self.old)
            (put_so_far F.contents self.new) (take n octets.now)) }
    {
        if octets.len() > WAITING.saturating_sub(self.waiting.len()) {
            self.flush()?;
        }
        if octets.len() > WAITING {
            return self.file.write(octets);
        }
        match self.waiting.extend_from_slice(octets) {
            Ok(()) => Ok(octets.len()),
            Err(_) => Err(io::Error::from(io::ErrorKind::OutOfMemory)),
        }
    }

    /// Reads into the front of the buffer, from the first octet of the file on. A file that ends
    /// before what was put does is a failure.
    fn read(&mut self, buf: &mut [u8]) -> io::Result<usize>
        ensures bound { IfOk result (λ n. n ≤ length buf.new) }
        ensures same { spool_failed self.new ≡ spool_failed self.old }
        ensures left { IfOk result (λ n. left_in self.new ≡ left_in self.old - n) }
        ensures over { IfOk result (λ n. n ≡ 0 → 0 < length buf.new → left_in self.old ≡ 0) }
    {
        if !self.is_read {
            self.flush()?;
            self.file.seek(SeekFrom::Start(0))?;
            self.is_read = true;
        }
        let count = self.file.read(buf)?;
        if count == 0 && !buf.is_empty() && self.left > 0 {
            return Err(io::Error::from(io::ErrorKind::UnexpectedEof));
        }
        self.left = self.left.saturating_sub(count as u64);
        Ok(count)
    }
}

impl<F: Read + Write + Seek> Spool for SpoolFile<F> {
    ghost serves = { true };

    ghost tells = { false };

    ghost holds = { λ _. [] };

    ghost has_failed = { spool_failed };

    fn put(&mut self, octets: &[u8]) -> io::Result<usize>
        ensures bound { IfOk result (λ n. n ≤ length octets.now) }
        ensures octets { false ≡ true → WriteAppends (Some []) (Some []) result octets.now }
        ensures failed { spool_failed self.new
            ≡ (spool_failed self.old || put_fails result octets.now) }
        // Where it is known what a file holds: the octets go into the file, once and in order.
        ensures put { IfOk result (λ n. Appends (put_so_far F.contents self.old)
            (put_so_far F.contents self.new) (take n octets.now)) }
        ensures left { IfOk result (λ n. left_in self.new
            ≡ min (left_in self.old + n) (2 ^ 64 - 1)) }
    {
        match self.write(octets) {
            Ok(n) => {
                if n == 0 && !octets.is_empty() {
                    self.has_failed = true;
                }
                self.left = self.left.saturating_add(n as u64);
                Ok(n)
            }
            Err(error) => {
                self.has_failed = true;
                Err(error)
            }
        }
    }

    fn get(&mut self, buf: &mut [u8]) -> io::Result<usize>
        ensures bound { IfOk result (λ n. n ≤ length buf.new) }
        ensures octets { false ≡ true → ReadConsumes (Some []) (Some []) result buf.new }
        ensures failed { spool_failed self.new ≡ (spool_failed self.old || pull_fails result) }
        // What is taken is counted, and none is only where all that was put was taken.
        ensures left { IfOk result (λ n. left_in self.new ≡ left_in self.old - n) }
        ensures over { IfOk result (λ n. n ≡ 0 → 0 < length buf.new → left_in self.old ≡ 0) }
    {
        let result = self.read(buf);
        if result.is_err() {
            self.has_failed = true;
        }
        result
    }

    fn failed(&self) -> bool {
        self.has_failed
    }
}
