// An open image file.
use dg_save::{body_place, read_label};
use dg_stop::{Header, read_header, table_len};
use std::fs::{File, OpenOptions, TryLockError};
use std::io::{self, ErrorKind};
use std::os::unix::fs::{FileExt, MetadataExt};

/// Bytes of a page. A label is the first page of a member.
const PAGE: u64 = 512;

/// How the two headers begin of a member whose pages have two places each. They are the first two pages of its image.
pub const HEADER: &[u8] = b"DGRAID-S";

/// Where a header says which member it is of.
const MEMBER: usize = 17;

/// No member is so long.
const LONG: u64 = 1 << 48;

/// What the run is to do with the images.
#[derive(Clone, Copy, PartialEq, Eq)]
pub enum Purpose {
    Read,
    Write,
}

/// Which file it is, whatever its name.
#[derive(Clone, Copy, PartialEq, Eq)]
pub struct Node {
    device: u64,
    number: u64,
}

/// What became of taking a lock.
#[derive(Clone, Copy, PartialEq, Eq)]
pub enum Lock {
    Taken,
    /// Another opening of the file has it.
    Refused,
}

/// What was read of an image.
#[derive(Clone, Copy, PartialEq, Eq)]
pub enum Part {
    /// Its front, without a label.
    Front,
    Label,
    /// The body that its label names.
    Body,
    Block,
}

/// The open image of a member.
#[derive(Drop)]
pub struct Image {
    file: File,
    node: Node,
    length: u64,
    /// Why it was opened for reading alone, by the number of the system's error.
    denial: Option<i32>,
    /// Where its pages begin, once headers were read by which each of them has two places.
    pages: Option<u64>,
    /// Where the body stands in the member that its label names, once the label was read.
    body: Option<u64>,
    /// Whether it was written to since its last flush.
    is_dirty: bool,
}

/// Whether a file that can't be opened to be written, by this error, may still be read.
fn denies_writing(error: &io::Error) -> bool {
    matches!(
        error.kind(),
        ErrorKind::PermissionDenied | ErrorKind::ReadOnlyFilesystem
    )
}

/// Where the body stands that the label on a page names.
fn body_named_on(page: &[u8]) -> Option<u64> {
    let label = read_label(page.first_chunk()?)?;
    Some(body_place(&label.shape))
}

/// Whether what is written at a place is a label or a header.
pub fn is_header(place: u64, bytes: &[u8]) -> bool {
    place < PAGE || place == PAGE && bytes.starts_with(HEADER)
}

/// The header that counts in place 0 or 1 of an image of so many bytes, by those at its front, whichever member it is of.
fn header_at(front: &[u8], place: u64, length: u64) -> Option<Header> {
    let at = place.saturating_mul(PAGE) as usize;
    let page = front.get(at..)?.first_chunk()?;
    read_header(page, place, page[MEMBER], length)
}

/// Where the pages begin behind such a header and the tables, each of which has two places.
fn pages_behind(header: &Header) -> Option<u64> {
    if header.size >= LONG {
        return None;
    }
    let tables = table_len(header.size, header.room).saturating_mul(2);
    Some(tables.saturating_add(2 * PAGE))
}

/// The same, by the two pages at the front of an image of so many bytes; `None` where no header counts.
fn pages_named_on(front: &[u8], length: u64) -> Option<u64> {
    match header_at(front, 0, length) {
        Some(header) => pages_behind(&header),
        None => pages_behind(&header_at(front, 1, length)?),
    }
}

/// Whether the header of a commit that was made counts in a place.
fn is_committed(front: &[u8], place: u64, length: u64) -> bool {
    match header_at(front, place, length) {
        Some(header) => header.committed,
        None => false,
    }
}

/// What stands at the front of an image of so many bytes: a committed header is the label of a member whose pages have two places.
fn front_of(front: &[u8], length: u64) -> Part {
    if is_committed(front, 0, length) || is_committed(front, 1, length) {
        Part::Label
    } else {
        Part::Front
    }
}

impl Image {
    // The image of a file that was opened.
    fn of(file: File, denial: Option<i32>) -> io::Result<Image> {
        let found = file.metadata()?;
        Ok(Image {
            file,
            node: Node {
                device: found.dev(),
                number: found.ino(),
            },
            length: found.len(),
            denial,
            pages: None,
            body: None,
            is_dirty: false,
        })
    }

    /// Opens an image that is there. Where it can't be opened to be written because that is denied, it is opened to be read.
    pub fn open(rt: HostRuntime, path: &str, purpose: Purpose) -> io::Result<Image> {
        if purpose == Purpose::Read {
            return Image::of(File::open(&rt, path)?, None);
        }
        match OpenOptions::new().read(true).write(true).open(&rt, path) {
            Ok(file) => Image::of(file, None),
            Err(error) if denies_writing(&error) => {
                Image::of(File::open(&rt, path)?, error.raw_os_error())
            }
            Err(error) => Err(error),
        }
    }

    /// Opens an image that is to be made blank. An old one is as it was.
    pub fn open_or_make(rt: HostRuntime, path: &str) -> io::Result<Image> {
        let file = OpenOptions::new()
            .read(true)
            .write(true)
            .create(true)
            .open(&rt, path)?;
        Image::of(file, None)
    }

    pub fn node(&self) -> Node {
        self.node
    }

    /// Its length when it was opened.
    pub fn length(&self) -> u64 {
        self.length
    }

    /// Takes the lock that others who write to it respect: alone, or where it was opened to be read beside others who read.
    pub fn lock(&self, purpose: Purpose) -> io::Result<Lock> {
        let given = if purpose == Purpose::Read || self.denial.is_some() {
            self.file.try_lock_shared()
        } else {
            self.file.try_lock()
        };
        match given {
            Ok(()) => Ok(Lock::Taken),
            Err(TryLockError::WouldBlock) => Ok(Lock::Refused),
            Err(TryLockError::Error(error)) => Err(error),
        }
    }

    /// Makes so many zeros of it. It has the length before anything of it is cut off.
    pub fn make_blank(&mut self, length: u64) -> io::Result<()> {
        self.is_dirty = true;
        self.file.set_len(length)?;
        if self.length > 0 {
            self.file.set_len(0)?;
            self.file.set_len(length)?;
        }
        self.length = length;
        Ok(())
    }

    pub fn read(&self, place: u64, buf: &mut [u8]) -> io::Result<()> {
        self.file.read_exact_at(buf, place)
    }

    /// What the bytes are that were read at a place.
    pub fn part_read(&mut self, place: u64, bytes: &[u8]) -> Part {
        if place == 0 {
            self.pages = pages_named_on(bytes, self.length);
        }
        let Some(at) = self.place_in_member(place) else {
            return if place == 0 {
                front_of(bytes, self.length)
            } else {
                Part::Front
            };
        };
        if at == 0 {
            self.body = body_named_on(bytes);
            return match self.body {
                Some(_) => Part::Label,
                None => Part::Front,
            };
        }
        match self.body {
            Some(body) if at >= body => Part::Body,
            _ => Part::Block,
        }
    }

    // Which place of the member stands at one of the image; none in the headers and tables of pages that have two places.
    fn place_in_member(&self, place: u64) -> Option<u64> {
        let Some(pages) = self.pages else {
            return Some(place);
        };
        let behind = place.checked_sub(pages)?;
        Some(
            (behind / (2 * PAGE))
                .saturating_mul(PAGE)
                .saturating_add(behind % PAGE),
        )
    }

    /// Writes at a place. Where that is a label or a header, what was written before is flushed first, and then it: so the disk has them in this order.
    pub fn write(&mut self, place: u64, buf: &[u8]) -> io::Result<()> {
        self.check_access()?;
        let is_header = is_header(place, buf);
        if is_header {
            self.flush()?;
        }
        self.is_dirty = true;
        self.file.write_all_at(buf, place)?;
        if is_header { self.flush() } else { Ok(()) }
    }

    /// Makes it so many bytes long.
    pub fn extend(&mut self, length: u64) -> io::Result<()> {
        self.check_access()?;
        self.is_dirty = true;
        self.file.set_len(length)
    }

    // Fails as opening it to be written failed.
    fn check_access(&self) -> io::Result<()> {
        match self.denial {
            None => Ok(()),
            Some(code) => Err(io::Error::from_raw_os_error(code)),
        }
    }

    /// Has what was written to it on the disk. Where that fails the system gives the error once, so it isn't tried again.
    pub fn flush(&mut self) -> io::Result<()> {
        if self.is_dirty {
            self.is_dirty = false;
            self.file.sync_data()?;
        }
        Ok(())
    }
}
