// The image files of the current folder, by the numbers of their members.
use crate::aside::set_aside;
use crate::files::{HEADER, Image, Lock, Node, Part, Purpose, is_header};
use crate::names::{MEMBERS, name_of, path_of};
use crate::reports::report_member;
use crate::searches::Search;
use crate::system::longest_file;
use dg_io::NoMemory;
use std::fs::{self, File, TryLockError};
use std::io::{self, ErrorKind};

/// The system's numbers of two errors, which are told as those that it gives itself.
const IS_A_DIRECTORY: i32 = 21;

const FILE_TOO_LARGE: i32 = 27;

/// What the run has done with the images that were there.
#[derive(Clone, Copy, PartialEq, Eq)]
enum Start {
    /// Nothing yet.
    Fresh,
    /// It opened them, or set them aside.
    Begun,
    /// It couldn't set them aside.
    Blocked,
}

/// Whether the run has the lock of the folder.
#[derive(Drop)]
enum Hold {
    /// It wasn't asked for yet.
    Unasked,
    /// It has it as long as the folder is open. `None` where folders can't be locked: then the images' own locks tell.
    Taken(Option<File>),
    /// Another run has it.
    Refused,
}

/// What stands at a path.
#[derive(Clone, Copy)]
enum Found {
    Nothing,
    Image,
    Folder,
    Other,
}

/// The members as image files. A file stays open, and locked, from the blank that makes it, or the attach that finds it.
#[derive(Drop)]
pub struct Members<'a> {
    rt: HostRuntime,
    purpose: Purpose,
    folder: Hold,
    images: Vec<Option<Image>>,
    /// Whether the image of a member was looked for.
    looked: [bool; MEMBERS as usize],
    start: Start,
    longest: u64,
    /// Whether files were made or renamed since the folder was flushed.
    has_new_names: bool,
    /// Whether a label or a header was written, and with it an image flushed.
    has_labels: bool,
    search: &'a Search,
    /// Whether a saved array is looked for, and none is opened yet.
    is_searching: bool,
}

/// What stands at a path. Links are followed.
fn look_at(rt: HostRuntime, path: &str) -> io::Result<Found> {
    match fs::metadata(&rt, path) {
        Ok(found) if found.is_file() => Ok(Found::Image),
        Ok(found) if found.is_dir() => Ok(Found::Folder),
        Ok(_) => Ok(Found::Other),
        Err(error) if error.kind() == ErrorKind::NotFound => Ok(Found::Nothing),
        Err(error) => Err(error),
    }
}

/// Locks the folder: alone, or to read beside others who read.
fn lock_folder(rt: HostRuntime, purpose: Purpose) -> Hold {
    let Ok(folder) = File::open(&rt, ".") else {
        return Hold::Taken(None);
    };
    let given = match purpose {
        Purpose::Read => folder.try_lock_shared(),
        Purpose::Write => folder.try_lock(),
    };
    match given {
        Ok(()) => Hold::Taken(Some(folder)),
        Err(TryLockError::WouldBlock) => Hold::Refused,
        Err(TryLockError::Error(_)) => Hold::Taken(None),
    }
}

/// Another run has the lock.
fn in_use() -> io::Error {
    io::Error::new(ErrorKind::ResourceBusy, "in use by another run")
}

impl<'a> Members<'a> {
    /// No file is open yet. The table of the files is taken here.
    pub fn new(
        rt: HostRuntime,
        purpose: Purpose,
        search: &'a Search,
    ) -> Result<Members<'a>, NoMemory> {
        let mut images = Vec::new(rt.alloc());
        for _ in 0..MEMBERS {
            if images.push(None).is_err() {
                return Err(NoMemory);
            }
        }
        Ok(Members {
            rt,
            purpose,
            folder: Hold::Unasked,
            images,
            looked: [false; MEMBERS as usize],
            start: Start::Fresh,
            longest: longest_file(rt),
            has_new_names: false,
            has_labels: false,
            search,
            is_searching: false,
        })
    }

    /// Makes a member's image anew, of so many zeros. The first one of a run that has opened no image sets aside those that are there.
    pub fn blank(&mut self, member: u8, length: u64) -> io::Result<()> {
        if member >= MEMBERS {
            return Err(io::Error::new(ErrorKind::InvalidInput, "no such member"));
        }
        self.begin();
        self.make_way()?;
        self.check_folder()?;
        self.check_length(length)?;
        self.let_go(member);
        let mut image = Image::open_or_make(self.rt, path_of(&name_of(member))?)?;
        self.lock_new(&image)?;
        image.make_blank(length)?;
        self.has_new_names = true;
        self.put(member, image);
        Ok(())
    }

    /// Opens a member's image where there is one, and gives its length.
    pub fn attach(&mut self, member: u8) -> io::Result<Option<u64>> {
        if member >= MEMBERS {
            return Ok(None);
        }
        self.begin();
        self.start = Start::Begun;
        self.is_searching = true;
        self.let_go(member);
        let found = self.find(member);
        self.note_look(member, &found);
        let Some(image) = found? else {
            return Ok(None);
        };
        let length = image.length();
        self.put(member, image);
        Ok(Some(length))
    }

    pub fn read(&mut self, member: u8, place: u64, buf: &mut [u8]) -> io::Result<()> {
        self.image_mut(member)?.read(place, buf)?;
        if self.is_searching {
            self.note_read(member, place, buf);
        }
        Ok(())
    }

    /// Writes at a place. New names are on the disk before the first label or header. A run that only reads writes just headers, those of a save that
    /// was stopped when it was on some members alone. The next run that writes completes it; here that isn't done, and nothing reads them again.
    pub fn write(&mut self, member: u8, place: u64, buf: &[u8]) -> io::Result<()> {
        self.check_length(place.saturating_add(buf.len() as u64))?;
        if is_header(place, buf) {
            if self.purpose == Purpose::Read && buf.starts_with(HEADER) {
                return Ok(());
            }
            self.flush_names()?;
            self.has_labels = true;
        }
        self.image_mut(member)?.write(place, buf)
    }

    pub fn extend(&mut self, member: u8, length: u64) -> io::Result<()> {
        self.check_length(length)?;
        self.image_mut(member)?.extend(length)
    }

    /// Opens and locks a member's image, where a file is there.
    pub fn hold(&mut self, member: u8) -> io::Result<()> {
        let name = name_of(member);
        let path = path_of(&name)?;
        if let Found::Image = look_at(self.rt, path)? {
            let image = self.open(path)?;
            self.put(member, image);
        }
        Ok(())
    }

    /// Whether a member's image is open.
    pub fn holds(&self, member: u8) -> bool {
        matches!(self.images.get(member as usize), Some(Some(_)))
    }

    /// Closes a member's image, if it is open. In a run that wrote a label or a header, what was written to it since its last flush is flushed before,
    /// and a failure is told: so an error that comes as late as this isn't lost.
    pub fn let_go(&mut self, member: u8) {
        let Some(place) = self.images.get_mut(member as usize) else {
            return;
        };
        let Some(mut image) = place.take() else {
            return;
        };
        if self.has_labels {
            if let Err(error) = image.flush() {
                report_member(self.rt, member, "close", &error);
            }
        }
    }

    /// Closes all images.
    pub fn let_all_go(&mut self) {
        for member in 0..MEMBERS {
            self.let_go(member);
        }
    }

    // Asks for the lock of the folder, once a run: so two runs that begin at the same time don't share out the members.
    fn begin(&mut self) {
        if let Hold::Unasked = self.folder {
            self.folder = lock_folder(self.rt, self.purpose);
        }
    }

    // Fails where another run has the folder.
    fn check_folder(&self) -> io::Result<()> {
        match self.folder {
            Hold::Refused => Err(in_use()),
            _ => Ok(()),
        }
    }

    // Has the names of new files on the disk.
    fn flush_names(&mut self) -> io::Result<()> {
        if self.has_new_names {
            File::open(&self.rt, ".")?.sync_all()?;
            self.has_new_names = false;
        }
        Ok(())
    }

    // Sets aside what is there, if that is still to be done.
    fn make_way(&mut self) -> io::Result<()> {
        if self.start == Start::Fresh {
            self.start = match set_aside(self.rt, self) {
                Ok(()) => Start::Begun,
                Err(_) => Start::Blocked,
            };
        }
        if self.start == Start::Blocked {
            return Err(io::Error::new(ErrorKind::AlreadyExists, "older images are in the way"));
        }
        Ok(())
    }

    // A member's image, opened and locked, where there is one.
    fn find(&self, member: u8) -> io::Result<Option<Image>> {
        let name = name_of(member);
        let path = path_of(&name)?;
        match look_at(self.rt, path)? {
            Found::Nothing => Ok(None),
            Found::Image => Ok(Some(self.open(path)?)),
            Found::Folder => Err(io::Error::from_raw_os_error(IS_A_DIRECTORY)),
            Found::Other => Err(io::Error::new(ErrorKind::InvalidInput, "not a regular file")),
        }
    }

    // Opens an image that is there, and locks it. Two names of one file share the lock.
    fn open(&self, path: &str) -> io::Result<Image> {
        self.check_folder()?;
        let image = Image::open(self.rt, path, self.purpose)?;
        match image.lock(self.purpose)? {
            Lock::Refused if !self.has(image.node()) => Err(in_use()),
            _ => Ok(image),
        }
    }

    // Locks an image that is to be made blank. It is no other member's.
    fn lock_new(&self, image: &Image) -> io::Result<()> {
        if self.has(image.node()) {
            return Err(io::Error::new(ErrorKind::AlreadyExists, "the file of another member"));
        }
        match image.lock(self.purpose)? {
            Lock::Taken => Ok(()),
            Lock::Refused => Err(in_use()),
        }
    }

    // Whether one of the open images is this file.
    fn has(&self, node: Node) -> bool {
        self.images
            .iter()
            .flatten()
            .any(|image| image.node() == node)
    }

    // Fails where the process may write no file of this length.
    fn check_length(&self, length: u64) -> io::Result<()> {
        if length > self.longest {
            return Err(io::Error::from_raw_os_error(FILE_TOO_LARGE));
        }
        Ok(())
    }

    // Notes for the search what a look for a member's image gave. An opening looks for it twice where no member has headers: that counts once.
    fn note_look(&mut self, member: u8, found: &io::Result<Option<Image>>) {
        let Some(looked) = self.looked.get_mut(member as usize) else {
            return;
        };
        if !*looked {
            match found {
                Ok(None) => {}
                Ok(Some(_)) => self.search.note_image(),
                Err(_) => self.search.note_denied(),
            }
        }
        *looked = true;
    }

    // Notes for the search what was read.
    fn note_read(&mut self, member: u8, place: u64, buf: &[u8]) {
        let search = self.search;
        let Ok(image) = self.image_mut(member) else {
            return;
        };
        match image.part_read(place, buf) {
            Part::Front => {}
            Part::Label => search.note_label(),
            Part::Body => search.note_body(),
            Part::Block => {
                search.end();
                self.is_searching = false;
            }
        }
    }

    fn put(&mut self, member: u8, image: Image) {
        if let Some(place) = self.images.get_mut(member as usize) {
            *place = Some(image);
        }
    }

    fn image_mut(&mut self, member: u8) -> io::Result<&mut Image> {
        match self.images.get_mut(member as usize) {
            Some(Some(image)) => Ok(image),
            _ => Err(io::Error::new(ErrorKind::NotFound, "not open")),
        }
    }
}
