// What is found of a saved array.
use std::cell::Cell;

/// What a run that looks for a saved array has found so far.
#[derive(Drop)]
pub struct Search {
    images: Cell<u32>,
    denied: Cell<u32>,
    labels: Cell<u32>,
    bodies: Cell<u32>,
    is_over: Cell<bool>,
}

/// One more.
fn count(cell: &Cell<u32>) {
    cell.set(cell.get().saturating_add(1));
}

/// So many images, in words.
fn noun(count: u32) -> &'static str {
    if count == 1 { "image" } else { "images" }
}

impl Search {
    pub fn new() -> Search {
        Search {
            images: Cell::new(0),
            denied: Cell::new(0),
            labels: Cell::new(0),
            bodies: Cell::new(0),
            is_over: Cell::new(false),
        }
    }

    /// An image was opened.
    pub fn note_image(&self) {
        count(&self.images);
    }

    /// An image couldn't be opened.
    pub fn note_denied(&self) {
        count(&self.denied);
    }

    /// A label was read.
    pub fn note_label(&self) {
        count(&self.labels);
    }

    /// A body was read.
    pub fn note_body(&self) {
        count(&self.bodies);
    }

    /// An array was opened.
    pub fn end(&self) {
        self.is_over.set(true);
    }

    /// Tells on standard error why no array was opened, unless one was.
    pub fn tell(&self, rt: HostRuntime) {
        if self.is_over.get() {
            return;
        }
        let (images, denied) = (self.images.get(), self.denied.get());
        let lacking = self.lacking();
        let _ = match (images, denied) {
            (0, 0) => eprintln!(rt; "no image in this folder"),
            (0, _) => eprintln!(rt; "{denied} {} couldn't be opened", noun(denied)),
            (_, 0) => eprintln!(rt; "{images} {}, none with {lacking}", noun(images)),
            _ => {
                eprintln!(rt;
                    "{images} {}, none with {lacking}; {denied} couldn't be opened",
                    noun(images)
                )
            }
        };
    }

    // What the images lack.
    fn lacking(&self) -> &'static str {
        if self.bodies.get() > 0 {
            "a whole state behind its label"
        } else if self.labels.get() > 0 {
            "a label of its own"
        } else {
            "a label"
        }
    }
}
