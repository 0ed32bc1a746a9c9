//! A page of words that takes no memory.

use std::fmt::{self, Write};

/// How many bytes there is room for.
const ROOM: usize = 4_096;

/// Words with a space between them. What there is no room for is counted, and a page with more than its room is the same
/// as none.
#[derive(Clone, Copy)]
pub struct Page {
    bytes: [u8; ROOM],
    written: usize,
}

impl Page {
    pub fn new() -> Page {
        Page {
            bytes: [0; ROOM],
            written: 0,
        }
    }

    fn push(&mut self, byte: u8) {
        if let Some(place) = self.bytes.get_mut(self.written) {
            *place = byte;
        }
        self.written = self.written.saturating_add(1);
    }

    pub fn put(&mut self, text: &str) {
        for byte in text.as_bytes() {
            self.push(*byte);
        }
    }

    pub fn put_number(&mut self, number: u64) {
        let _ = write!(self, "{number}");
    }

    /// Puts a space after what is there.
    pub fn space(&mut self) {
        if self.written > 0 {
            self.push(b' ');
        }
    }

    /// What is on the page; nothing where there was no room for it.
    pub fn text(&self) -> Option<&[u8]> {
        self.bytes.get(..self.written)
    }

    /// Whether that is on the page.
    pub fn is(&self, wanted: &str) -> bool {
        self.text() == Some(wanted.as_bytes())
    }

    pub fn is_same(&self, other: &Page) -> bool {
        self.text().is_some() && self.text() == other.text()
    }
}

impl Write for Page {
    fn write_str(&mut self, text: &str) -> fmt::Result {
        self.put(text);
        Ok(())
    }
}
