//! Files and texts under construction.

use crate::pair::Pair;
use arrayvec::ArrayVec;

/// A file that is built byte by byte. What is past its 2,048th byte is lost.
// It owns a list: nothing copies or compares it.
#[derive(Drop)]
pub struct File {
    bytes: ArrayVec<u8, { File::LONGEST }>,
    /// Whether a byte was ever lost, which a later `cut` does not undo, so no length tells it.
    is_cut: bool,
}

impl File {
    /// The most bytes that a file keeps: a length, no kind of anything.
    pub const LONGEST: usize = 2048;

    pub fn new() -> File {
        File {
            bytes: ArrayVec::new(),
            is_cut: false,
        }
    }

    /// Three bytes for a version and a length, which `state` fills in.
    pub fn with_frame() -> File {
        let mut file = File::new();
        file.extend(&[0, 0, 0]);
        file
    }

    pub fn bytes(&self) -> &[u8] {
        self.bytes.as_slice()
    }

    /// Whether the file has so many bytes and none was lost.
    pub fn is_whole(&self, bytes: usize) -> bool {
        !self.is_cut && self.bytes.len() == bytes
    }

    pub fn push(&mut self, byte: u8) {
        if self.bytes.try_push(byte).is_err() {
            self.is_cut = true;
        }
    }

    pub fn extend(&mut self, bytes: &[u8]) {
        for byte in bytes {
            self.push(*byte);
        }
    }

    pub fn push_pair(&mut self, pair: Pair) {
        self.extend(&pair.name.to_be_bytes());
        self.extend(&pair.value.to_be_bytes());
    }

    /// Replaces a byte. Where there is none, nothing happens.
    pub fn alter(&mut self, i: usize, byte: u8) {
        if let Some(old) = self.bytes.get_mut(i) {
            *old = byte;
        }
    }

    /// Leaves what is before this place.
    pub fn cut(&mut self, place: usize) {
        self.bytes.truncate(place);
    }

    /// Writes the version and the length that the file has.
    pub fn state(&mut self) {
        let body = self.bytes.len().saturating_sub(3);
        let [.., high, low] = body.to_be_bytes();
        self.alter(0, 1);
        self.alter(1, high);
        self.alter(2, low);
    }
}
