//! The lines of the fixed cases, each with its line feed: a word, then bytes or numbers.

use crate::file::File;
use arrayvec::ArrayVec;

/// A digit's value by its character; what is no hexadecimal digit counts 16.
fn digit(character: u8) -> u8 {
    match character {
        b'0'..=b'9' => character - b'0',
        b'a'..=b'f' => character - b'a' + 10,
        _ => 16,
    }
}

fn decimal(digits: &[u8]) -> usize {
    digits
        .iter()
        .fold(0usize, |n, character| push_digit(n, digit(*character)))
}

fn push_digit(n: usize, digit: u8) -> usize {
    n.wrapping_mul(10).wrapping_add(usize::from(digit))
}

#[derive(Clone, Copy)]
pub struct Line<'a> {
    text: &'a [u8],
}

impl<'a> Line<'a> {
    pub fn new(text: &'a [u8]) -> Line<'a> {
        Line { text }
    }

    pub fn letter(self) -> u8 {
        self.text.first().copied().unwrap_or(0)
    }

    /// The number at place i of those on the line, or 0 where it has fewer.
    pub fn number(self, i: usize) -> usize {
        self.text
            .split(|character| !character.is_ascii_digit())
            .filter(|digits| !digits.is_empty())
            .nth(i)
            .map_or(0, decimal)
    }

    /// The first character of the last word behind the first that begins with no digit.
    pub fn kind(self) -> Option<u8> {
        self.text
            .split(|character| *character == b' ')
            .skip(1)
            .filter_map(|word| word.first().copied())
            .filter(|first| !first.is_ascii_digit())
            .last()
    }

    /// What is typed on the line behind its first word, with the line feed.
    pub fn typed(self) -> File {
        let mut file = File::new();
        for byte in self.text.iter().skip(b"type ".len()) {
            file.push(*byte);
        }
        file
    }

    /// The bytes of the line. N( .. ) stands for N copies, in which a byte with + behind it grows
    /// by one from copy to copy.
    pub fn bytes(self) -> File {
        let mut draft = Draft::new();
        let mut words = self.text.splitn(2, |character| *character == b' ');
        for character in words.nth(1).unwrap_or(&[]) {
            draft.draw(*character);
        }
        draft.finish()
    }
}

/// A number that is being read, in both bases: the byte that it may be, and the number of copies
/// that it may be.
#[derive(Clone, Copy)]
struct Number {
    hexadecimal: u8,
    decimal: usize,
}

/// A byte, and by how much it grows from copy to copy.
#[derive(Clone, Copy, Default)]
struct Drawn {
    byte: u8,
    step: u8,
}

impl Number {
    const ZERO: Number = Number {
        hexadecimal: 0,
        decimal: 0,
    };

    fn with(self, digit: u8) -> Number {
        Number {
            hexadecimal: (self.hexadecimal << 4) | digit,
            decimal: push_digit(self.decimal, digit),
        }
    }
}

impl Drawn {
    /// Its next copy.
    fn copied(self) -> Drawn {
        let byte = self.byte.wrapping_add(self.step);
        Drawn { byte, ..self }
    }
}

/// Bytes in the making, one more of them than a file keeps: the number that is open, by how much its
/// byte grows, where the last group began, and of how many copies it is.
// It owns a list: nothing copies or compares it.
#[derive(Drop)]
struct Draft {
    drawn: ArrayVec<Drawn, 2049>,
    open: Option<Number>,
    step: u8,
    start: usize,
    times: usize,
}

impl Draft {
    fn new() -> Draft {
        Draft {
            drawn: ArrayVec::new(),
            open: None,
            step: 0,
            start: 0,
            times: 0,
        }
    }

    /// Adds the byte that is open.
    fn close(&mut self) {
        if let Some(number) = self.open.take() {
            let drawn = Drawn {
                byte: number.hexadecimal,
                step: self.step,
            };
            self.step = 0;
            // What a file does not keep makes no difference, here and below.
            let _ = self.drawn.try_push(drawn);
        }
    }

    /// Adds the other copies of the group, of which one is there.
    fn repeat(&mut self) {
        let mut group = ArrayVec::<Drawn, 2049>::new();
        for drawn in self.drawn.iter().skip(self.start) {
            let _ = group.try_push(*drawn);
        }
        // It repeats, and indexes nothing.
        for _ in 1..self.times {
            if self.drawn.is_full() {
                break;
            }
            for drawn in group.iter_mut() {
                *drawn = drawn.copied();
                let _ = self.drawn.try_push(*drawn);
            }
        }
    }

    fn draw(&mut self, character: u8) {
        match character {
            b' ' | b'\n' => self.close(),
            b'(' => {
                self.times = self.open.take().map_or(0, |number| number.decimal);
                self.start = self.drawn.len();
            }
            b')' => self.repeat(),
            b'+' => self.step = 1,
            _ => {
                let open = self.open.unwrap_or(Number::ZERO);
                self.open = Some(open.with(digit(character)));
            }
        }
    }

    fn finish(self) -> File {
        let mut file = File::new();
        for drawn in &self.drawn {
            file.push(drawn.byte);
        }
        file
    }
}
