//! Requests: reading them from their files, and writing them.

use crate::answer::Refused;
use crate::file::File;
use crate::pair::Pair;
use crate::term::Frame;
use arrayvec::ArrayVec;

/// The pairs of a request file, which ascend.
pub fn read(file: &[u8]) -> Result<ArrayVec<Pair, 256>, Refused> {
    let frame = Frame {
        short: 21,
        version: 22,
        length: 23,
    };
    let (chunks, rest) = frame.body_of(file)?.as_chunks::<4>();
    if !rest.is_empty() {
        return Err(Refused::new(24, 3));
    }
    if chunks.len() > 256 {
        return Err(Refused::new(25, 1027));
    }
    let mut held = ArrayVec::<Pair, 256>::new();
    for (i, bytes) in chunks.iter().enumerate() {
        let pair = Pair::from(*bytes);
        if held.last().is_some_and(|last| pair <= *last) {
            return Err(Refused::new(26, 3 + 4 * i));
        }
        let _ = held.try_push(pair);
    }
    Ok(held)
}

/// Adds the request file of these pairs to what is written.
// There is room: a normal form has at most 1,019 bytes, and the two files of a search have 130.
pub fn write(pairs: &[Pair], written: &mut ArrayVec<u8, { File::LONGEST }>) {
    let [.., high, low] = pairs.len().wrapping_mul(4).to_be_bytes();
    let _ = written.try_extend_from_slice(&[1, high, low]);
    for pair in pairs {
        let _ = written.try_extend_from_slice(&u32::from(*pair).to_be_bytes());
    }
}
