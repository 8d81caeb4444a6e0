//! Pairs of a name and a value, and lists of them.

/// A name and a value, in the order of a file's bytes. It is not the library's `Pair`: what the
/// library answers is compared with what this program finds without it.
#[derive(Clone, Copy, Default, PartialEq, Eq, PartialOrd, Ord)]
pub struct Pair {
    pub name: u16,
    pub value: u16,
}

/// A pair of a file: both numbers are big-endian.
// No buffer: a pair is four bytes, and an array says so.
impl From<[u8; 4]> for Pair {
    fn from(bytes: [u8; 4]) -> Pair {
        let [n1, n0, v1, v0] = bytes;
        Pair {
            name: u16::from_be_bytes([n1, n0]),
            value: u16::from_be_bytes([v1, v0]),
        }
    }
}

/// The number of the pair, name * 65536 + value.
impl From<Pair> for u32 {
    fn from(pair: Pair) -> u32 {
        let [n1, n0] = pair.name.to_be_bytes();
        let [v1, v0] = pair.value.to_be_bytes();
        u32::from_be_bytes([n1, n0, v1, v0])
    }
}

impl Pair {
    /// The pair of this name with the smallest value below 256 that the list has not.
    // The values are marked first: to seek each in the list would cost the list for each.
    pub fn unlisted(self, list: &[Pair]) -> Pair {
        let name = self.name;
        let mut is_listed = [false; 256];
        for pair in list {
            if pair.name == name {
                if let Some(listed) = is_listed.get_mut(usize::from(pair.value)) {
                    *listed = true;
                }
            }
        }
        let free = is_listed.iter().position(|listed| !*listed);
        let value = free
            .and_then(|value| u16::try_from(value).ok())
            .unwrap_or(0);
        Pair { name, value }
    }
}
