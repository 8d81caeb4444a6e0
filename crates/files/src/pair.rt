//! An attribute's name with a value.

ghost use Rattle.std.specs.Prelude.{◌≡◌, [], ◌∷◌};
ghost use Rattle.ptacl.specs.Pairs.{packed};
ghost use Rattle.files.specs.Encoding.{pair_bytes};
ghost use Rattle.files.specs.Tags.{pair_of, pair_in};

/// An attribute's name with one of its values. Pairs are ordered by name, and then by value.
#[derive(Clone, Copy, Debug, Default, PartialEq, Eq, PartialOrd, Ord)]
pub struct Pair {
    pub name: u16,
    pub value: u16,
}

impl From<[u8; 4]> for Pair {
    ghost from_gives = { λ bytes pair. pair_of pair ≡ pair_in bytes };

    fn from(bytes: [u8; 4]) -> Pair {
        let [a, b, c, d] = bytes;
        Pair {
            name: u16::from_be_bytes([a, b]),
            value: u16::from_be_bytes([c, d]),
        }
    }
}

impl From<Pair> for [u8; 4] {
    ghost from_gives = { λ pair bytes. bytes ≡ pair_bytes (pair_of pair ∷ []) };

    #[tactic(auto, unfolding(crate::specs::Encoding::pair_bytes))]
    fn from(pair: Pair) -> [u8; 4] {
        let [a, b] = pair.name.to_be_bytes();
        let [c, d] = pair.value.to_be_bytes();
        [a, b, c, d]
    }
}

impl From<Pair> for u32 {
    ghost from_gives = { λ pair number. number ≡ packed (pair_of pair) };

    fn from(pair: Pair) -> u32 {
        u32::from(pair.name) * 65536 + u32::from(pair.value)
    }
}
