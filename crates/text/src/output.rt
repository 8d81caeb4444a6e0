//! Lent memory that is written from its front on.

ghost use Rattle.std.specs.Prelude.{◌≡◌, ◌≤◌, length};

/// Lent memory, and how many bytes of it are written.
// Not Copy: it lends memory to write.
// `space` and `len` stand beside each other because the library has no heap, so no Vec, and the
// caller lends the memory, which an ArrayVec (it holds its own) could not be.
#[derive(Drop)]
pub struct Output<'a> {
    space: &'a mut [u8],
    len: usize,
    pub ghost inside: { len ≤ length space.now },
}

impl<'a> Output<'a> {
    ghost use Rattle.std.specs.Prelude.{◌≡◌, ◌≤◌, [], ◌∷◌, length};
    ghost use Rattle.text.specs.Written.{Appends, room};

    /// Stands at the front.
    pub fn new(space: &'a mut [u8]) -> Output<'a>
        ensures same_memory { result.space.ghost_name ≡ space.entry.ghost_name }
        ensures kept { result.space.now ≡ space.old }
        ensures empty { result.len ≡ 0 }
    {
        Output { space, len: 0 }
    }

    /// How many bytes are written.
    pub fn len(&self) -> usize
        ensures { result ≡ self.now.len }
    {
        self.len
    }

    /// Writes a byte behind what is written.
    pub fn push(&mut self, byte: u8)
        requires { 1 ≤ room self.old }
        ensures { Appends self.old self.new (byte ∷ []) }
    {
        self.space[self.len] = byte;
        self.len += 1;
    }

    /// Writes these bytes behind what is written.
    // One by one: they are few, and `copy_from_slice` calls the C library for them.
    pub fn extend(&mut self, bytes: &[u8])
        requires { length bytes.now ≤ room self.old }
        ensures { Appends self.old self.new bytes.now }
    {
        for &byte in bytes {
            self.push(byte);
        }
    }
}
