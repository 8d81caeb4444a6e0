//! Writing request files into lent memory.

ghost use Rattle.std.specs.Prelude.{◌≡◌, ◌++◌, map, ◌+◌, ◌*◌, ◌≤◌, length};
ghost use Rattle.files.specs.Encoding.{request_file};
ghost use Rattle.files.specs.Memory.{put, over};
ghost use Rattle.files.specs.Tags.{pair_of};

use crate::pair::Pair;

/// Puts bytes at a place: the place behind them.
#[tactic(auto, unfolding(crate::specs::Memory::put))]
pub fn put(space: &mut [u8], at: usize, bytes: &[u8]) -> usize
    requires { at + length bytes.now ≤ length space.old }
    ensures end { result ≡ at + length bytes.now }
    ensures written { space.new ≡ put at bytes.now space.old }
{
    let end = at + bytes.len();
    space[at..end].copy_from_slice(bytes);
    end
}

/// Writes the file of a request at the front of `space`: how many bytes it has.
#[tactic(auto, using(crate::proofs::WriteLoop::writing_laws))]
pub fn write_request(pairs: &[Pair], space: &mut [u8]) -> usize
    requires few { length pairs.now ≤ 256 }
    requires room { 3 + 4 * length pairs.now ≤ length space.old }
    ensures end { result ≡ 3 + 4 * length pairs.now }
    ensures written { space.new ≡ over (request_file (map pair_of pairs.now)) space.old }
{
    // At most 1,024, so `as` cuts nothing off; `try_from` would have an error that cannot occur.
    let [high, low] = (4 * pairs.len() as u16).to_be_bytes();
    put(space, 0, &[1, high, low]);
    let mut end = 3;
    // Not `chunks_exact_mut`: of what is written through it the kit tells the length alone.
    for pair in pairs {
        put(space, end, &<[u8; 4]>::from(*pair));
        end += 4;
    }
    end
}

/// Writes two request files, the second straight behind the first in the same space: where it ends.
pub fn write_two(first: &[Pair], second: &[Pair], space: &mut [u8]) -> usize
    requires few { (length first.now ≤ 256) × (length second.now ≤ 256) }
    requires room { 6 + 4 * length first.now + 4 * length second.now ≤ length space.old }
    ensures end { result ≡ 6 + 4 * length first.now + 4 * length second.now }
    ensures written { space.new
        ≡ over (request_file (map pair_of first.now) ++ request_file (map pair_of second.now)) space.old }
{
    let end = write_request(first, space);
    end + write_request(second, &mut space[end..])
}
