// Numbers of 32 bits as four bytes, least first.
//
// Parts, and no entry points: `put_u32` asks that there is room, `read_u32` that the four bytes are there.
ghost use Rattle.std.specs.Prelude.{◌≡◌, ◌+◌, ◌<◌, ◌≤◌, length};
ghost use Rattle.text.specs.Writing.{Room, Wrote};
ghost use Rattle.text.specs.LittleEndian.{le32, value32};

use crate::writer::put_text;

// A number as four bytes at a place, least first; the place after them.
pub fn put_u32(out: &mut [u8], at: usize, n: u32) -> usize
    requires { Room out.old at (le32 n) }
    ensures { Wrote out.old at (le32 n) out.new result }
{
    put_text(out, at, &n.to_le_bytes())
}

// The four bytes from a place on, least first, as a number.
pub fn read_u32(bytes: &[u8], at: usize) -> u32
    requires { at + 4 ≤ length bytes.now }
    ensures { result ≡ value32 bytes.now at }
{
    u32::from_le_bytes([bytes[at], bytes[at + 1], bytes[at + 2], bytes[at + 3]])
}
