// The stores that all texts are made of.
//
// Parts, and no entry points: each asks that there is room. An entry point first answers question 10, and then calls them.
ghost use Rattle.std.specs.Prelude.{◌+◌, ◌<◌, [], ◌∷◌, length, replicate};
ghost use Rattle.text.specs.Writing.{Room, Wrote};

// One byte at a place; the place after it.
pub fn put_byte(out: &mut [u8], at: usize, byte: u8) -> usize
    requires { Room out.old at (byte ∷ []) }
    ensures { Wrote out.old at (byte ∷ []) out.new result }
{
    out[at] = byte;
    at + 1
}

// One element as often as `count` says, a byte or a number; the place after the last.
pub fn put_run<T: Copy>(out: &mut [T], at: usize, element: T, count: u16) -> usize
    requires { Room out.old at (replicate count element) }
    ensures { Wrote out.old at (replicate count element) out.new result }
{
    let end = at + count as usize;
    for place in at..end {
        out[place] = element;
    }
    end
}

// The bytes of a text from a place on; the place after the last.
pub fn put_text(out: &mut [u8], at: usize, text: &[u8]) -> usize
    requires { Room out.old at text.now }
    ensures { Wrote out.old at text.now out.new result }
{
    let end = at + text.len();
    out[at..end].copy_from_slice(text);
    end
}
