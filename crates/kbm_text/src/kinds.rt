// What a line says: parts, and no entry points. They ask for nothing.
ghost use Rattle.std.specs.Prelude.{◌≡◌};
ghost use Rattle.kbm_text.specs.Kinds.{kind_of, is_comment_kind};
ghost use Rattle.kbm_text.specs.Parts.{NumberRead};

// What a line says.
#[derive(Clone, Copy)]
pub enum Kind {
    // a number of 1 to 5 digits
    Number(u32),
    // 440.000000
    Frequency,
    // x
    Mark,
    // begins with an exclamation mark
    Comment,
    Other,
}

// The number that a line says, if it says one.
fn number_in(line: &[u8]) -> Option<u32>
    ensures { NumberRead line.now result }
{
    if line.len() < 1 {
        return None;
    }
    if 5 < line.len() {
        return None;
    }
    let mut value: u32 = 0;
    for &byte in line {
        if byte < b'0' {
            return None;
        }
        if b'9' < byte {
            return None;
        }
        value = 10 * value + u32::from(byte - b'0');
    }
    Some(value)
}

// A line's kind, by its bytes without the line feed.
pub(crate) fn kind_of(line: &[u8]) -> Kind
    ensures { result ≡ kind_of line.now }
{
    if line.len() < 1 {
        return Kind::Other;
    }
    if line[0] == b'!' {
        return Kind::Comment;
    }
    if line == b"x".as_slice() {
        return Kind::Mark;
    }
    if line == b"440.000000".as_slice() {
        return Kind::Frequency;
    }
    match number_in(line) {
        Some(n) => Kind::Number(n),
        None => Kind::Other,
    }
}

// Is it a line that is skipped?
pub(crate) fn is_comment(kind: Kind) -> bool
    ensures { result ≡ is_comment_kind kind }
{
    matches!(kind, Kind::Comment)
}
