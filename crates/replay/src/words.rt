// The words of a line: a name, then values with one space before each word, then a line feed.
ghost use Rattle.std.specs.Prelude.{◌≤◌};

use layout::IsomorphicLayout;
use layout_retuning::Retuning;
use mos::Mos;

// What is left of a line.
#[derive(Clone, Copy)]
pub(crate) struct Words<'a> {
    left: &'a [u8],
}

// A value that a line has: one word, or several in a row.
pub(crate) trait Read: Sized {
    fn read(words: &mut Words) -> Option<Self>;
}

impl<'a> Words<'a> {
    // What is left, up to a space, the line feed or the end.
    fn cut(&mut self) -> &'a [u8] {
        let left = self.left;
        let end = left
            .iter()
            .position(|byte| *byte == b' ' || *byte == b'\n')
            .unwrap_or(left.len());
        let (word, behind) = left.split_at(end);
        self.left = behind;
        word
    }

    // All behind a space.
    pub(crate) fn behind_space(self) -> Option<&'a [u8]> {
        match self.left {
            [b' ', behind @ ..] => Some(behind),
            _ => None,
        }
    }

    // The next word.
    fn word(&mut self) -> Option<&'a [u8]> {
        self.left = self.behind_space()?;
        Some(self.cut())
    }

    // The next value.
    pub(crate) fn read<T: Read>(&mut self) -> Option<T> {
        T::read(self)
    }

    // Whether nothing is left but the line feed.
    pub(crate) fn at_end(&self) -> bool {
        matches!(self.left, [b'\n'])
    }
}

// A line: how many elements it lends for the answer, its name, and the words behind that.
#[derive(Clone, Copy)]
pub(crate) struct Line<'a> {
    pub(crate) room: u16,
    pub(crate) name: &'a [u8],
    pub(crate) words: Words<'a>,
}

impl<'a> Line<'a> {
    pub(crate) fn new(bytes: &'a [u8]) -> Option<Line<'a>> {
        let mut words = Words { left: bytes };
        let first = words.cut();
        match natural(first) {
            None => Some(Line {
                room: u16::MAX,
                name: first,
                words,
            }),
            Some(number) => {
                let room = u16::try_from(number).ok()?;
                let name = words.word()?;
                Some(Line { room, name, words })
            }
        }
    }
}

// The number that digits are.
fn natural(digits: &[u8]) -> Option<u32> {
    if digits.len() == 0 {
        return None;
    }
    let mut value: u32 = 0;
    for digit in digits {
        if !digit.is_ascii_digit() {
            return None;
        }
        value = value.checked_mul(10)?.checked_add((*digit - b'0') as u32)?;
    }
    Some(value)
}

// The number that digits are, with a minus before them where it is below 0; there is no -0.
fn whole(word: &[u8]) -> Option<i64> {
    match word {
        [b'-', digits @ ..] => match natural(digits)? {
            0 => None,
            number => Some(-(number as i64)),
        },
        _ => Some(natural(word)? as i64),
    }
}

impl Read for u32 {
    fn read(words: &mut Words) -> Option<u32> {
        natural(words.word()?)
    }
}

impl Read for u16 {
    fn read(words: &mut Words) -> Option<u16> {
        u16::try_from(natural(words.word()?)?).ok()
    }
}

impl Read for u8 {
    fn read(words: &mut Words) -> Option<u8> {
        u8::try_from(natural(words.word()?)?).ok()
    }
}

impl Read for i16 {
    fn read(words: &mut Words) -> Option<i16> {
        i16::try_from(whole(words.word()?)?).ok()
    }
}

impl Read for i32 {
    fn read(words: &mut Words) -> Option<i32> {
        i32::try_from(whole(words.word()?)?).ok()
    }
}

// The upper and the lower half of a double's bits.
impl Read for f64 {
    fn read(words: &mut Words) -> Option<f64> {
        let upper: u32 = words.read()?;
        let lower: u32 = words.read()?;
        Some(of_bits(4294967296 * (upper as u64) + lower as u64))
    }
}

// The double of these bits, of which all above those of an infinity are of no number, the sign aside.
fn of_bits(bits: u64) -> f64 {
    if 9218868437227405312 < bits % 9223372036854775808 {
        return 0.0 / 0.0;
    }
    f64::from_bits(bits)
}

// Primary and secondary count, primary and secondary step.
impl Read for Mos {
    fn read(words: &mut Words) -> Option<Mos> {
        Some(Mos {
            num_primary_steps: words.read()?,
            num_secondary_steps: words.read()?,
            primary_step: words.read()?,
            secondary_step: words.read()?,
        })
    }
}

// A chain code, the step counts of octave and tritave, and a start.
impl Read for IsomorphicLayout {
    fn read(words: &mut Words) -> Option<IsomorphicLayout> {
        Some(IsomorphicLayout {
            genchain: words.read()?,
            octave: words.read()?,
            tritave: words.read()?,
            start: words.read()?,
        })
    }
}

// The same without a start: the chain's own.
pub(crate) fn default_layout(words: &mut Words) -> Option<IsomorphicLayout> {
    Some(layout::default_layout(words.read()?, words.read()?, words.read()?))
}

// A chain code, the step count of an octave, a start, and the step counts of the tritave before and after.
impl Read for Retuning {
    fn read(words: &mut Words) -> Option<Retuning> {
        Some(Retuning {
            genchain: words.read()?,
            octave: words.read()?,
            start: words.read()?,
            from_tritave: words.read()?,
            to_tritave: words.read()?,
        })
    }
}

// At most 256 values, which end the line.
#[derive(Drop)]
pub(crate) struct List<T> {
    items: [T; 256],
    count: usize,
    ghost within: { count ≤ 256 },
}

impl<T> List<T> {
    pub(crate) fn as_slice(&self) -> &[T] {
        &self.items[..self.count]
    }
}

impl<T: Read + Copy + Default> Read for List<T> {
    fn read(words: &mut Words) -> Option<List<T>> {
        let mut items = [T::default(); 256];
        for count in 0..256 {
            if words.at_end() {
                return Some(List { items, count });
            }
            items[count] = words.read()?;
        }
        Some(List { items, count: 256 })
    }
}
