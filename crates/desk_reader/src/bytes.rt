// A line, byte by byte, and its number digit by digit: a piece that is fed may end anywhere, and there is no heap that would keep the digits.
ghost use Rattle.std.specs.Prelude.{◌≡◌};
ghost use Rattle.desk_reader.specs.Reader.{word_of, first_byte, first_digit, next_digit, line_byte};

// The word of a line.
#[derive(Clone, Copy, Debug, PartialEq, Eq)]
pub enum Key {
    Threshold,
    Log,
    Got,
}

// Where the bytes of a line so far have led: nowhere yet, into its word, into its number, or astray.
#[derive(Clone, Copy, Debug, PartialEq, Eq)]
pub enum Line {
    Fresh,
    Word { key: Key, at: usize },
    Value { key: Key, value: u32 },
    Bad,
}

impl Key {
    // The bytes of the word, its `=` included.
    fn word(self) -> &'static [u8]
        ensures { result.now ≡ word_of self }
    {
        match self {
            Key::Threshold => b"threshold=",
            Key::Log => b"log=",
            Key::Got => b"got=",
        }
    }
}

// The first byte tells the word.
#[tactic(auto, unfolding(crate::specs::Reader::first_byte))]
fn first_byte(b: u8) -> Line
    ensures { result ≡ first_byte b }
{
    let key = match b {
        b't' => Key::Threshold,
        b'l' => Key::Log,
        b'g' => Key::Got,
        _ => return Line::Bad,
    };
    Line::Word { key, at: 1 }
}

// The byte behind the word is a digit.
#[tactic(auto, unfolding(crate::specs::Reader::first_digit))]
fn first_digit(key: Key, b: u8) -> Line
    ensures { result ≡ first_digit key b }
{
    if !b.is_ascii_digit() {
        return Line::Bad;
    }
    Line::Value {
        key,
        value: u32::from(b - b'0'),
    }
}

// A digit behind others that say `value`. Behind a leading zero there is none.
#[tactic(auto, unfolding(crate::specs::Reader::next_digit))]
fn next_digit(key: Key, value: u32, b: u8) -> Line
    ensures { result ≡ next_digit key value b }
{
    if value == 0 || !b.is_ascii_digit() {
        return Line::Bad;
    }
    let Some(tens) = value.checked_mul(10) else {
        return Line::Bad;
    };
    let Some(value) = tens.checked_add(u32::from(b - b'0')) else {
        return Line::Bad;
    };
    Line::Value { key, value }
}

impl Line {
    // The line with one byte more, which is not its LF.
    #[tactic(auto, unfolding(crate::specs::Reader::line_byte, crate::specs::Reader::word_byte))]
    pub(crate) fn followed_by(self, b: u8) -> Line
        ensures { result ≡ line_byte self b }
    {
        match self {
            Line::Fresh => first_byte(b),
            Line::Word { key, at } => match key.word().get(at) {
                Some(next) if *next == b => Line::Word { key, at: at + 1 },
                Some(_) => Line::Bad,
                None => first_digit(key, b),
            },
            Line::Value { key, value } => next_digit(key, value, b),
            Line::Bad => Line::Bad,
        }
    }
}
