//! The two colours, and the letters, words and numbers that name them.
ghost use Rattle.std.specs.Prelude.{◌≡◌, ◌<◌, ◌↔◌, IsTrue, Some};
ghost use Rattle.go_board.specs.Colours.{is_same_word};

/// The colour of a stone, and of the player who has the stones of that colour.
#[derive(Clone, Copy, Debug, PartialEq, Eq, PartialOrd, Ord, Hash)]
pub enum Colour {
    Black,
    White,
}

impl Colour {
    ghost use Rattle.go_board.specs.Colours.{colour_named, letter_of, other};
    ghost use Rattle.go_board.specs.Packs.{code_of, colour_coded};

    /// The opponent's colour.
    pub fn other(self) -> Colour
        ensures { result ≡ other self }
    {
        match self {
            Colour::Black => Colour::White,
            Colour::White => Colour::Black,
        }
    }

    /// The letter of the colour, in ASCII: `B` or `W`.
    pub fn letter(self) -> u8
        ensures { result ≡ letter_of self }
    {
        match self {
            Colour::Black => b'B',
            Colour::White => b'W',
        }
    }

    /// The colour that a word names: `b`, `black`, `w` or `white`, in upper or lower case.
    pub fn named(word: &[u8]) -> Option<Colour>
        ensures { result ≡ colour_named word.now }
    {
        if is_word(word, b"b") || is_word(word, b"black") {
            return Some(Colour::Black);
        }
        if is_word(word, b"w") || is_word(word, b"white") {
            return Some(Colour::White);
        }
        None
    }

    /// The number of the colour in packs and tables, where 0 is an empty point.
    pub fn code(self) -> u64
        ensures value { result ≡ code_of (Some self) }
        ensures range { (0 < result) × (result < 3) }
    {
        match self {
            Colour::Black => 1,
            Colour::White => 2,
        }
    }

    /// The colour of such a number. None for 0, and for a number of no colour.
    pub fn coded(code: u64) -> Option<Colour>
        ensures { result ≡ colour_coded code }
    {
        match code {
            1 => Some(Colour::Black),
            2 => Some(Colour::White),
            _ => None,
        }
    }
}

fn is_word(word: &[u8], name: &[u8]) -> bool
    ensures { result ≡ is_same_word word.now name.now }
{
    word.eq_ignore_ascii_case(name)
}

/// Whether two points have the same colour. `None` is an empty point's.
pub fn is_same(a: Option<Colour>, b: Option<Colour>) -> bool
    ensures { IsTrue result ↔ (a ≡ b) }
{
    a == b
}
