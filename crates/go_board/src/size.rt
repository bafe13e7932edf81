//! The limits of a board, and a number of lines that is known to be within them.
ghost use Rattle.std.specs.Prelude.{◌≡◌, ◌≤◌, ◌<◌, ◌↔◌, ◌*◌, IsSome, IfSome};
ghost use Rattle.go_board.specs.declared.size.TheConstants.{MAX_LINES};

use std::marker::Model;

/// The most lines that a board has.
pub const MAX_LINES: u8 = 25;

/// The most points that a board has.
pub const MAX_POINTS: usize = MAX_LINES as usize * MAX_LINES as usize;

/// The number of lines of a square board, from 1 to [`MAX_LINES`].
#[derive(Clone, Copy, Debug, PartialEq, Eq)]
pub struct Size {
    lines: u8,
}

impl Model for Size {
    ghost use Rattle.std.specs.Prelude.{ℕ, ◌<◌, ◌≤◌};
    ghost use Rattle.go_board.specs.declared.size.TheConstants.{MAX_LINES};

    ghost Value = { ℕ };

    ghost view = { λ s. s.lines };

    ghost invariant = { λ s. (0 < s.lines) × (s.lines ≤ MAX_LINES) };

    ghost inverse = { λ n. record { lines = n } };
}

impl Size {
    ghost use Rattle.go_board.specs.Sizes.{size_with};

    /// The size with this number of lines, or none where no board has that many.
    pub fn new(lines: u8) -> Option<Size>
        ensures range { IsSome result ↔ ((0 < lines) × (lines ≤ MAX_LINES)) }
        ensures value { IfSome result (λ size. size ≡ lines) }
    {
        if lines == 0 || lines > MAX_LINES {
            None
        } else {
            Some(Size { lines })
        }
    }

    /// The size with this number of lines, which may be any number.
    pub fn of(lines: u32) -> Option<Size>
        ensures { result ≡ size_with lines }
    {
        match u8::try_from(lines) {
            Ok(lines) => Size::new(lines),
            Err(_) => None,
        }
    }

    /// The number of lines.
    pub fn lines(self) -> u8
        ensures value { result ≡ self }
        ensures range { (0 < result) × (result ≤ MAX_LINES) }
    {
        self.lines
    }

    /// The number of points: the square of the number of lines.
    pub fn points(self) -> u16
        ensures value { result ≡ self * self }
        ensures range { (0 < result) × (result ≤ MAX_POINTS) }
    {
        let lines = u16::from(self.lines);
        lines * lines
    }
}
