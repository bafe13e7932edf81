//! The values of the first node that hold for the whole game: GM, SZ, KM and RE. One pass over the node finds
//! the four values. Then GM, SZ and KM are checked, in this order.
ghost use Rattle.std.specs.Prelude.{◌≡◌, ◌==◌, Err, IfErr, IfOk, IfSome, IsTrue, ℕ, List, [], ◌∷◌, Option, position};
ghost use Rattle.go_board.specs.Komi.{IsKomi};
ghost use Rattle.go_record.specs.inner.Progress.{AreFoundOf, IsRootOf, Says, value_from};
ghost use Rattle.go_record.specs.Games.{IsGameOf, first_node, is_blank_value, is_go_value, is_number_one, komi_in, lines_in, number_by, number_of_both};
ghost use Rattle.go_record.specs.MainLine.{leading_value};
ghost use Rattle.go_sgf.specs.Record.{Property, Trees};
ghost use Rattle.go_sgf.specs.Spelling.{OfRecord};

use crate::error::RecordError;
use crate::values::first_value;
use go_board::Size;
use go_sgf::{Checked, MainLine, hundredths_of, is_named, number_of, trim};
use memchr::memchr;

/// The number of lines of a board whose record has no SZ.
pub const USUAL_LINES: u8 = 19;

/// The first GM, SZ, KM and RE of the first node, each by its first value. Empty where there is none.
#[derive(Clone, Copy)]
pub(crate) struct RootValues<'a> {
    /// GM.
    pub(crate) game: &'a [u8],
    /// SZ.
    pub(crate) size: &'a [u8],
    /// KM.
    pub(crate) komi: &'a [u8],
    /// RE.
    pub(crate) result: &'a [u8],
}

/// The values at the root of a record. It isn't inlined into `judge_source`: there the compiler would empty
/// more of the room for a `Game`.
#[inline(never)]
pub(crate) fn root_values<'a>(checked: &Checked<'a>) -> RootValues<'a>
    ensures { OfRecord checked.now (IsRootOf result) }
{
    let mut cursor = MainLine::of(checked);
    let mut found = Found::nothing();
    if !cursor.next_node() {
        return found.values();
    }
    while let Some(name) = cursor.next_name() {
        let value = first_value(&mut cursor);
        found.keep(name, value);
        if found.is_whole() {
            return found.values();
        }
    }
    found.values()
}

/// The values found so far in a record's first node: the first value of the first property with each name.
#[derive(Clone, Copy)]
struct Found<'a> {
    game: Option<&'a [u8]>,
    size: Option<&'a [u8]>,
    komi: Option<&'a [u8]>,
    result: Option<&'a [u8]>,
}

impl<'a> Found<'a> {
    /// Nothing is found before the first property.
    fn nothing() -> Found<'a>
        ensures { (c : Trees) → AreFoundOf result (first_node c) c }
    {
        Found {
            game: None,
            size: None,
            komi: None,
            result: None,
        }
    }

    /// Takes the name and the first value of the next property.
    fn keep(&mut self, name: &[u8], value: &'a [u8])
        ensures { (p : Property) (later : List Property) (c : Trees) → name.now ≡ p.name
            → value.now ≡ leading_value p.values → AreFoundOf self.old (p ∷ later) c
            → AreFoundOf self.new later c }
    {
        keep_named(&mut self.game, b"GM", name, value);
        keep_named(&mut self.size, b"SZ", name, value);
        keep_named(&mut self.komi, b"KM", name, value);
        keep_named(&mut self.result, b"RE", name, value);
    }

    /// Whether a property with each name was found, so that later ones don't count.
    fn is_whole(&self) -> bool
        ensures { IsTrue result → (remaining : List Property) (c : Trees) → AreFoundOf self.now remaining c
            → AreFoundOf self.now [] c }
    {
        self.game.is_some() && self.size.is_some() && self.komi.is_some() && self.result.is_some()
    }

    /// The values that were found.
    fn values(&self) -> RootValues<'a>
        ensures { (c : Trees) → AreFoundOf self.now [] c → IsRootOf result c }
    {
        RootValues {
            game: self.game.unwrap_or(b""),
            size: self.size.unwrap_or(b""),
            komi: self.komi.unwrap_or(b""),
            result: self.result.unwrap_or(b""),
        }
    }
}

/// Keeps a property's first value, if it is the first property with the wanted name.
fn keep_named<'a>(found: &mut Option<&'a [u8]>, wanted: &[u8], name: &[u8], value: &'a [u8])
    ensures { (p : Property) (later : List Property) → name.now ≡ p.name
        → value.now ≡ leading_value p.values
        → value_from wanted.now found.new later ≡ value_from wanted.now found.old (p ∷ later) }
{
    if found.is_none() && is_named(name, wanted) {
        *found = Some(value);
    }
}

/// The size and the komi of a record's game.
#[derive(Clone, Copy)]
pub(crate) struct Root {
    pub(crate) size: Size,
    pub(crate) komi: i64,
    pub ghost in_range: { IsKomi komi },
}

/// The size and the komi of a record, or the first refusal in this order: the game, the size, the komi.
pub(crate) fn root_of(values: &RootValues<'_>) -> Result<Root, RecordError>
    ensures ok { (c : Trees) → IsRootOf values.now c
        → IfOk result (λ root. Says c root.size root.komi) }
    ensures err { (c : Trees) → IsRootOf values.now c
        → IfErr result (λ e. (number : Option ℕ) → IsGameOf c number (Err e)) }
{
    if !is_go(values.game) {
        return Err(RecordError::NotGo);
    }
    let Some(size) = size_of(values.size) else {
        return Err(RecordError::BadSize);
    };
    match komi_of(values.komi) {
        Some(komi) => Ok(Root { size, komi }),
        None => Err(RecordError::BadKomi),
    }
}

/// Whether a GM value says that the game is Go. A value of white space alone, or an empty one, says so too.
pub(crate) fn is_go(value: &[u8]) -> bool
    ensures { result ≡ is_go_value value.now }
{
    is_blank(value) || is_one(number_of(value))
}

fn is_one(number: Option<u32>) -> bool
    ensures { result ≡ is_number_one number }
{
    match number {
        Some(number) => number == 1,
        None => false,
    }
}

/// Whether a value has nothing but white space.
fn is_blank(value: &[u8]) -> bool
    ensures { result ≡ is_blank_value value.now }
{
    trim(value).is_empty()
}

/// The size in an SZ value: one number, or two that are equal. A blank value gives 19 lines.
pub(crate) fn size_of(value: &[u8]) -> Option<Size>
    ensures { result ≡ lines_in value.now }
{
    if is_blank(value) {
        return Size::of(u32::from(USUAL_LINES));
    }
    match lines_number(value) {
        Some(number) => Size::of(number),
        None => None,
    }
}

fn lines_number(value: &[u8]) -> Option<u32>
    ensures { result ≡ number_by value.now (position (λ b. b == 58) value.now) }
{
    match memchr(b':', value) {
        Some(place) => {
            let (columns, rows) = value.split_at(place);
            same_number(number_of(columns), number_of(rows.split_at(1).1))
        }
        None => number_of(value),
    }
}

fn same_number(columns: Option<u32>, rows: Option<u32>) -> Option<u32>
    ensures { result ≡ number_of_both columns rows }
{
    match (columns, rows) {
        (Some(columns), Some(rows)) if columns == rows => Some(columns),
        _ => None,
    }
}

/// The komi in a KM value, in hundredths of a point. A blank value gives 0.
pub(crate) fn komi_of(value: &[u8]) -> Option<i64>
    ensures value { result ≡ komi_in value.now }
    ensures range { IfSome result IsKomi }
{
    if is_blank(value) {
        Some(0)
    } else {
        hundredths_of(value)
    }
}
