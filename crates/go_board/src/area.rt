/// How many points of a board count for each colour.
#[derive(Clone, Copy, Debug, PartialEq, Eq)]
pub struct Area {
    pub black: u16,
    pub white: u16,
}
