/// A place in a text: lines count from 1 and end at a line feed, columns count bytes from 1.
#[derive(Clone, Copy, Debug, PartialEq, Eq)]
pub struct Spot {
    pub line: u32,
    pub col: u32,
}
