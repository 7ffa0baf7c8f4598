// What a host is told of the text that was printed for it.

// How many bytes stand at the buffer's front, and whether they are the line of a refusal. A struct, since the length is that of either.
#[derive(Clone, Copy, Debug, PartialEq, Eq)]
pub struct SheetText {
    pub length: usize,
    pub refused: bool,
}
