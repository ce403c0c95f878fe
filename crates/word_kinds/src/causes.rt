/// Why a script is refused.
#[derive(Clone, Copy, Debug, PartialEq, Eq)]
pub enum Cause {
    /// It has more than 1,048,576 bytes.
    Size,
    /// It has more than 10,000 lines.
    Lines,
    /// A line has a byte that is no visible character of ASCII and no space.
    Byte,
    /// A line is where its like may not be: a command within an image, a recipe line outside
    /// of one or after another than it needs; or the end of an image is missing.
    Block,
    /// The first word of a line begins no command and no recipe line.
    Command,
    /// A line has too few or too many words.
    Words,
    /// A word isn't of its kind.
    Value,
}
