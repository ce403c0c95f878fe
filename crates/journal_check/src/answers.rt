/// What an audit of a transcript answers.
#[derive(Clone, Copy, Debug, PartialEq, Eq)]
pub enum Audit {
    /// No line breaks a rule: how many lines there are.
    Sound(u64),
    /// A line breaks a rule: the first such line, from 1, and the least rule that it breaks.
    Broken(u64, u8),
}
