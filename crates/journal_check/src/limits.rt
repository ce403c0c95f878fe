/// The most bytes of a transcript.
pub const TRANSCRIPT_MOST: usize = 16_777_216;
