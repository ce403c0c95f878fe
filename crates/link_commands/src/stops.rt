/// Why a run stops in its midst.
#[derive(Clone, Copy)]
pub enum Stop {
    /// It was to take one step more than it may.
    StepLimit,
}
