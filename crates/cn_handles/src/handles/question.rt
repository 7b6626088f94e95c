//! What is asked of a lane.

/// What is asked of a lane.
#[derive(Clone, Copy)]
pub enum Question {
    /// How many clients more it may let in.
    Quota,
    /// How many of its clients are inside.
    Inside,
    /// How many grants it has.
    Grants,
    /// How many entries its network has.
    Entries,
    /// How many exits its network has.
    Exits,
}
