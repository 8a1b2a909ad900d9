//! What workers are returned.

use hash_path::Bound;

/// What a worker's move on an open job returns. An interval is given by its first position and the one after
/// its last.
#[derive(Clone, Copy, Debug, PartialEq, Eq)]
pub enum Progress {
    /// It holds this interval now.
    Took(Bound, Bound),
    /// What it held is cut at the middle position: it holds the lower interval, and the upper one waits in its queue.
    Cut(Bound, Bound, Bound),
    /// What it holds has no cut point.
    Whole,
    /// It has worked this interval, with this many pairs; and whether its part is settled.
    Worked(Bound, Bound, u64, bool),
    /// There was nothing to do.
    Idle,
}
