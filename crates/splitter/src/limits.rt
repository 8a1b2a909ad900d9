//! The limits of what works a view: a crew, or a core.

/// The most workers.
pub const MOST_WORKERS: u32 = 16;

/// The largest grain.
pub const MOST_GRAIN: u64 = 65_536;
