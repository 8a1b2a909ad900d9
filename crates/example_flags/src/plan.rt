//! What a tenant pays for.

/// What a tenant pays for. A map has its number as the key.
#[derive(Clone, Copy)]
pub enum Plan {
    Free,
    Team,
    Enterprise,
}

impl Plan {
    /// The number of the plan.
    pub fn number(self) -> u8 {
        self as u8
    }
}
