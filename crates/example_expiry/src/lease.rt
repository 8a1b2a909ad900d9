//! What the registry has of a name: until when it is leased.

use keys::ByteText;
use std::alloc::{AllocError, Global};
use std::sync::Arc;

/// A lease, until a second of the clock.
#[derive(Clone, Copy, Debug, PartialEq, Eq)]
pub struct Lease {
    pub until: u64,
}

/// The key of a name.
pub fn name(alloc: Global, text: &str) -> Result<Arc<ByteText>, AllocError> {
    Ok(Arc::new(alloc, ByteText::from_text(alloc, text)?)?)
}

/// The value of a lease.
pub fn until(alloc: Global, second: u64) -> Result<Arc<Lease>, AllocError> {
    Ok(Arc::new(alloc, Lease { until: second })?)
}
