//! What the registry has of a service: its name is the key, and where it listens is the value.

use keys::ByteText;
use std::alloc::{AllocError, Global};
use std::fmt;
use std::sync::Arc;

/// Where a service listens.
#[derive(Clone, Copy, Debug, PartialEq, Eq)]
pub struct Endpoint {
    pub host: &'static str,
    pub port: u16,
}

impl fmt::Display for Endpoint {
    fn fmt<W: fmt::Write>(&self, f: &mut fmt::Formatter<W>) -> fmt::Result {
        write!(f, "{}:{}", self.host, self.port)
    }
}

/// The key of a service. Keys and values go into a map as `Arc`s, so that snapshots and callers share them.
pub fn name(alloc: Global, text: &str) -> Result<Arc<ByteText>, AllocError> {
    Ok(Arc::new(alloc, ByteText::from_text(alloc, text)?)?)
}

/// The value of a service.
pub fn at(alloc: Global, host: &'static str, port: u16) -> Result<Arc<Endpoint>, AllocError> {
    Ok(Arc::new(alloc, Endpoint { host, port })?)
}
