//! Requests as they are sent.
use std::alloc::{AllocError, Global};

/// A request that adds the type `bbb`.
pub const FIRST_TYPE: &[u8] =
    b"POST /types HTTP/1.1\r\nx-user: admin\r\ncontent-length: 14\r\n\r\n{\"name\":\"bbb\"}";

/// A request: who asks, the method and the path, and the body.
pub fn request(alloc: Global, who: &str, line: &str, body: &str) -> Result<String, AllocError> {
    let length = body.len();
    format!(in alloc; "{line} HTTP/1.1\r\nx-user: {who}\r\ncontent-length: {length}\r\n\r\n{body}")
}
