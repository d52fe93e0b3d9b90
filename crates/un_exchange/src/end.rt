//! How a link ends.

use un_publish::session::Denied;

/// How a link ended.
#[derive(Clone, Copy, Debug, PartialEq, Eq)]
pub enum LinkEnd {
    /// The input ended between requests, or a request asked to close the link after its response.
    Closed,
    /// The input ended inside a request, after this many of its bytes.
    Cut { bytes: u64 },
    /// A head that can't be read, or lengths that are not all the same number. 400 was sent.
    BadHead,
    /// A head or a body that is too long. 431 or 413 was sent.
    TooLarge,
    /// A POST without a length. 411 was sent.
    NoLength,
    /// A header that is not supported. 501 was sent.
    NotSupported,
    /// A read failed, and the link has counted it.
    ReadFault,
    /// A write failed, and the link has counted it.
    WriteFault,
    /// The session can't go on. 500 was sent.
    Denied(Denied),
    /// Out of memory. 503 was sent.
    Memory,
}
