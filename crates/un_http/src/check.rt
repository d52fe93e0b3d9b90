//! Why a request is refused before its body is read.

/// The check that a request failed. Its response has the status named here, and the link closes after it.
#[derive(Clone, Copy, Debug, PartialEq, Eq)]
pub enum Check {
    /// The block is not a request head, or its lengths are not all the same number: 400.
    BadHead,
    /// The block doesn't end within 8,192 bytes, or has more than 32 headers: 431.
    ManyHeaders,
    /// There is a `Transfer-Encoding` or an `Expect` header: 501.
    NotSupported,
    /// The length is over 1,048,576: 413.
    LongBody,
    /// The method is POST and there is no length: 411.
    NoLength,
}
