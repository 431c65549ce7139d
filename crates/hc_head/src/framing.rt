//! How the body of an answer is framed.

/// How long the body of an answer is (RFC 9112 section 6.3).
#[derive(Clone, Copy, Debug, PartialEq, Eq)]
pub enum Framing {
    /// There is none.
    Bodiless,
    /// In chunks (section 7.1).
    Chunked,
    /// So many bytes.
    Counted(u64),
    /// Up to the close of the connection.
    ToClose,
}
