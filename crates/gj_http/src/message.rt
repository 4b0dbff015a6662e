//! What a framer hands out.

/// The method of a request. Names are compared as they stand, with regard to case.
#[derive(Clone, Copy, Debug, PartialEq, Eq)]
pub enum Method {
    /// `GET`.
    Get,
    /// `POST`.
    Post,
    /// Any other.
    Other,
}

/// A whole request, lent by the framer until its next call.
#[derive(Clone, Copy)]
pub struct Message<'a> {
    /// What the request line names.
    pub method: Method,
    /// The target up to its first `?`.
    pub path: &'a str,
    /// The bytes after the head, of the stated length.
    pub body: &'a [u8],
    /// The connection ends after the reply.
    pub close: bool,
}

/// Why the bytes are no message. Nothing after a refusal is read, so its connection is closed after the reply.
#[derive(Clone, Copy, Debug, PartialEq, Eq)]
pub enum Refused {
    /// The head is none of the grammar, or has more than 64 field lines.
    Head,
    /// The head does not end within the first 8192 bytes, empty lines before it counted.
    HeadLong,
    /// A field is named `Transfer-Encoding`.
    Coded,
    /// Two fields or more are named `Content-Length`, or the value is not one ASCII digit or more.
    Length,
    /// The stated length is above 1048576.
    BodyLong,
}

/// What stands at the front of the held bytes.
#[derive(Clone, Copy)]
pub enum Step<'a> {
    /// A whole message, which the framer holds no more.
    Message(Message<'a>),
    /// The bytes are the beginning of a message, or empty lines, or none.
    NeedMore,
    /// No bytes that may follow make a message of these. It stands until `reset`.
    Refused(Refused),
}
