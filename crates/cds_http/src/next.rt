//! What a stream has next.

/// A range of `Messages::bytes`: the bytes from `start` on that stand before `end`.
#[derive(Clone, Copy, Debug, PartialEq, Eq)]
pub struct Span {
    pub start: u32,
    pub end: u32,
}

/// A whole request, as ranges of `Messages::bytes`.
#[derive(Clone, Copy, Debug, PartialEq, Eq)]
pub struct Request {
    /// The method, as `GET`.
    pub method: Span,
    /// The request target, with its query.
    pub path: Span,
    /// The body, which ends where the message ends.
    pub body: Span,
    /// 0 for HTTP/1.0, and 1 for HTTP/1.1.
    pub version: u8,
    /// Whether the connection closes after the response: exactly where the version is 1.0 or a field `Connection`
    /// holds the token `close`.
    pub close: bool,
}

/// Why the stream is no list of messages. A place is the number of bytes of the stream before the message.
#[derive(Clone, Copy, Debug, PartialEq, Eq)]
pub enum Fault {
    /// The head is none by the grammar, or it has two fields `Content-Length`, or one whose value isn't 1 to 19 digits.
    Head(u64),
    /// The input ended within the message.
    Truncated(u64),
    /// The message has a field `Transfer-Encoding`.
    LengthRequired(u64),
    /// The stated length of the body is above `MOST_BODY_BYTES`.
    BodyTooLarge,
    /// The head didn't end within `MOST_HEAD_BYTES`.
    HeadTooLarge,
    /// The request line and `MOST_FIELDS` and one further lines have ended, and none of them is empty.
    TooManyFields,
}

/// What a stream has next.
#[derive(Clone, Copy, Debug, PartialEq, Eq)]
pub enum Next {
    /// Nothing that is whole: more of the stream has to come.
    More,
    /// A head that asks for `100 Continue` before its body is sent.
    Continue,
    /// A whole request.
    Request(Request),
    /// The stream is no list of messages from here on.
    Fault(Fault),
}
