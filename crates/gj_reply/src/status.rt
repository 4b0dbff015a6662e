//! The statuses of replies.

/// The status of a reply.
#[derive(Clone, Copy, Debug, PartialEq, Eq)]
pub enum Status {
    /// 200: the message was answered.
    Ok,
    /// 400: the head, the length or the body is not as it must be.
    BadRequest,
    /// 404: no route has the path.
    NotFound,
    /// 405: the path's route takes GET alone.
    OnlyGet,
    /// 405: the path's route takes POST alone.
    OnlyPost,
    /// 409: the history is full, too short for the ask or past the place that it asks for, or the batch's number is not its
    /// producer's next.
    Conflict,
    /// 413: the body is above the largest length.
    TooLarge,
    /// 431: the head does not end within its limit.
    HeadLong,
    /// 501: the body is sent in a transfer coding.
    NotImplemented,
    /// 503: memory, the store or a look was refused.
    Unavailable,
}
