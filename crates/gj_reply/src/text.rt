//! The status and the body of a reply.
ghost use Rattle.std.specs.Prelude.{◌≡◌, IfOk};
ghost use Rattle.gj_reply.specs.Bodies.{body_of};
ghost use Rattle.gj_reply.specs.Statuses.{status_of};

use crate::bodies::put_reply;
use crate::reply::Reply;
use crate::room::room_for;
use crate::status::Status;
use gj_base::Memory;
use std::alloc::Global;

/// A reply's status and body.
#[derive(Debug, Drop)]
pub struct Text {
    pub status: Status,
    pub body: Vec<u8>,
}

/// The text of the reply. It takes memory once, by a bound on the body's length.
pub fn write_reply(alloc: Global, reply: &Reply) -> Result<Text, Memory>
    ensures status { IfOk result (λ t. t.status ≡ status_of reply.now) }
    ensures body { IfOk result (λ t. t.body.items ≡ body_of reply.now) }
{
    let mut body = empty_body(alloc, room_for(reply))?;
    put_reply(&mut body, reply)?;
    Ok(Text {
        status: status_for(reply),
        body,
    })
}

ghost use Rattle.std.specs.Prelude.{[]};

fn empty_body(alloc: Global, room: usize) -> Result<Vec<u8>, Memory>
    ensures { IfOk result (λ body. body.items ≡ []) }
{
    match Vec::with_capacity(alloc, room) {
        Ok(body) => Ok(body),
        Err(_) => Err(Memory),
    }
}

fn status_for(reply: &Reply) -> Status
    ensures { result ≡ status_of reply.now }
{
    match reply {
        Reply::Posted { .. }
        | Reply::Repeated { .. }
        | Reply::Walk { .. }
        | Reply::Subgraph { .. }
        | Reply::Similar { .. }
        | Reply::Count { .. }
        | Reply::User { .. }
        | Reply::Post { .. }
        | Reply::Stats { .. }
        | Reply::Log { .. } => Status::Ok,
        Reply::Old { .. }
        | Reply::Skipped { .. }
        | Reply::Full { .. }
        | Reply::Behind { .. }
        | Reply::Gone { .. }
        | Reply::Ahead { .. } => Status::Conflict,
        Reply::Store | Reply::Apart { .. } => Status::Unavailable,
        Reply::BadJson
        | Reply::BadField(_)
        | Reply::BadRange(_)
        | Reply::BadHead
        | Reply::BadLength => Status::BadRequest,
        Reply::NoRoute => Status::NotFound,
        Reply::OnlyGet => Status::OnlyGet,
        Reply::OnlyPost => Status::OnlyPost,
        Reply::HeadLong => Status::HeadLong,
        Reply::Coded => Status::NotImplemented,
        Reply::BodyLong => Status::TooLarge,
    }
}
