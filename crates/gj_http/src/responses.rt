//! The bytes of responses.
ghost use Rattle.std.specs.Prelude.{◌≡◌, ◌++◌, [], codes, length, IfOk, OnOk};
ghost use Rattle.std.specs.Fmt.{decimal};
ghost use Rattle.gj_http.specs.Response.{allow_line, bytes_of, connection_text, head_of, status_text};

use gj_base::Memory;
use gj_reply::Status;
use itoa::Buffer;
use std::alloc::Global;

/// The room of the longest head, and more.
const HEAD_ROOM: usize = 256;

/// The bytes of a response, which go out in one write. It takes memory once, for all of them.
pub fn response(alloc: Global, status: Status, body: &[u8], close: bool) -> Result<Vec<u8>, Memory>
    ensures { IfOk result (λ bytes. bytes.items ≡ bytes_of status body.now close) }
{
    let mut out = room_for(alloc, body.len())?;
    put_head(&mut out, status, body.len(), close)?;
    put(&mut out, body)?;
    Ok(out)
}

/// No bytes, with room for a head and a body of this size.
fn room_for(alloc: Global, size: usize) -> Result<Vec<u8>, Memory>
    ensures { IfOk result (λ out. out.items ≡ []) }
{
    match Vec::with_capacity(alloc, size.saturating_add(HEAD_ROOM)) {
        Ok(out) => Ok(out),
        Err(_) => Err(Memory),
    }
}

/// Appends the lines up to and with the empty one.
fn put_head(out: &mut Vec<u8>, status: Status, size: usize, close: bool) -> Result<(), Memory>
    ensures { OnOk result (out.new.items ≡ out.old.items ++ head_of status size close) }
{
    put_text(out, first_lines(status))?;
    put_number(out, size)?;
    put_text(out, connection_line(close))?;
    put_text(out, last_lines(status))
}

/// The lines in front of the body's length.
fn first_lines(status: Status) -> &'static str
    ensures { result.now ≡ codes "HTTP/1.1 " ++ status_text status ++ codes "\r\n"
        ++ codes "Content-Type: application/json\r\n" ++ codes "Content-Length: " }
{
    match status {
        Status::Ok => "HTTP/1.1 200 OK\r\nContent-Type: application/json\r\nContent-Length: ",
        Status::BadRequest =>
            "HTTP/1.1 400 Bad Request\r\nContent-Type: application/json\r\nContent-Length: ",
        Status::NotFound =>
            "HTTP/1.1 404 Not Found\r\nContent-Type: application/json\r\nContent-Length: ",
        Status::OnlyGet | Status::OnlyPost => {
            "HTTP/1.1 405 Method Not Allowed\r\nContent-Type: application/json\r\nContent-Length: "
        }
        Status::Conflict =>
            "HTTP/1.1 409 Conflict\r\nContent-Type: application/json\r\nContent-Length: ",
        Status::TooLarge =>
            "HTTP/1.1 413 Content Too Large\r\nContent-Type: application/json\r\nContent-Length: ",
        Status::HeadLong => {
            "HTTP/1.1 431 Request Header Fields Too Large\r\nContent-Type: application/json\r\nContent-Length: "
        }
        Status::NotImplemented => {
            "HTTP/1.1 501 Not Implemented\r\nContent-Type: application/json\r\nContent-Length: "
        }
        Status::Unavailable => {
            "HTTP/1.1 503 Service Unavailable\r\nContent-Type: application/json\r\nContent-Length: "
        }
    }
}

/// The end of the length's line, and the line after it.
fn connection_line(close: bool) -> &'static str
    ensures { result.now ≡ codes "\r\n" ++ codes "Connection: " ++ connection_text close ++ codes "\r\n" }
{
    if close {
        "\r\nConnection: close\r\n"
    } else {
        "\r\nConnection: keep-alive\r\n"
    }
}

/// The line on the method, where there is one, and the empty line.
fn last_lines(status: Status) -> &'static str
    ensures { result.now ≡ allow_line status ++ codes "\r\n" }
{
    match status {
        Status::OnlyGet => "Allow: GET\r\n\r\n",
        Status::OnlyPost => "Allow: POST\r\n\r\n",
        _ => "\r\n",
    }
}

fn put(out: &mut Vec<u8>, bytes: &[u8]) -> Result<(), Memory>
    ensures { OnOk result (out.new.items ≡ out.old.items ++ bytes.now) }
{
    match out.extend_from_slice(bytes) {
        Ok(()) => Ok(()),
        Err(_) => Err(Memory),
    }
}

fn put_text(out: &mut Vec<u8>, text: &str) -> Result<(), Memory>
    ensures { OnOk result (out.new.items ≡ out.old.items ++ text.now) }
{
    put(out, text.as_bytes())
}

fn put_number(out: &mut Vec<u8>, number: usize) -> Result<(), Memory>
    ensures { OnOk result (out.new.items ≡ out.old.items ++ decimal number) }
{
    let mut buffer = Buffer::new();
    put_text(out, buffer.format(number))
}
