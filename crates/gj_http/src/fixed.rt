//! The responses that stand where none can be made.
ghost use Rattle.std.specs.Prelude.{◌≡◌, true, false};
ghost use Rattle.gj_http.specs.Response.{bytes_of};
ghost use Rattle.gj_reply.specs.FixedTexts.{fixed_text};
ghost use Rattle.gj_reply.specs.declared.status.Status.TheVariants.{Unavailable};

use gj_reply::Fixed;

/// The bytes of the fixed reply's response. It takes no memory.
pub fn fixed_response(which: Fixed, close: bool) -> &'static [u8]
    ensures { result.now ≡ bytes_of Unavailable (fixed_text which) close }
{
    if close {
        closing_response(which)
    } else {
        lasting_response(which)
    }
}

/// The bytes where the connection ends.
fn closing_response(which: Fixed) -> &'static [u8]
    ensures { result.now ≡ bytes_of Unavailable (fixed_text which) true }
{
    match which {
        Fixed::Memory =>
            b"HTTP/1.1 503 Service Unavailable\r\nContent-Type: application/json\r\nContent-Length: 18\r\nConnection: close\r\n\r\n{\"error\":\"memory\"}",
        Fixed::NotAccepted =>
            b"HTTP/1.1 503 Service Unavailable\r\nContent-Type: application/json\r\nContent-Length: 35\r\nConnection: close\r\n\r\n{\"error\":\"memory\",\"accepted\":false}",
        Fixed::Accepted =>
            b"HTTP/1.1 503 Service Unavailable\r\nContent-Type: application/json\r\nContent-Length: 34\r\nConnection: close\r\n\r\n{\"error\":\"memory\",\"accepted\":true}",
        Fixed::NoLook =>
            b"HTTP/1.1 503 Service Unavailable\r\nContent-Type: application/json\r\nContent-Length: 19\r\nConnection: close\r\n\r\n{\"error\":\"no_look\"}",
    }
}

/// The bytes where the connection goes on.
fn lasting_response(which: Fixed) -> &'static [u8]
    ensures { result.now ≡ bytes_of Unavailable (fixed_text which) false }
{
    match which {
        Fixed::Memory =>
            b"HTTP/1.1 503 Service Unavailable\r\nContent-Type: application/json\r\nContent-Length: 18\r\nConnection: keep-alive\r\n\r\n{\"error\":\"memory\"}",
        Fixed::NotAccepted =>
            b"HTTP/1.1 503 Service Unavailable\r\nContent-Type: application/json\r\nContent-Length: 35\r\nConnection: keep-alive\r\n\r\n{\"error\":\"memory\",\"accepted\":false}",
        Fixed::Accepted =>
            b"HTTP/1.1 503 Service Unavailable\r\nContent-Type: application/json\r\nContent-Length: 34\r\nConnection: keep-alive\r\n\r\n{\"error\":\"memory\",\"accepted\":true}",
        Fixed::NoLook =>
            b"HTTP/1.1 503 Service Unavailable\r\nContent-Type: application/json\r\nContent-Length: 19\r\nConnection: keep-alive\r\n\r\n{\"error\":\"no_look\"}",
    }
}
