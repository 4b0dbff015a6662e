//! A session over a connection of this machine.
ghost use Rattle.std.specs.Prelude.{◌≡◌, ◌<◌, ◌^◌, Some};
ghost use Rattle.gj_base.specs.History.{empty_history};

use gj_base::{Conf, Link, ListGraph, OpenGate};
use gj_http::{Framer, Routes};
use gj_keep::{NoKeeper, OpenRefused};
use gj_log::{Naming, Opening};
use gj_publish::{Grants, open_index};
use gj_serve::{Door, TcpDoor};
use gj_session::{Done, End, serve_session};
use std::alloc::Global;
use std::io::{Read, Write};
use std::marker::Brand;
use std::net::{Ipv4Addr, Shutdown, SocketAddr, TcpStream};
use std::sync::{Mutex, Wait};
use std::test::Fail;

const INPUT: &[u8] =
    b"POST /interactions HTTP/1.1\r\nContent-Length: 50\r\n\r\n{\"items\":[{\"user\":1,\"post\":10,\"kind\":\"favorite\"}]}POST /walk HTTP/1.1\r\nContent-Length: 23\r\n\r\n{\"seeds\":[1],\"steps\":6}";

const REPLIES: &[u8] =
    b"HTTP/1.1 200 OK\r\nContent-Type: application/json\r\nContent-Length: 21\r\nConnection: keep-alive\r\n\r\n{\"from\":0,\"length\":1}HTTP/1.1 200 OK\r\nContent-Type: application/json\r\nContent-Length: 59\r\nConnection: keep-alive\r\n\r\n{\"length\":1,\"results\":[{\"post\":10,\"visits\":3,\"proof\":[1]}]}";

/// The ports that are tried.
const PORTS: [u16; 4] = [47_017, 47_117, 47_217, 47_317];

/// Serves the link by the one seat of an opening.
fn served_by<J: Opening, R: Wait + Copy + Drop, L: Link + Drop>(
    rt: R,
    alloc: Global,
    naming: Naming,
    conf: Conf,
    link: L,
    grants: &mut Grants,
) -> Option<Done<L>>
    requires grants { grants.old < 2 ^ 40 }
    requires named { (naming.history ≡ J.book) × (naming.blank.name ≡ J.name) × (naming.blank.parts ≡ J.parts) }
    requires parts { (1 ≡ J.places) × (1 ≡ J.parts) }
    requires conf { conf ≡ J.conf }
    requires opening { J.opening ≡ Some (empty_history 0) }
{
    let opened = open_index::<J, NoKeeper, ListGraph, R>(
        rt, alloc, naming, conf, NoKeeper, 1, grants,
    );
    let (writer, mut seats) = match opened {
        Ok(opened) => opened,
        Err(refused) => {
            let OpenRefused {
                keeper: _,
                why: _why,
            } = refused;
            return None;
        }
    };
    let mut seat = seats.pop()?;
    let routes = Routes::new(alloc).ok()?;
    let mut framer = Framer::new(alloc).ok()?;
    let writer = Mutex::new(writer);
    let done = serve_session(
        &rt,
        alloc,
        &writer,
        &mut seat,
        &routes,
        &mut framer,
        link,
        &OpenGate,
    );
    let _writer = writer.into_inner();
    Some(done)
}

/// The same over a new opening.
fn served<R: Wait + Copy + Drop, L: Link + Drop>(rt: R, alloc: Global, link: L) -> Option<Done<L>> {
    let conf = Conf::make(16, 2)?;
    let mut grants = Grants::new();
    served_by::<Brand, R, L>(rt, alloc, Naming::new(1), conf, link, &mut grants)
}

#[test]
fn a_client_on_this_machine_reads_both_replies(rt: HostRuntime) -> Result<(), Fail> {
    for port in PORTS {
        let mut door = TcpDoor::new(&rt);
        if door.listen(port).is_err() {
            continue;
        }
        let mut client = TcpStream::connect(&rt, SocketAddr::from((Ipv4Addr::LOCALHOST, port)))?;
        client.write_all(INPUT)?;
        client.shutdown(Shutdown::Write)?;
        let link = door
            .next_link()
            .expect(&rt, "a client has connected")
            .expect(&rt, "the door is open");
        let done = served(&rt, rt.alloc(), link).expect(&rt, "there is memory");
        assert_eq!(rt; *done.end(), End::Finished);
        assert_eq!(rt; done.entered(), 1);
        let mut replies = Vec::new(rt.alloc());
        client.read_to_end(&mut replies)?;
        assert_eq!(rt; replies.as_slice(), REPLIES);
        return Ok(());
    }
    Err(Fail::from("no port is free"))
}
