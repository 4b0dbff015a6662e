//! Whole responses, and the routes of paths.

use gj_base::Route;
use gj_http::{Found, Method, RouteError, Routes, fixed_response, response};
use gj_reply::{Fixed, Status};
use std::alloc::Global;
use std::process::Abort;
use std::test::Fail;

fn expect_bytes(
    rt: &impl Abort,
    alloc: Global,
    status: Status,
    body: &[u8],
    close: bool,
    bytes: &[u8],
) {
    match response(alloc, status, body, close) {
        Ok(found) => assert_eq!(rt; found.as_slice(), bytes),
        Err(_) => panic!(rt; "no memory"),
    }
}

#[test]
fn a_response_has_its_lines_and_its_body(rt: HostRuntime) {
    let body = b"{\"length\":1,\"results\":[{\"post\":10,\"visits\":3,\"proof\":[1]}]}";
    let bytes = b"HTTP/1.1 200 OK\r\nContent-Type: application/json\r\nContent-Length: 59\r\n\
        Connection: keep-alive\r\n\r\n{\"length\":1,\"results\":[{\"post\":10,\"visits\":3,\"proof\":[1]}]}";
    expect_bytes(&rt, rt.alloc(), Status::Ok, body, false, bytes);
    let bytes =
        b"HTTP/1.1 431 Request Header Fields Too Large\r\nContent-Type: application/json\r\n\
        Content-Length: 0\r\nConnection: close\r\n\r\n";
    expect_bytes(&rt, rt.alloc(), Status::HeadLong, b"", true, bytes);
}

#[test]
fn a_wrong_method_is_told_the_right_one(rt: HostRuntime) {
    let body = b"{\"error\":\"method\"}";
    let bytes =
        b"HTTP/1.1 405 Method Not Allowed\r\nContent-Type: application/json\r\nContent-Length: 18\r\n\
        Connection: keep-alive\r\nAllow: GET\r\n\r\n{\"error\":\"method\"}";
    expect_bytes(&rt, rt.alloc(), Status::OnlyGet, body, false, bytes);
    let bytes =
        b"HTTP/1.1 405 Method Not Allowed\r\nContent-Type: application/json\r\nContent-Length: 18\r\n\
        Connection: close\r\nAllow: POST\r\n\r\n{\"error\":\"method\"}";
    expect_bytes(&rt, rt.alloc(), Status::OnlyPost, body, true, bytes);
}

#[test]
fn a_fixed_response_is_whole(rt: HostRuntime) {
    let bytes =
        b"HTTP/1.1 503 Service Unavailable\r\nContent-Type: application/json\r\nContent-Length: 18\r\n\
        Connection: keep-alive\r\n\r\n{\"error\":\"memory\"}";
    assert_eq!(rt; fixed_response(Fixed::Memory, false), bytes.as_slice());
    let bytes =
        b"HTTP/1.1 503 Service Unavailable\r\nContent-Type: application/json\r\nContent-Length: 35\r\n\
        Connection: keep-alive\r\n\r\n{\"error\":\"memory\",\"accepted\":false}";
    assert_eq!(rt; fixed_response(Fixed::NotAccepted, false), bytes.as_slice());
    let bytes =
        b"HTTP/1.1 503 Service Unavailable\r\nContent-Type: application/json\r\nContent-Length: 34\r\n\
        Connection: close\r\n\r\n{\"error\":\"memory\",\"accepted\":true}";
    assert_eq!(rt; fixed_response(Fixed::Accepted, true), bytes.as_slice());
    let bytes =
        b"HTTP/1.1 503 Service Unavailable\r\nContent-Type: application/json\r\nContent-Length: 19\r\n\
        Connection: close\r\n\r\n{\"error\":\"no_look\"}";
    assert_eq!(rt; fixed_response(Fixed::NoLook, true), bytes.as_slice());
}

/// The answer for the path, which is `NoRoute` where there is no memory for the routes.
fn answer<'a>(alloc: Global, method: Method, path: &'a str) -> Result<Found<'a>, RouteError> {
    match Routes::new(alloc) {
        Ok(routes) => routes.find(method, path),
        Err(_) => Err(RouteError::NoRoute),
    }
}

fn expect_route(
    rt: &impl Abort,
    alloc: Global,
    method: Method,
    path: &str,
    route: Route,
    id: Option<&str>,
) {
    match answer(alloc, method, path) {
        Ok(found) => {
            assert_eq!(rt; found.route, route, "{path}");
            assert_eq!(rt; found.id.unwrap_or("none"), id.unwrap_or("none"), "{path}");
        }
        Err(_) => panic!(rt; "no route for {path}"),
    }
}

fn expect_error(rt: &impl Abort, alloc: Global, method: Method, path: &str, error: RouteError) {
    match answer(alloc, method, path) {
        Ok(_) => panic!(rt; "a route for {path}"),
        Err(found) => assert_eq!(rt; found, error, "{path}"),
    }
}

#[test]
fn each_path_has_its_route(rt: HostRuntime) -> Result<(), Fail> {
    let alloc = rt.alloc();
    expect_route(
        &rt,
        alloc,
        Method::Post,
        "/interactions",
        Route::Interactions,
        None,
    );
    expect_route(&rt, alloc, Method::Post, "/walk", Route::Walk, None);
    expect_route(&rt, alloc, Method::Post, "/subgraph", Route::Subgraph, None);
    expect_route(&rt, alloc, Method::Post, "/similar", Route::Similar, None);
    expect_route(&rt, alloc, Method::Post, "/count", Route::Count, None);
    expect_route(&rt, alloc, Method::Get, "/users/1", Route::User, Some("1"));
    expect_route(
        &rt,
        alloc,
        Method::Get,
        "/posts/a%20",
        Route::Post,
        Some("a%20"),
    );
    expect_route(&rt, alloc, Method::Get, "/stats", Route::Stats, None);
    expect_route(&rt, alloc, Method::Get, "/log/0", Route::Log, Some("0"));
    expect_route(&rt, alloc, Method::Get, "/log/x", Route::Log, Some("x"));
    Ok(())
}

#[test]
fn other_paths_and_other_methods_have_none(rt: HostRuntime) -> Result<(), Fail> {
    let alloc = rt.alloc();
    for path in [
        "/none",
        "/",
        "",
        "/walk/",
        "/users",
        "/users/",
        "/users/1/",
        "/users//1",
        "walk",
        "/log",
        "/log/",
        "/log/0/",
    ] {
        expect_error(&rt, alloc, Method::Get, path, RouteError::NoRoute);
    }
    let post = RouteError::WrongMethod { get: false };
    expect_error(&rt, alloc, Method::Get, "/walk", post);
    expect_error(&rt, alloc, Method::Get, "/count", post);
    expect_error(&rt, alloc, Method::Other, "/interactions", post);
    let get = RouteError::WrongMethod { get: true };
    expect_error(&rt, alloc, Method::Post, "/posts/1", get);
    expect_error(&rt, alloc, Method::Other, "/stats", get);
    expect_error(&rt, alloc, Method::Post, "/log/0", get);
    expect_error(&rt, alloc, Method::Other, "/log/0", get);
    Ok(())
}
