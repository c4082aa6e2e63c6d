//! Requests to the status page: what a head asks for. The paths are in `paths.rt`.

ghost use Rattle.std.specs.Prelude.{◌≡◌, ◌≤◌, ◌<◌, ℕ, List, length, Some, None};
ghost use Rattle.httparse.specs.Grammar.{RequestHead, ReadsRequest, HasNoRequest, NeverHasRequest};
ghost use Rattle.httparse.specs.Spans.{RequestExceeds};
ghost use Rattle.srt_status.specs.Requests.{shown_in, request_of, WhatItSays};

use crate::paths::{Page, page_in};
use httparse::spans::{EMPTY_HEADER_SPAN, parse_request};
use httparse::{Error, Status};
use srt_types::product_limits::{MAX_REQUEST, MAX_REQUEST_FIELDS};

/// How it is asked for.
#[derive(Clone, Copy, PartialEq, Eq)]
pub enum Method {
    /// A whole response is wanted.
    Get,
    /// Its head alone is wanted.
    Head,
}

/// A request.
#[derive(Clone, Copy, PartialEq, Eq)]
pub enum Request {
    /// A page.
    Page {
        /// How it is asked for.
        method: Method,
        /// The page.
        page: Page,
    },
    /// Something that isn't here.
    Unknown {
        /// How it is asked for.
        method: Method,
    },
    /// Another method than GET and HEAD.
    NotAllowed,
    /// The bytes are no request, whatever follows them.
    Bad,
    /// The head has more than 64 fields, or more than [`MAX_REQUEST`] bytes.
    TooLong,
}

#[tactic(auto, unfolding(crate::specs::Requests::shown_in))]
fn shown_in(method: Method, target: &[u8]) -> Request
    ensures { result ≡ shown_in method target.now }
{
    match page_in(target) {
        Some(page) => Request::Page { method, page },
        None => Request::Unknown { method },
    }
}

/// Returns the request of a head with this method and this target.
#[tactic(auto, unfolding(crate::specs::Requests::request_of))]
fn request_of(method: &[u8], target: &[u8]) -> Request
    ensures { result ≡ request_of method.now target.now }
{
    if method == b"GET".as_slice() {
        return shown_in(Method::Get, target);
    }
    if method == b"HEAD".as_slice() {
        return shown_in(Method::Head, target);
    }
    Request::NotAllowed
}

/// Reads the request in the bytes received so far. None if its head isn't complete and more may arrive. A query after the
/// path is ignored, and so is what follows the head. Linear in the number of bytes.
pub fn request_in(bytes: &[u8]) -> Option<Request>
    ensures read { (head : RequestHead) (rest : List ℕ)
        → ReadsRequest bytes.now head rest → length head.fields ≤ 64 → result ≡ Some (request_of head.method head.target) }
    ensures other { WhatItSays bytes.now result }
{
    let mut fields = [EMPTY_HEADER_SPAN; MAX_REQUEST_FIELDS];
    match parse_request(bytes, &mut fields) {
        Ok(Status::Complete(head)) => Some(request_of(head.method.of(bytes), head.path.of(bytes))),
        Ok(Status::Partial) => {
            if bytes.len() < MAX_REQUEST {
                None
            } else {
                Some(Request::TooLong)
            }
        }
        Err(Error::TooManyHeaders) => Some(Request::TooLong),
        Err(_) => Some(Request::Bad),
    }
}
