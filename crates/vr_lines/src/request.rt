//! Requests of a schedule.
ghost use Rattle.std.specs.Prelude.{◌≡◌, ℕ, IfOk, option_and_then};
ghost use Rattle.vr_header.specs.Bodies.{IsOperation};
ghost use Rattle.vr_lines.specs.Grammar.{asked_by, behind_asked, is_fitting, request_for, request_line};
ghost use Rattle.vr_lines.specs.Words.{words_left};

use crate::Line;
use crate::number::{read_below, read_number};
use crate::operation::read_operation;
use crate::words::Words;
use std::alloc::{AllocError, Global};
use vr_base::Version;
use vr_header::Operation;
use vr_msg::{Request, RequestFields};

/// Who asks whom, and the number of the request.
#[derive(Clone, Copy)]
pub struct Asked {
    pub replica: u8,
    pub client: u64,
    pub request: u32,
}

#[tactic(auto, unfolding(crate::specs::Grammar::asked_by))]
fn read_asked(n: u8, r: &[u8], c: &[u8], q: &[u8]) -> Option<Asked>
    ensures { result ≡ asked_by n r.now c.now q.now }
{
    let replica = read_below(u64::from(n), r)? as u8;
    let client = read_number(c)?;
    let request = read_below(1 << 32, q)? as u32;
    if client == 0 {
        None
    } else {
        Some(Asked {
            replica,
            client,
            request,
        })
    }
}

fn is_fitting(operation: &Operation, request: u32) -> bool
    ensures { result ≡ is_fitting operation.now request }
{
    if operation.is_register() {
        request == 0
    } else {
        !(request == 0)
    }
}

fn request_for(asked: Asked, operation: Operation, version: Version) -> Option<Line>
    requires { IsOperation version operation }
    ensures { result ≡ request_for version asked operation }
{
    if is_fitting(&operation, asked.request) {
        let request = Request::new(RequestFields {
            version,
            cluster: 0,
            client: asked.client,
            request: asked.request,
            operation,
        });
        Some(Line::Request {
            replica: asked.replica,
            request,
        })
    } else {
        None
    }
}

/// The first three words, and those after them.
fn read_front<'a>(n: u8, words: Words<'a>) -> Option<(Asked, Words<'a>)>
    ensures { (version : ℕ) → request_line version n (words_left words.entry) ≡ option_and_then (λ p. behind_asked version p.0 (words_left p.1)) result }
{
    let (r, words) = words.first()?;
    let (c, words) = words.first()?;
    let (q, words) = words.first()?;
    Some((read_asked(n, r, c, q)?, words))
}

/// `request R C Q OP` of this version after its first word.
pub fn read_request(
    alloc: Global,
    n: u8,
    words: Words<'_>,
    version: Version,
) -> Result<Option<Line>, AllocError>
    ensures { IfOk result (λ line. line ≡ request_line version n (words_left words.entry)) }
{
    let Some((asked, words)) = read_front(n, words) else {
        return Ok(None);
    };
    match read_operation(alloc, words, version)? {
        Some(operation) => Ok(request_for(asked, operation, version)),
        None => Ok(None),
    }
}
