//! The heads of answers, and their texts.
ghost use Rattle.std.specs.Prelude.{◌≡◌, ◌++◌, ◌↔◌, [], IfOk, IsTrue, OnOk, unwrap_or};
ghost use Rattle.http.specs.StatusCode.{IsStatusCode, reason_phrase};
ghost use Rattle.hb_http.specs.AnswerHeads.{HasPhrase, connection_line, digest_line, head_text, header_line, length_line, number_line, phrase, status_line, text_line};

use hb_text::{Digest, Memory, Text};
use http::StatusCode;
use std::alloc::Global;

/// The head of an answer. A header whose value is `None` isn't written.
#[derive(Debug, Drop)]
pub struct AnswerHead {
    pub status: u16,
    /// Whether the connection closes behind the answer.
    pub close: bool,
    /// Content-Length, in bytes. It isn't written with 204.
    pub length: Option<u64>,
    /// Content-Type.
    pub media: Option<Text>,
    /// Docker-Content-Digest.
    pub digest: Option<Digest>,
    pub link: Option<Text>,
    pub location: Option<Text>,
    pub range: Option<Text>,
    /// Retry-After, in seconds.
    pub retry: Option<u64>,
}

/// Whether a status is one of those that a registry answers with, which have a phrase here: 200, 201,
/// 202, 204, 400, 403, 404, 405, 412, 413, 416, 431, 500, 503 and 507.
pub fn has_phrase(status: u16) -> bool
    ensures { IsTrue result ↔ HasPhrase status }
{
    matches!(
        status,
        200 | 201 | 202 | 204 | 400 | 403 | 404 | 405 | 412 | 413 | 416 | 431 | 500 | 503 | 507
    )
}

/// The phrase that the crate `http` gives to a status.
fn canonical_phrase(status: u16) -> &'static [u8]
    requires { IsStatusCode status }
    ensures { result.now ≡ unwrap_or (reason_phrase status) [] }
{
    match StatusCode::from_u16(status) {
        Ok(code) => match code.canonical_reason() {
            Some(reason) => reason.as_bytes(),
            None => b"",
        },
        Err(_) => unreachable!(),
    }
}

/// The phrase of a status.
fn phrase(status: u16) -> &'static [u8]
    requires { HasPhrase status }
    ensures { result.now ≡ phrase status }
{
    canonical_phrase(status)
}

/// Adds a piece to a text.
fn add(text: &mut Vec<u8>, piece: &[u8]) -> Result<(), Memory>
    ensures { OnOk result (text.new.items ≡ text.old.items ++ piece.now) }
{
    text.extend_from_slice(piece)?;
    Ok(())
}

/// Adds a header to a text.
fn add_header(text: &mut Vec<u8>, name: &[u8], value: &[u8]) -> Result<(), Memory>
    ensures { OnOk result (text.new.items ≡ text.old.items ++ header_line name.now value.now) }
{
    add(text, name)?;
    add(text, b": ")?;
    add(text, value)?;
    add(text, b"\r\n")
}

/// Adds the status line to a text.
fn add_status(alloc: Global, text: &mut Vec<u8>, status: u16) -> Result<(), Memory>
    requires { HasPhrase status }
    ensures { OnOk result (text.new.items ≡ text.old.items ++ status_line status) }
{
    let digits = status.to_string(alloc)?;
    add(text, b"HTTP/1.1 ")?;
    add(text, digits.as_bytes())?;
    add(text, b" ")?;
    add(text, phrase(status))?;
    add(text, b"\r\n")
}

/// Adds `Connection: close` to a text, where the connection closes.
fn add_connection(text: &mut Vec<u8>, close: bool) -> Result<(), Memory>
    ensures { OnOk result (text.new.items ≡ text.old.items ++ connection_line close) }
{
    if close {
        add_header(text, b"Connection", b"close")
    } else {
        add(text, b"")
    }
}

/// Adds a header to a text, where there is a value.
fn add_text(text: &mut Vec<u8>, name: &[u8], value: &Option<Text>) -> Result<(), Memory>
    ensures { OnOk result (text.new.items ≡ text.old.items ++ text_line name.now value.now) }
{
    match value {
        Some(value) => add_header(text, name, value.bytes()),
        None => add(text, b""),
    }
}

/// Adds a header to a text, where there is a number for it.
fn add_number(
    alloc: Global,
    text: &mut Vec<u8>,
    name: &[u8],
    value: Option<u64>,
) -> Result<(), Memory>
    ensures { OnOk result (text.new.items ≡ text.old.items ++ number_line name.now value) }
{
    match value {
        Some(value) => {
            let digits = value.to_string(alloc)?;
            add_header(text, name, digits.as_bytes())
        }
        None => add(text, b""),
    }
}

/// Adds a header to a text, where there is a digest for it.
fn add_digest(text: &mut Vec<u8>, name: &[u8], value: &Option<Digest>) -> Result<(), Memory>
    ensures { OnOk result (text.new.items ≡ text.old.items ++ digest_line name.now value.now) }
{
    match value {
        Some(value) => add_header(text, name, &value.write()),
        None => add(text, b""),
    }
}

/// Adds the length of the body to a text, but not with 204.
fn add_length(
    alloc: Global,
    text: &mut Vec<u8>,
    status: u16,
    length: Option<u64>,
) -> Result<(), Memory>
    ensures { OnOk result (text.new.items ≡ text.old.items ++ length_line status length) }
{
    if status == 204 {
        add(text, b"")
    } else {
        add_number(alloc, text, b"Content-Length", length)
    }
}

/// The text of an answer's head, up to and with its empty line. Values are written as they are: that
/// none has a line end in it is for whoever makes them.
pub fn write_head(alloc: Global, answer: &AnswerHead) -> Result<Text, Memory>
    requires { HasPhrase answer.now.status }
    ensures { IfOk result (λ t. t ≡ head_text answer.now) }
{
    let mut text = Vec::new(alloc);
    add_status(alloc, &mut text, answer.status)?;
    add_connection(&mut text, answer.close)?;
    add_length(alloc, &mut text, answer.status, answer.length)?;
    add_text(&mut text, b"Content-Type", &answer.media)?;
    add_digest(&mut text, b"Docker-Content-Digest", &answer.digest)?;
    add_text(&mut text, b"Link", &answer.link)?;
    add_text(&mut text, b"Location", &answer.location)?;
    add_text(&mut text, b"Range", &answer.range)?;
    add_number(alloc, &mut text, b"Retry-After", answer.retry)?;
    add(&mut text, b"\r\n")?;
    Ok(Text::of(text))
}
