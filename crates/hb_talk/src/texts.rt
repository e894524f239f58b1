//! The text of an answer.
ghost use Rattle.std.specs.Prelude.{◌≡◌, ◌++◌, Some, None, [], IfOk, OnOk, length, unwrap_or};
ghost use Rattle.hb_http.specs.AnswerHeads.{HasPhrase};
ghost use Rattle.hb_talk.specs.Texts.{answer_text, as_asked, length_of};

use hb_desk::Answer;
use hb_http::{AnswerHead, write_head};
use hb_text::{Memory, Text};
use std::alloc::Global;

// How long the body is that is said.
fn length_said(body: &Option<Text>, said: Option<u64>) -> Option<u64>
    ensures { result ≡ length_of body.now said }
{
    match body {
        Some(body) => Some(body.bytes().len() as u64),
        None => said,
    }
}

// Adds the body, where there is one.
fn add_body(text: &mut Vec<u8>, body: &Option<Text>) -> Result<(), Memory>
    ensures { OnOk result (text.new.items ≡ text.old.items ++ unwrap_or body.now []) }
{
    let bytes = match body {
        Some(body) => body.bytes(),
        None => b"",
    };
    text.extend_from_slice(bytes)?;
    Ok(())
}

/// The text of an answer, behind which the connection closes or not: its head and its body.
pub(crate) fn text_of(alloc: Global, answer: Answer, close: bool) -> Result<Vec<u8>, Memory>
    requires { HasPhrase answer.status }
    ensures { IfOk result (λ text. text.items ≡ answer_text close answer) }
{
    let Answer {
        status,
        code: _,
        detail: _,
        length,
        media,
        digest,
        link,
        location,
        range,
        retry,
        body,
    } = answer;
    let head = AnswerHead {
        status,
        close,
        length: length_said(&body, length),
        media,
        digest,
        link,
        location,
        range,
        retry,
    };
    let head = write_head(alloc, &head)?;
    let mut text = Vec::from_slice(alloc, head.bytes())?;
    add_body(&mut text, &body)?;
    Ok(text)
}

/// The answer without its body, whose length is told, where that is asked for.
pub(crate) fn as_asked(answer: Answer, bare: bool) -> Answer
    ensures { result ≡ as_asked bare answer }
{
    if !bare {
        return answer;
    }
    let length = length_said(&answer.body, answer.length);
    Answer {
        length,
        body: None,
        ..answer
    }
}
