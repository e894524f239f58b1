//! How far into a start line a text reaches.
ghost use Rattle.std.specs.Prelude.{◌≡◌, ◌↔◌, IsTrue, fold};
ghost use Rattle.httparse.specs.Grammar.{EndsInTarget};
ghost use Rattle.hb_http.specs.Reaches.{reach_after};

use httparse::{is_method_token, is_uri_token};

/// The part of a start line in which a text ends.
#[derive(Clone, Copy, Drop)]
pub(crate) enum Reach {
    /// The empty lines in front, or nothing yet.
    EmptyLines,
    /// Behind a carriage return whose line feed is still to come.
    AfterReturn,
    Method,
    /// The target, or the blank in front of it.
    Target,
    /// Further on, or no start line at all.
    Beyond,
}

fn from_empty_lines(byte: u8) -> Reach
    ensures { result ≡ reach_after Reach.EmptyLines byte }
{
    if byte == b'\n' {
        Reach::EmptyLines
    } else if byte == b'\r' {
        Reach::AfterReturn
    } else if is_method_token(byte) {
        Reach::Method
    } else {
        Reach::Beyond
    }
}

fn from_method(byte: u8) -> Reach
    ensures { result ≡ reach_after Reach.Method byte }
{
    if byte == b' ' {
        Reach::Target
    } else if is_method_token(byte) {
        Reach::Method
    } else {
        Reach::Beyond
    }
}

fn reach_with(reach: Reach, byte: u8) -> Reach
    ensures { result ≡ reach_after reach byte }
{
    match reach {
        Reach::EmptyLines => from_empty_lines(byte),
        Reach::AfterReturn => if byte == b'\n' {
            Reach::EmptyLines
        } else {
            Reach::Beyond
        },
        Reach::Method => from_method(byte),
        Reach::Target => if is_uri_token(byte) {
            Reach::Target
        } else {
            Reach::Beyond
        },
        Reach::Beyond => Reach::Beyond,
    }
}

fn reach_of(bytes: &[u8]) -> Reach
    ensures { result ≡ fold reach_after Reach.EmptyLines bytes.now }
{
    let mut reach = Reach::EmptyLines;
    'bytes: for (place, byte) in bytes.iter().enumerate() {
        reach = reach_with(reach, *byte);
    }
    reach
}

fn is_target(reach: Reach) -> bool
    ensures { IsTrue result ↔ (reach ≡ Reach.Target) }
{
    match reach {
        Reach::Target => true,
        _ => false,
    }
}

/// Whether the bytes end inside a target.
pub(crate) fn ends_in_target(bytes: &[u8]) -> bool
    ensures { IsTrue result ↔ EndsInTarget bytes.now }
{
    is_target(reach_of(bytes))
}
