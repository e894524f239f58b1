//! Targets and their queries.
ghost use Rattle.std.specs.Prelude.{◌≡◌, ◌==◌, Option, IfOk, option_map, find};
ghost use Rattle.std.specs.Cow.{cow_slice_items};
ghost use Rattle.hb_routes.specs.Cuts.{before, behind, is_same, cut_at};
ghost use Rattle.hb_routes.specs.Queries.{decoded, begins_with_digits, has_whole_escapes, name_in, value_in, value_of, value_or_empty};

use hb_text::Memory;
use percent_encoding::percent_decode;
use std::alloc::Global;
use std::borrow::CowSlice;

/// What stands before the first such byte, and what stands behind it: all and nothing where there is none.
pub fn cut(text: &[u8], at: u8) -> (&[u8], &[u8])
    ensures before { result.0.now ≡ before at text.now }
    ensures behind { result.1.now ≡ behind at text.now }
{
    for (place, byte) in text.iter().enumerate() {
        if *byte == at {
            return (&text[..place], &text[place + 1..]);
        }
    }
    (text, &text[text.len()..])
}

// Whether two hexadecimal digits stand at the front.
fn begins_with_digits(text: &[u8]) -> bool
    ensures { result ≡ begins_with_digits text.now }
{
    match text {
        [high, low, ..] => high.is_ascii_hexdigit() && low.is_ascii_hexdigit(),
        _ => false,
    }
}

// Whether each `%` begins an escape.
fn has_whole_escapes(value: &[u8]) -> bool
    ensures { result ≡ has_whole_escapes value.now }
{
    let mut rest = value;
    while let [byte, behind @ ..] = rest {
        if *byte == b'%' && !begins_with_digits(behind) {
            return false;
        }
        rest = behind;
    }
    true
}

// The value with its escapes decoded, or as it is where one of them is bad.
fn decoded(alloc: Global, value: &[u8]) -> Result<CowSlice<'_, u8, Global>, Memory>
    ensures { IfOk result (λ made. cow_slice_items made ≡ decoded value.now) }
{
    if !has_whole_escapes(value) {
        return Ok(CowSlice::Borrowed(value));
    }
    match percent_decode(value).into_cow(alloc) {
        Ok(made) => Ok(made),
        Err(_) => Err(Memory),
    }
}

// Whether a piece of a query has this name.
fn is_named(piece: &[u8], name: &[u8]) -> bool
    ensures { result ≡ is_same (name_in piece.now) name.now }
{
    cut(piece, b'=').0 == name
}

// The first piece of this name.
fn piece_named<'a>(query: &'a [u8], name: &[u8]) -> Option<&'a [u8]>
    ensures { option_map (λ piece. piece.now) result ≡ find (λ piece. is_same (name_in piece) name.now) (cut_at 38 query.now) }
{
    query
        .split(|byte| *byte == b'&')
        .find(|piece| is_named(piece, name))
}

/// The value of a name in a query, decoded: of several the first.
pub fn value_of<'a>(
    alloc: Global,
    query: &'a [u8],
    name: &[u8],
) -> Result<Option<CowSlice<'a, u8, Global>>, Memory>
    ensures { IfOk result (λ found. option_map cow_slice_items found ≡ value_of name.now query.now) }
{
    match piece_named(query, name) {
        Some(piece) => Ok(Some(decoded(alloc, cut(piece, b'=').1)?)),
        None => Ok(None),
    }
}
