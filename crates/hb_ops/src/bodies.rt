//! The bodies of errors.
ghost use Rattle.std.specs.Prelude.{◌≡◌, ◌++◌, codes, IfOk, OnOk};
ghost use Rattle.std.specs.Fmt.{decimal};
ghost use Rattle.std.specs.List.{flat_map};
ghost use Rattle.hb_text.specs.Digests.{digest_text};
ghost use Rattle.hb_ops.specs.Errors.{detail_text, item_text, message_letter, message_of, value_text};

use hb_desk::{DetailItem, DetailValue};
use hb_text::{Digest, Memory};
use std::alloc::Global;

// Adds a piece to a text.
fn add(text: &mut Vec<u8>, piece: &[u8]) -> Result<(), Memory>
    ensures { OnOk result (text.new.items ≡ text.old.items ++ piece.now) }
{
    text.extend_from_slice(piece)?;
    Ok(())
}

// Adds a number in decimal digits to a text.
fn add_number(alloc: Global, text: &mut Vec<u8>, number: u128) -> Result<(), Memory>
    ensures { OnOk result (text.new.items ≡ text.old.items ++ decimal number) }
{
    let digits = number.to_string(alloc)?;
    add(text, digits.as_bytes())
}

// Adds a digest in quotes to a text.
fn add_digest(text: &mut Vec<u8>, digest: &Digest) -> Result<(), Memory>
    ensures { OnOk result (text.new.items ≡ text.old.items ++ codes "\"" ++ digest_text digest.now ++ codes "\"") }
{
    add(text, b"\"")?;
    add(text, &digest.write())?;
    add(text, b"\"")
}

fn add_value(alloc: Global, text: &mut Vec<u8>, value: &DetailValue) -> Result<(), Memory>
    ensures { OnOk result (text.new.items ≡ text.old.items ++ value_text value.now) }
{
    match value {
        DetailValue::Number(number) => add_number(alloc, text, *number),
        DetailValue::Digest(digest) => add_digest(text, digest),
    }
}

// Adds a member of a detail to a text.
fn add_item(alloc: Global, text: &mut Vec<u8>, item: &DetailItem) -> Result<(), Memory>
    ensures { OnOk result (text.new.items ≡ text.old.items ++ item_text item.now) }
{
    add(text, b"\"")?;
    add(text, item.name.bytes())?;
    add(text, b"\":")?;
    add_value(alloc, text, &item.value)
}

// Adds members to a text, each behind a comma.
fn add_later(alloc: Global, text: &mut Vec<u8>, items: &[DetailItem]) -> Result<(), Memory>
    ensures { OnOk result (text.new.items ≡ text.old.items ++ flat_map (λ item. codes "," ++ item_text item) items.now) }
{
    for item in items {
        add(text, b",")?;
        add_item(alloc, text, item)?;
    }
    Ok(())
}

// Adds a detail to a text.
fn add_detail(alloc: Global, text: &mut Vec<u8>, detail: &[DetailItem]) -> Result<(), Memory>
    ensures { OnOk result (text.new.items ≡ text.old.items ++ detail_text detail.now) }
{
    add(text, b"{")?;
    if let Some((first, later)) = detail.split_first() {
        add_item(alloc, text, first)?;
        add_later(alloc, text, later)?;
    }
    add(text, b"}")
}

fn message_letter(letter: u8) -> u8
    ensures { result ≡ message_letter letter }
{
    if letter == b'_' {
        b' '
    } else {
        letter.to_ascii_lowercase()
    }
}

// Adds the message of a code to a text.
fn add_message(text: &mut Vec<u8>, code: &[u8]) -> Result<(), Memory>
    ensures { OnOk result (text.new.items ≡ text.old.items ++ message_of code.now) }
{
    for letter in code {
        text.push(message_letter(*letter))?;
    }
    Ok(())
}

/// The body of an error, in JSON. It takes memory, and comes to `Memory` where that is wanting.
pub fn error_body(alloc: Global, code: &[u8], detail: &[DetailItem]) -> Result<Vec<u8>, Memory>
    ensures { IfOk result (λ v. v.items ≡ codes "{\"errors\":[{\"code\":\"" ++ code.now ++ codes "\",\"detail\":" ++ detail_text detail.now ++ codes ",\"message\":\"" ++ message_of code.now ++ codes "\"}]}") }
{
    let mut text = Vec::new(alloc);
    add(&mut text, b"{\"errors\":[{\"code\":\"")?;
    add(&mut text, code)?;
    add(&mut text, b"\",\"detail\":")?;
    add_detail(alloc, &mut text, detail)?;
    add(&mut text, b",\"message\":\"")?;
    add_message(&mut text, code)?;
    add(&mut text, b"\"}]}")?;
    Ok(text)
}
