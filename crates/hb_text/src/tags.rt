ghost use Rattle.std.specs.Prelude.{◌≡◌, IfOk, OnOk};
ghost use Rattle.std.specs.List.{list_all};
ghost use Rattle.hb_text.specs.Tags.{IsTag, is_tag_start, is_in_tag};

use crate::names::NameFault;
use crate::texts::Text;
use hb_base::{Duplicate, Memory};
use std::alloc::Global;
use std::marker::Model;

/// The most bytes that a tag has.
pub const LONGEST_TAG: usize = 128;

/// A tag of a repository. Contracts see its bytes.
#[derive(Debug, PartialEq, Eq, PartialOrd, Ord, Drop)]
pub struct Tag {
    text: Text,
}

impl Model for Tag {
    ghost use Rattle.std.specs.Prelude.{List, ℕ};
    ghost use Rattle.hb_text.specs.Tags.{IsTag};

    ghost Value = { List ℕ };

    ghost view = { λ tag. tag.text };

    ghost invariant = { λ tag. IsTag tag.text };

    ghost inverse = { λ bytes. record { text = bytes } };
}

impl Duplicate for Tag {
    fn copy(&self, alloc: Global) -> Result<Tag, Memory> {
        Ok(Tag {
            text: self.text.copy(alloc)?,
        })
    }
}

fn is_tag_start(byte: u8) -> bool
    ensures { result ≡ is_tag_start byte }
{
    (b'a' <= byte && byte <= b'z')
        || (b'A' <= byte && byte <= b'Z')
        || (b'0' <= byte && byte <= b'9')
        || b'_' == byte
}

fn is_in_tag(byte: u8) -> bool
    ensures { result ≡ is_in_tag byte }
{
    is_tag_start(byte) || b'.' == byte || b'-' == byte
}

fn are_in_tag(text: &[u8]) -> bool
    ensures { result ≡ list_all is_in_tag text.now }
{
    text.iter().all(|byte| is_in_tag(*byte))
}

impl Tag {
    /// Reads a tag: at most [`LONGEST_TAG`] bytes of `[a-zA-Z0-9_][a-zA-Z0-9._-]*` (OCI Distribution
    /// Specification 1.1, "Pulling manifests"). `Invalid` for any other text.
    pub fn read(alloc: Global, text: &[u8]) -> Result<Tag, NameFault>
        ensures ok { IfOk result (λ tag. tag ≡ text.now) }
        ensures valid { OnOk result (IsTag text.now) }
        ensures invalid { result ≡ Err NameFault.Invalid → ¬ IsTag text.now }
    {
        let [first, rest @ ..] = text else {
            return Err(NameFault::Invalid);
        };
        if text.len() > LONGEST_TAG {
            return Err(NameFault::Invalid);
        }
        if !is_tag_start(*first) {
            return Err(NameFault::Invalid);
        }
        if !are_in_tag(rest) {
            return Err(NameFault::Invalid);
        }
        match Text::new(alloc, text) {
            Ok(text) => Ok(Tag { text }),
            Err(_) => Err(NameFault::Memory),
        }
    }

    /// Its bytes.
    pub fn bytes(&self) -> &[u8]
        ensures value { result.now ≡ self.now }
        ensures valid { IsTag self.now }
    {
        self.text.bytes()
    }
}
