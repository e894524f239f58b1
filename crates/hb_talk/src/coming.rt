//! A request that comes: its head, and its body so far.
ghost use Rattle.std.specs.Prelude.{◌≡◌, ◌↔◌, ◌+◌, ◌++◌, [], codes, length, nat_le, IfOk, IsTrue, OnOk};
ghost use Rattle.httparse.specs.Grammar.{RequestHead};
ghost use Rattle.hb_http.specs.Parts.{IsToldOf};
ghost use Rattle.hb_talk.specs.Comings.{ComesOf};

use crate::wanted::{MAX_BODY, Wanted, wants};
use hb_http::Head;
use hb_routes::Router;
use hb_text::{Memory, Text};
use std::alloc::Global;

/// A request whose head has come.
#[derive(Drop)]
pub(crate) struct Coming {
    /// What it wants.
    pub(crate) wanted: Wanted,
    /// Its Content-Type.
    pub(crate) media: Option<Text>,
    /// Whether its head asks to close the connection behind it.
    pub(crate) last: bool,
    /// Whether its answer has no body.
    pub(crate) bare: bool,
    /// The data of its body so far.
    pub(crate) body: Vec<u8>,
}

/// Whether a method asks for the head of an answer alone.
pub(crate) fn is_bare(method: &Text) -> bool
    ensures { IsTrue result ↔ (method.now ≡ codes "HEAD") }
{
    method.bytes() == b"HEAD".as_slice()
}

impl Coming {
    /// The request of a head. `Memory` comes where memory was wanting.
    pub(crate) fn of(alloc: Global, router: &Router, head: Head) -> Result<Coming, Memory>
        ensures { IfOk result (λ c. (c.body.items ≡ []) × ((h : RequestHead) → IsToldOf h head → ComesOf c.wanted c.media c.last c.bare h)) }
    {
        let wanted = wants(alloc, router, &head)?;
        let bare = is_bare(&head.method);
        Ok(Coming {
            wanted,
            media: head.content_type,
            last: head.close,
            bare,
            body: Vec::new(alloc),
        })
    }

    /// Whether the body is at most [`MAX_BODY`] bytes long with this piece.
    pub(crate) fn has_room(&self, piece: &[u8]) -> bool
        ensures { result ≡ nat_le (length self.now.body.items + length piece.now) MAX_BODY }
    {
        self.body.len() as u64 + piece.len() as u64 <= MAX_BODY
    }

    /// Adds a piece of the body. `Memory` comes where memory was wanting.
    pub(crate) fn add(&mut self, piece: &[u8]) -> Result<(), Memory>
        ensures same { (self.new.wanted ≡ self.old.wanted) × (self.new.media ≡ self.old.media) × (self.new.last ≡ self.old.last) × (self.new.bare ≡ self.old.bare) }
        ensures body { OnOk result (self.new.body.items ≡ self.old.body.items ++ piece.now) }
    {
        self.body.extend_from_slice(piece)?;
        Ok(())
    }
}
