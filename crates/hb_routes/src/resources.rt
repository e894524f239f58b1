//! What paths name.
ghost use Rattle.hb_routes.specs.Meanings.{meaning_of};

/// What a path names, by the texts that stand in it.
#[derive(Clone, Copy)]
pub enum Resource<'a> {
    Base,
    Tags { name: &'a [u8] },
    Uploads { name: &'a [u8] },
    Upload { name: &'a [u8], id: &'a [u8] },
    Blob { name: &'a [u8], digest: &'a [u8] },
    Manifest { name: &'a [u8], reference: &'a [u8] },
    Project { name: &'a [u8] },
    Rules { name: &'a [u8] },
    Jobs,
    Job { id: &'a [u8] },
}
