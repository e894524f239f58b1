use hb_text::{Digest, Text};

/// A stage that was given out, and how many bytes of its upload were acknowledged.
#[derive(Drop)]
pub struct Staged<T> {
    pub stage: T,
    pub offset: u64,
}

/// Content that was opened: a reader of its bytes, its digest, its size in bytes, and the media type of a
/// manifest. A blob has none.
#[derive(Drop)]
pub struct Opened<R> {
    pub reader: R,
    pub digest: Digest,
    pub size: u64,
    pub media: Option<Text>,
}
