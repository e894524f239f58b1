ghost use Rattle.std.specs.Prelude.{◌≡◌};
ghost use Rattle.hb_desk.specs.Noting.{seal_of as sealed_by};

use crate::asks::Ask;
use hb_records::Sealed;

/// What an ask seals where it is answered Ok: an upload with its digest and its size.
pub fn seal_of(ask: &Ask) -> Option<Sealed>
    ensures { result ≡ sealed_by ask.now }
{
    match ask {
        Ask::Seal {
            upload,
            digest,
            size,
        } => Some(Sealed {
            upload: *upload,
            digest: *digest,
            size: *size,
        }),
        Ask::SealManifest { upload, put } => Some(Sealed {
            upload: *upload,
            digest: put.digest,
            size: put.size,
        }),
        _ => None,
    }
}
