//! Content that is read whole.
ghost use Rattle.std.specs.Prelude.{◌≡◌, ◌<◌, ◌++◌, ℕ, List, length, Some, IfOk, OnOk, IsErrOf};
ghost use Rattle.hb_store.specs.Causes.{SomeRose};

use hb_store::{Reader, StoreFault};
use hb_text::Text;
use std::alloc::Global;

/// The most bytes of one read.
const PIECE: usize = 65_536;

// Reads the next bytes and adds them.
fn read_some<R: Reader>(
    reader: &mut R,
    piece: &mut [u8],
    text: &mut Vec<u8>,
) -> Result<(), StoreFault>
    requires { 0 < length piece.old }
    ensures more { 0 < R.left reader.old → OnOk result (R.left reader.new < R.left reader.old) }
    ensures left { (bytes : List ℕ) → R.bytes reader.old ≡ Some bytes → length bytes ≡ R.left reader.old
        → OnOk result ((rest : List ℕ) × (R.bytes reader.new ≡ Some rest) × (length rest ≡ R.left reader.new) × (text.old.items ++ bytes ≡ text.new.items ++ rest)) }
    ensures failed { IsErrOf result StoreFault.Failed → SomeRose R R.faults }
{
    match reader.read(piece) {
        Ok(count) => match text.extend_from_slice(&piece[..count]) {
            Ok(()) => Ok(()),
            Err(_) => Err(StoreFault::Memory),
        },
        Err(fault) => Err(fault),
    }
}

/// Reads content to its end. Where its bytes are told, these are read. `Failed` comes only where a reader's count of
/// faults rose, and `Memory` where memory was wanting.
pub(crate) fn read_whole<R: Reader>(alloc: Global, reader: R) -> Result<Text, StoreFault>
    ensures all { (bytes : List ℕ) → R.bytes reader ≡ Some bytes → length bytes ≡ R.left reader → IfOk result (λ text. text ≡ bytes) }
    ensures failed { IsErrOf result StoreFault.Failed → SomeRose R R.faults }
{
    let mut reader = reader;
    let Ok(mut piece) = vec![in alloc; 0u8; PIECE] else {
        return Err(StoreFault::Memory);
    };
    let mut text = Vec::new(alloc);
    while reader.left() > 0 {
        match read_some(&mut reader, &mut piece, &mut text) {
            Ok(()) => {}
            Err(fault) => return Err(fault),
        }
    }
    Ok(Text::of(text))
}
