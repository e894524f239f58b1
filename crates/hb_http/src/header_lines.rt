//! The count of a head's whole lines.
ghost use Rattle.std.specs.Prelude.{◌≡◌, ◌≤◌, ◌<◌, ◌+◌, length, take, fold, IfSome, IfNone, true, false};
ghost use Rattle.hb_http.specs.WholeLines.{EndsLine, whole_lines, after_byte};

use crate::MAX_HEADERS;

/// The start line, and the lines of one header more than the limit.
const LINES_PAST_LIMIT: usize = MAX_HEADERS + 2;

/// Where the line of the first header past the limit ends. Empty lines in front don't count.
pub(crate) fn end_past_limit(bytes: &[u8]) -> Option<usize>
    ensures some { IfSome result (λ n. (n ≤ length bytes.now) × (fold after_byte (false, 0) (take n bytes.now) ≡ (true, MAX_HEADERS + 2)) × EndsLine (take n bytes.now)) }
    ensures none { IfNone result (whole_lines bytes.now < MAX_HEADERS + 2) }
{
    let mut started = false;
    let mut count = 0;
    'bytes: for (place, byte) in bytes.iter().enumerate() {
        if started {
            if *byte == b'\n' {
                count += 1;
                if count == LINES_PAST_LIMIT {
                    return Some(place + 1);
                }
            }
        } else if *byte != b'\n' && *byte != b'\r' {
            started = true;
        }
    }
    None
}
