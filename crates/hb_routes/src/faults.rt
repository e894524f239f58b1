ghost use Rattle.std.specs.Prelude.{◌≡◌};
ghost use Rattle.hb_routes.specs.declared.faults.RouteFault.TheVariants as fault;

use hb_text::Memory;
use std::error::Error;
use std::fmt;

/// Why a request has no route. Of several the first counts, in this order, but for `Memory`, which comes
/// where memory is wanting.
#[derive(Clone, Copy, Debug, PartialEq, Eq, Hash)]
pub enum RouteFault {
    /// The path names nothing.
    Unknown,
    /// What the path names isn't served by this method.
    MethodUnknown,
    /// The name of a repository or a project in the path is outside its grammar.
    NameInvalid,
    /// A reference in the path has no colon and isn't a tag.
    TagInvalid,
    /// What has to be a digest isn't one, or is absent.
    DigestInvalid,
    /// Memory was wanting.
    Memory,
}

impl fmt::Display for RouteFault {
    fn fmt<W: fmt::Write>(&self, f: &mut fmt::Formatter<W>) -> fmt::Result {
        match self {
            RouteFault::Unknown => write!(f, "unknown path"),
            RouteFault::MethodUnknown => write!(f, "unknown method"),
            RouteFault::NameInvalid => write!(f, "not a name"),
            RouteFault::TagInvalid => write!(f, "not a tag"),
            RouteFault::DigestInvalid => write!(f, "not a digest"),
            RouteFault::Memory => write!(f, "out of memory"),
        }
    }
}

impl Error for RouteFault {}

impl From<Memory> for RouteFault {
    ghost from_gives = { λ _ made. made ≡ fault.Memory };

    fn from(_fault: Memory) -> RouteFault {
        RouteFault::Memory
    }
}
