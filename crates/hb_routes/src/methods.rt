ghost use Rattle.std.specs.Prelude.{◌≡◌};
ghost use Rattle.hb_routes.specs.Methods.{method_of};

// The methods that something is served by, and all others.
#[derive(Clone, Copy, PartialEq, Eq)]
pub enum Method {
    Get,
    Head,
    Post,
    Put,
    Patch,
    Delete,
    Other,
}

/// The method that a text names. Methods compare as bytes (RFC 9110, section 9.1).
pub fn method_of(text: &[u8]) -> Method
    ensures { result ≡ method_of text.now }
{
    if text == b"GET".as_slice() {
        Method::Get
    } else if text == b"HEAD".as_slice() {
        Method::Head
    } else if text == b"POST".as_slice() {
        Method::Post
    } else if text == b"PUT".as_slice() {
        Method::Put
    } else if text == b"PATCH".as_slice() {
        Method::Patch
    } else if text == b"DELETE".as_slice() {
        Method::Delete
    } else {
        Method::Other
    }
}
