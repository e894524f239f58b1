//! Laws of the definitions, each the contract of a function that does nothing.
ghost use Rattle.std.specs.Prelude.{◌≡◌, ◌≢◌, ◌≤◌, ◌++◌, [], ℕ, List, length, None, Err, Result};
ghost use Rattle.std.specs.List.{AllByRecursion, flat_map};
ghost use Rattle.httparse.specs.Grammar.{RequestHead};
ghost use Rattle.hb_http.specs.ChunkPlaces.{body_start, data_after, place_after};
ghost use Rattle.hb_http.specs.Chunks.{IsChunkedBody, NeverIsChunkedBody};
ghost use Rattle.hb_http.specs.declared.chunk_places.ChunkPlace.{ChunkPlace};
ghost use Rattle.hb_http.specs.Framing.{HasLength, IsChunked};
ghost use Rattle.hb_http.specs.Heads.{IsHead, HasNoHead, IsMalformed, NeverHasHead, HasTooManyHeaders, IsHeadTooLong, window};
ghost use Rattle.hb_http.specs.declared.TheConstants.{MAX_CHUNK_LINE, MAX_HEAD, MAX_HEADERS, MAX_PIECE, ROOM};
ghost use Rattle.hb_http.specs.Parts.{Gives, HoldsNoPart, IsBad};
ghost use Rattle.hb_http.specs.Readings.{AreRequests, Given, HasRead, IsBodyOf, IsBodyText, all_given};
ghost use Rattle.hb_http.specs.Requests.{Request, HasNoRequest, RequestsOf, request_text};
ghost use Rattle.hb_http.specs.Standing.{Standing};
ghost use Rattle.hb_http.specs.declared.parts.HttpFault.{HttpFault};
ghost use Rattle.hb_http.specs.declared.parts.Part.{Part};
ghost use Rattle.hb_http.specs.declared.places.Place.{Place};
ghost use Rattle.std.specs.declared.option.Option.{Option};

/// A way to say where requests end, and which of them close the connection.
pub trait Reading {
    /// A request of this head ends with these bytes behind it.
    ghost ends: { RequestHead → List ℕ → Type 0 };

    /// A request of this head and these bytes behind it closes the connection.
    ghost closes: { RequestHead → List ℕ → Type 0 };
}

/// No whole request is the front of another, so bytes are requests in one way.
pub fn one_reading<R: Reading>()
    ensures { (bytes : List ℕ) (requests others : List Request) (rest other : List ℕ)
        → RequestsOf R.ends R.closes bytes requests rest → RequestsOf R.ends R.closes bytes others other
        → (requests ≡ others) × (rest ≡ other) }
{}

/// Headers say in one way at most where the body ends.
pub fn one_framing()
    ensures length { (headers : List (List ℕ × List ℕ)) (n m : ℕ) → HasLength headers n → HasLength headers m → n ≡ m }
    ensures chunked { (headers : List (List ℕ × List ℕ)) (n : ℕ) → HasLength headers n → ¬ (IsChunked headers) }
{}

/// A head within the limits excludes each refusal of one.
pub fn one_front()
    ensures malformed { (bytes : List ℕ) (h : RequestHead) (rest : List ℕ) → IsHead bytes h rest → ¬ (NeverHasHead bytes) }
    ensures many { (bytes : List ℕ) (h : RequestHead) (rest : List ℕ) → IsHead bytes h rest → ¬ (HasTooManyHeaders bytes) }
    ensures long { (bytes : List ℕ) (h : RequestHead) (rest : List ℕ) → IsHead bytes h rest → ¬ (IsHeadTooLong bytes) }
{}

/// A head stays, and so does each refusal, whatever bytes follow: once the front of some bytes is told,
/// it is the front of all that begin with them. So it doesn't matter in which pieces they came.
pub fn front_stays()
    ensures head { (bytes more : List ℕ) (h : RequestHead) (rest : List ℕ) → IsHead bytes h rest → IsHead (bytes ++ more) h (rest ++ more) }
    ensures malformed { (bytes more : List ℕ) → NeverHasHead bytes → NeverHasHead (bytes ++ more) }
    ensures unframed { (bytes more : List ℕ) → IsMalformed bytes → IsMalformed (bytes ++ more) }
    ensures many { (bytes more : List ℕ) → HasTooManyHeaders bytes → HasTooManyHeaders (bytes ++ more) }
    ensures not_many { (bytes more : List ℕ) → NeverHasHead bytes → ¬ (HasTooManyHeaders bytes) → ¬ (HasTooManyHeaders (bytes ++ more)) }
    ensures long { (bytes more : List ℕ) → IsHeadTooLong bytes → IsHeadTooLong (bytes ++ more) }
    ensures window { (bytes more : List ℕ) → MAX_HEAD ≤ length bytes → window (bytes ++ more) ≡ window bytes }
{}

/// Where no head begins the bytes, or one that doesn't say where its body ends, or none ever will, no
/// request begins them.
pub fn no_request<R: Reading>()
    ensures none { (bytes : List ℕ) → HasNoHead bytes → HasNoRequest R.ends bytes }
    ensures malformed { (bytes : List ℕ) → IsMalformed bytes → HasNoRequest R.ends bytes }
    ensures many { (bytes : List ℕ) → HasTooManyHeaders bytes → HasNoRequest R.ends bytes }
{}

/// A reader of bodies in chunks comes to the end of one exactly over the bytes of one, and has its data
/// then. It comes to where there is none exactly over bytes that no others can follow to make one.
pub fn chunks_are_read()
    ensures read { (bytes content : List ℕ) → IsChunkedBody bytes content → (place_after body_start bytes ≡ ChunkPlace.Over) × (data_after body_start bytes ≡ content) }
    ensures whole { (bytes : List ℕ) → place_after body_start bytes ≡ ChunkPlace.Over → IsChunkedBody bytes (data_after body_start bytes) }
    ensures bad { (bytes : List ℕ) → place_after body_start bytes ≡ ChunkPlace.Bad → NeverIsChunkedBody bytes }
    ensures never { (bytes : List ℕ) → NeverIsChunkedBody bytes → place_after body_start bytes ≡ ChunkPlace.Bad }
{}

/// No body in chunks is a proper front of another, and each has one data.
pub fn one_chunked_body()
    ensures front { (bytes more content other : List ℕ) → IsChunkedBody bytes content → IsChunkedBody (bytes ++ more) other → more ≡ [] }
    ensures content { (bytes content other : List ℕ) → IsChunkedBody bytes content → IsChunkedBody bytes other → content ≡ other }
{}

/// The bytes that a session took say which requests were given, and as much of their data: two ways to
/// say it are one. So do the bytes that it was fed, where those that wait hold no further part: it
/// doesn't matter in which pieces they were fed, and when parts were taken.
pub fn one_reading_of_parts()
    ensures start { HasRead [] None [] Place.Between }
    ensures taken { (done others : List Given) (now other : Option Given) (taken : List ℕ) (place there : Place)
        → HasRead done now taken place → HasRead others other taken there
        → all_given done now ≡ all_given others other }
    ensures fed { (done others : List Given) (now other : Option Given) (taken gone waiting left : List ℕ) (place there : Place)
        → HasRead done now taken place → HasRead others other gone there
        → HoldsNoPart place waiting → HoldsNoPart there left → taken ++ waiting ≡ gone ++ left
        → all_given done now ≡ all_given others other }
{}

/// Between two requests, those that were given are requests of the bytes that were taken, one for one,
/// with the same heads and data. Where none of them closes the connection, they stand before the
/// requests of whatever bytes follow.
pub fn parts_are_requests<R: Reading>()
    ensures { (done : List Given) (taken : List ℕ) → HasRead done None taken Place.Between
        → (requests : List Request) × AreRequests IsBodyOf done requests × (taken ≡ flat_map request_text requests)
        × (AllByRecursion (λ r. ¬ (R.closes r.head r.body)) requests
        → (more : List ℕ) (others : List Request) (rest : List ℕ) → RequestsOf IsBodyText R.closes more others rest
        → RequestsOf IsBodyText R.closes (taken ++ more) (requests ++ others) rest) }
{}

/// A session that stands somewhere gives one part, or has one fault, and stands in one way behind it:
/// want of memory aside, each cause excludes the others.
pub fn one_part()
    ensures { (s : Standing) (result other : Result Part HttpFault) (then there : Standing)
        → Gives s result then → Gives s other there → result ≢ Err HttpFault.Memory → other ≢ Err HttpFault.Memory
        → (result ≡ other) × (then ≡ there) }
{}

/// Bytes for which a session answers `Bad` stay so, whatever follows.
pub fn faults_stay()
    ensures { (place : Place) (bytes more : List ℕ) → IsBad place bytes → IsBad place (bytes ++ more) }
{}

/// The limits: how many bytes a head has at most and how many headers, how many bytes a chunk's line and the lines at the end of
/// a body in chunks, a piece of a body that is given at once, and what waits.
pub fn limits()
    ensures head { MAX_HEAD ≡ 65536 }
    ensures headers { MAX_HEADERS ≡ 100 }
    ensures chunk_line { MAX_CHUNK_LINE ≡ 65536 }
    ensures piece { MAX_PIECE ≡ 65536 }
    ensures room { ROOM ≡ 131072 }
{}
