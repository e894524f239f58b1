//! A connection's bytes, taken apart into the parts of its requests.
ghost use Rattle.std.specs.Prelude.{◌≡◌, ◌≢◌, ◌<◌, ◌≤◌, ◌+◌, ◌-◌, ◌++◌, [], ℕ, List, min, length, take, drop, true, vec_len, Ok, IfOk};
ghost use Rattle.std.specs.Vec.{vec_capacity};
ghost use Rattle.std.specs.declared.option.Option.{Option};
ghost use Rattle.hb_http.specs.ChunkPlaces.{IsPlace};
ghost use Rattle.hb_http.specs.Parts.{Gives, HoldsNoPart, ReadsLines, body_place};
ghost use Rattle.hb_http.specs.Readings.{Given, HasRead, ReadsOn};
ghost use Rattle.hb_http.specs.SessionPlaces.{IsSound};
ghost use Rattle.hb_http.specs.Standing.{at_rest, fresh};

use crate::chunk_places::{ChunkPlace, after_data, read_lines};
use crate::parts::{HttpFault, Part};
use crate::places::Place;
use crate::told::read_told;
use crate::{MAX_HEAD, MAX_PIECE, ROOM};
use hb_text::Memory;
use std::alloc::Global;
use std::marker::Model;

/// Takes the bytes of a connection as they come, and gives the parts of its requests.
///
/// It holds the present body piece and the bytes behind it that wait, together at most [`ROOM`] bytes,
/// whose room it takes when it is made. Contracts see where it stands, these bytes, and whether the
/// input has ended.
#[derive(Drop)]
pub struct Session {
    bytes: Vec<u8>,
    // where the present body piece begins, and where it ends and what waits begins
    start: usize,
    next: usize,
    place: Place,
    closed: bool,
}

impl Model for Session {
    ghost use Rattle.std.specs.Prelude.{◌≤◌, ◌-◌, length, take, drop};
    ghost use Rattle.std.specs.Vec.{vec_capacity};
    ghost use Rattle.hb_http.specs.Standing.{Standing};
    ghost use Rattle.hb_http.specs.SessionPlaces.{IsSound};
    ghost use Rattle.hb_http.specs.declared.TheConstants.{ROOM};

    ghost Value = { Standing };

    ghost view = { λ s. record { place = s.place; body = take (s.next - s.start) (drop s.start s.bytes.items); waiting = drop s.next s.bytes.items; closed = s.closed } };

    ghost invariant = { λ s. (s.start ≤ s.next) × (s.next ≤ length s.bytes.items) × (length s.bytes.items ≤ ROOM) × (ROOM ≤ vec_capacity s.bytes) × IsSound s.place };
}

/// Where the body of a head begins.
fn body_place(length: Option<u64>) -> Place
    ensures { result ≡ body_place length }
{
    match length {
        Some(left) => Place::Counted { left },
        None => Place::Chunked {
            place: ChunkPlace::Size { size: 0, digits: 0 },
        },
    }
}

/// Adds a piece, where there is room for it.
fn add_piece(bytes: &mut Vec<u8>, piece: &[u8])
    requires { vec_len bytes.old + length piece.now ≤ vec_capacity bytes.old }
    ensures items { bytes.new.items ≡ bytes.old.items ++ piece.now }
    ensures room { vec_capacity bytes.old ≤ vec_capacity bytes.new }
{
    match bytes.extend_from_slice(piece) {
        Ok(()) => {}
        Err(_) => unreachable!(),
    }
}

/// Drops so many bytes from the front.
fn drop_front(bytes: &mut Vec<u8>, count: usize)
    requires { count ≤ length bytes.old.items }
    ensures items { bytes.new.items ≡ drop count bytes.old.items }
    ensures room { vec_capacity bytes.old ≤ vec_capacity bytes.new }
{
    let left = bytes.len() - count;
    bytes.copy_within(count.., 0);
    bytes.truncate(left);
}

/// Makes room for so many bytes behind those that are there, if need be in place of the first `start`,
/// and answers how many it dropped.
fn make_room(bytes: &mut Vec<u8>, start: usize, count: usize) -> usize
    requires { start ≤ length bytes.old.items }
    ensures few { result ≤ start }
    ensures items { bytes.new.items ≡ drop result bytes.old.items }
    ensures fits { (length bytes.old.items - start) + count ≤ ROOM → length bytes.old.items ≤ ROOM → length bytes.new.items + count ≤ ROOM }
    ensures room { vec_capacity bytes.old ≤ vec_capacity bytes.new }
{
    if bytes.len() <= ROOM && count <= ROOM - bytes.len() {
        return 0;
    }
    drop_front(bytes, start);
    start
}

/// How long the next piece of a body is, of which so much is left and so many bytes wait.
fn piece_len(left: u64, waiting: usize) -> usize
    ensures { result ≡ min (min left MAX_PIECE) waiting }
{
    let most = if left < MAX_PIECE as u64 {
        left as usize
    } else {
        MAX_PIECE
    };
    most.min(waiting)
}

impl Session {
    /// The start of a connection, with its room. `Memory` where the room can't be had.
    pub fn new(alloc: Global) -> Result<Session, Memory>
        ensures { IfOk result (λ s. s ≡ fresh) }
    {
        Ok(Session {
            bytes: Vec::with_capacity(alloc, ROOM)?,
            start: 0,
            next: 0,
            place: Place::Between,
            closed: false,
        })
    }

    /// Takes bytes in behind those that wait, as many as there is room for beside the present body
    /// piece, and answers how many. Where they are fewer than it was given the room is full. It takes no
    /// memory.
    pub fn feed(&mut self, piece: &[u8]) -> usize
        ensures count { result ≡ min (length piece.now) (ROOM - (length self.old.body + length self.old.waiting)) }
        ensures after { self.new ≡ record { place = self.old.place; body = self.old.body; waiting = self.old.waiting ++ take result piece.now; closed = self.old.closed } }
        ensures full { result < length piece.now → length self.new.body + length self.new.waiting ≡ ROOM }
    {
        let held = self.bytes.len() - self.start;
        let count = piece.len().min(ROOM - held);
        let dropped = make_room(&mut self.bytes, self.start, count);
        self.start -= dropped;
        self.next -= dropped;
        add_piece(&mut self.bytes, &piece[..count]);
        count
    }

    /// Marks that the input has ended. It takes no memory.
    pub fn close_input(&mut self)
        ensures { self.new ≡ record { place = self.old.place; body = self.old.body; waiting = self.old.waiting; closed = true } }
    {
        self.closed = true;
    }

    /// The present body piece: that of the last `part`, where it was a `Body`, and else nothing.
    pub fn body(&self) -> &[u8]
        ensures { result.now ≡ self.now.body }
    {
        &self.bytes[self.start..self.next]
    }

    /// The bytes that wait.
    fn waiting(&self) -> &[u8]
        ensures { result.now ≡ self.now.waiting }
    {
        &self.bytes[self.next..]
    }

    /// Whether the input has ended.
    fn is_closed(&self) -> bool
        ensures { result ≡ self.now.closed }
    {
        self.closed
    }

    /// Goes on to a place: takes so many bytes, and as many behind them as the body piece.
    fn go_on(&mut self, place: Place, skip: usize, piece: usize)
        requires fits { skip + piece ≤ length self.old.waiting }
        requires sound { IsSound place }
        ensures { self.new ≡ record { place = place; body = take piece (drop skip self.old.waiting); waiting = drop (skip + piece) self.old.waiting; closed = self.old.closed } }
    {
        self.start = self.next + skip;
        self.next = self.start + piece;
        self.place = place;
    }

    /// Gives no part: the session stays where it is.
    fn stay(&mut self)
        ensures { self.new ≡ at_rest self.old }
    {
        self.start = self.next;
    }

    /// The part between two requests.
    fn part_between(&mut self, alloc: Global) -> Result<Part, HttpFault>
        requires { self.old.place ≡ Place.Between }
        ensures { Gives self.old result self.new }
    {
        match read_told(alloc, self.waiting()) {
            Ok(Some((head, len))) => {
                self.go_on(body_place(head.length), len, 0);
                Ok(Part::Head(head))
            }
            Ok(None) => self.no_head(),
            Err(fault) => {
                self.stay();
                Err(fault)
            }
        }
    }

    /// The part where no head is there yet.
    fn no_head(&mut self) -> Result<Part, HttpFault>
        requires place { self.old.place ≡ Place.Between }
        requires none { HoldsNoPart Place.Between self.old.waiting }
        ensures { Gives self.old result self.new }
    {
        let empty = self.waiting().is_empty();
        let closed = self.is_closed();
        self.stay();
        if !closed {
            Ok(Part::NeedInput)
        } else if empty {
            Ok(Part::InputEnd)
        } else {
            Err(HttpFault::Cut)
        }
    }

    /// The part in a body by length.
    fn part_counted(&mut self, left: u64) -> Result<Part, HttpFault>
        requires { self.old.place ≡ Place.Counted left }
        ensures { Gives self.old result self.new }
    {
        if left == 0 {
            self.go_on(Place::Between, 0, 0);
            return Ok(Part::BodyEnd);
        }
        let count = piece_len(left, self.waiting().len());
        if count > 0 {
            self.go_on(
                Place::Counted {
                    left: left - count as u64,
                },
                0,
                count,
            );
            return Ok(Part::Body);
        }
        let closed = self.is_closed();
        self.stay();
        if closed {
            Err(HttpFault::Cut)
        } else {
            Ok(Part::NeedInput)
        }
    }

    /// The part in a body in chunks.
    fn part_chunked(&mut self, place: ChunkPlace) -> Result<Part, HttpFault>
        requires at { self.old.place ≡ Place.Chunked place }
        requires sound { IsPlace place }
        ensures { Gives self.old result self.new }
    {
        let (lines, behind) = read_lines(place, self.waiting());
        match behind {
            ChunkPlace::Over => {
                self.go_on(Place::Between, lines, 0);
                Ok(Part::BodyEnd)
            }
            ChunkPlace::Bad => {
                self.stay();
                Err(HttpFault::Bad)
            }
            ChunkPlace::Data { left } => self.chunk_data(place, lines, left),
            _ => self.chunk_lines(place, behind),
        }
    }

    /// The part where data of a chunk follows lines, so much of it.
    fn chunk_data(&mut self, place: ChunkPlace, lines: usize, left: u64) -> Result<Part, HttpFault>
        requires at { self.old.place ≡ Place.Chunked place }
        requires within { lines ≤ length self.old.waiting }
        requires reads { ReadsLines place (take lines self.old.waiting) (ChunkPlace.Data left) }
        requires some { 0 < left }
        ensures { Gives self.old result self.new }
    {
        let count = piece_len(left, self.waiting().len() - lines);
        if count == 0 {
            return self.chunk_lines(place, ChunkPlace::Data { left });
        }
        self.go_on(
            Place::Chunked {
                place: after_data(left, count as u64),
            },
            lines,
            count,
        );
        Ok(Part::Body)
    }

    /// The part where all that waits is lines without data.
    fn chunk_lines(&mut self, place: ChunkPlace, behind: ChunkPlace) -> Result<Part, HttpFault>
        requires at { self.old.place ≡ Place.Chunked place }
        requires reads { ReadsLines place self.old.waiting behind }
        requires open { (behind ≢ ChunkPlace.Over) × (behind ≢ ChunkPlace.Bad) }
        requires sound { IsPlace behind }
        ensures { Gives self.old result self.new }
    {
        if self.is_closed() {
            self.stay();
            return Err(HttpFault::Cut);
        }
        let all = self.waiting().len();
        self.go_on(Place::Chunked { place: behind }, all, 0);
        Ok(Part::NeedInput)
    }

    /// The next part, as `part` gives it.
    fn next_part(&mut self, alloc: Global) -> Result<Part, HttpFault>
        ensures { Gives self.old result self.new }
    {
        match self.place_now() {
            Place::Between => self.part_between(alloc),
            Place::Counted { left } => self.part_counted(left),
            Place::Chunked { place } => self.part_chunked(place),
        }
    }

    /// Where it stands.
    fn place_now(&self) -> Place
        ensures place { result ≡ self.now.place }
        ensures sound { IsSound result }
    {
        self.place
    }

    /// The next part of the requests of the bytes that have come, or why there is none.
    ///
    /// Between two requests it is the head that the waiting bytes begin with. A head is followed by the
    /// pieces of its body, none of them empty and each at most [`MAX_PIECE`] bytes long, and then by one
    /// `BodyEnd`, also where the body is empty. A piece is all that waits of the body, or of the next
    /// chunk of one in chunks (RFC 9112, sections 6 and 7.1). A head that asks to close doesn't stop the
    /// session.
    ///
    /// `NeedInput` comes where the bytes hold no further part and the input hasn't ended, `InputEnd` where
    /// it has ended behind whole requests, and `Cut` where it has ended inside one. `Bad` comes where the
    /// bytes begin with a head that doesn't say where its body ends, or where none can follow that make a
    /// head or a body of them; `TooManyHeaders` and `HeadTooLong` as `read_head` tells them apart. After a
    /// fault the session stands where it stood, so the fault is answered again at every further call:
    /// more bytes mend none but `Cut`, and `Memory`, after which nothing was taken, may go.
    pub fn part(&mut self, alloc: Global) -> Result<Part, HttpFault>
        ensures gives { Gives self.old result self.new }
        ensures room { result ≡ Ok Part.NeedInput → (self.new.body ≡ []) × (length self.new.waiting < MAX_HEAD) }
        ensures still { result ≡ Ok Part.NeedInput → HoldsNoPart self.new.place self.new.waiting }
        ensures reads { (done : List Given) (now : Option Given) (taken : List ℕ) → HasRead done now taken self.old.place → ReadsOn done now taken self.old result self.new }
    {
        self.next_part(alloc)
    }
}
