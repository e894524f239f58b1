//! A talk over one connection.
ghost use Rattle.std.specs.Prelude.{◌≡◌, ◌<◌, ◌≤◌, ◌^◌, [], length, true, codes, None, Some, IfErr, IfOk, OnErr, OnOk};
ghost use Rattle.hb_outside.specs.Causes.{HasCause, Rose};
ghost use Rattle.hb_http.specs.AnswerHeads.{HasPhrase};
ghost use Rattle.hb_http.specs.Readings.{Given};
ghost use Rattle.hb_http.specs.Standing.{fresh};
ghost use Rattle.hb_http.specs.declared.TheConstants.{MAX_HEAD};
ghost use Rattle.hb_outside.specs.Streams.{Writes};
ghost use Rattle.hb_desk.specs.Points.{IsStreamFault, Moves};
ghost use Rattle.hb_desk.specs.ClockedDesks.{clocked};
ghost use Rattle.hb_ops.specs.Errors.{error_answer, plain};
ghost use Rattle.hb_talk.specs.Texts.{answer_text};
ghost use Rattle.hb_talk.specs.Progress.{Answered, Begins, Came, Comes, EndsBy, EndsFault, Fails, Gathers, GoesOn, Progress, Reads, Served, too_long_text, work_left};
ghost use Rattle.hb_talk.specs.Talks.{Moment, Talked, now_of};

use crate::answers::{bad_head, too_long};
use crate::coming::{Coming, is_bare};
use crate::ends::{TalkEnd, Turned};
use crate::serving::serve;
use crate::texts::{as_asked, text_of};
use crate::wanted::is_too_long;
use hb_desk::{Answer, Desk};
use hb_http::{Head, HttpFault, Part, Session};
use hb_outside::{Clock, ReadFailed, Sink, Source};
use hb_routes::Router;
use hb_text::{Memory, Text};
use std::alloc::Global;
use std::marker::Model;
use std::mem;

/// The most bytes of one read.
const PIECE: usize = 65_536;

/// The most bytes that one connection may send: 2^62.
const MOST_INPUT: u64 = 1 << 62;

// A connection: its bytes as they are taken apart, and the request that comes.
#[derive(Drop)]
struct Connection {
    alloc: Global,
    router: Router,
    session: Session,
    coming: Option<Coming>,
    // how many bytes have come
    taken: u64,
    // what a read is made into
    piece: Vec<u8>,
}

impl Model for Connection {
    ghost use Rattle.std.specs.Prelude.{◌≡◌, ◌≤◌, ◌^◌, vec_len};
    ghost use Rattle.hb_talk.specs.Progress.{TalkParts};

    ghost Value = { TalkParts };

    ghost view = { λ t. record { standing = t.session; coming = t.coming; taken = t.taken } };

    ghost invariant = { λ t. (vec_len t.piece ≡ 65536) × (t.taken ≤ 2 ^ 62) };
}

// Writes an answer, behind which the connection closes or not. Where it can't, the talk ends so.
fn write<O: Sink>(alloc: Global, out: &mut O, answer: Answer, close: bool) -> Result<(), TalkEnd>
    requires phrase { HasPhrase answer.status }
    ensures wrote { OnOk result (Writes (O.held out.old) (O.held out.new) (answer_text close answer)) }
    ensures fails { IfErr result (Fails (answer_text close answer) (O.held out.old) (O.held out.new)) }
    ensures later { O.faults out.old ≤ O.faults out.new }
    ensures written { IfErr result (λ end. end ≡ TalkEnd.WriteFault → Rose (O.faults out.old) (O.faults out.new)) }
{
    let Ok(text) = text_of(alloc, answer, close) else {
        return Err(TalkEnd::Memory);
    };
    match out.write(&text) {
        Ok(()) => Ok(()),
        Err(_) => Err(TalkEnd::WriteFault),
    }
}

// Writes an error, behind which the connection closes, and ends the talk as one of malformed bytes.
fn refuse<O: Sink>(alloc: Global, out: &mut O, status: u16) -> TalkEnd
    requires phrase { HasPhrase status }
    ensures ends { EndsBy TalkEnd.Bad (answer_text true (error_answer (plain status (codes "HEAD_INVALID")))) (O.held out.old) (O.held out.new) result }
    ensures later { O.faults out.old ≤ O.faults out.new }
    ensures written { result ≡ TalkEnd.WriteFault → Rose (O.faults out.old) (O.faults out.new) }
{
    let Ok(answer) = bad_head(alloc, status) else {
        return TalkEnd::Memory;
    };
    match write(alloc, out, answer, true) {
        Ok(()) => TalkEnd::Bad,
        Err(end) => end,
    }
}

// Answers 413 SIZE_INVALID to a request that is too long, without a body where that is asked for, and closes.
fn refuse_long<O: Sink>(alloc: Global, out: &mut O, bare: bool) -> TalkEnd
    ensures ends { EndsBy TalkEnd.Closed (too_long_text bare) (O.held out.old) (O.held out.new) result }
    ensures later { O.faults out.old ≤ O.faults out.new }
    ensures written { result ≡ TalkEnd.WriteFault → Rose (O.faults out.old) (O.faults out.new) }
{
    let Ok(answer) = too_long(alloc) else {
        return TalkEnd::Memory;
    };
    match write(alloc, out, as_asked(answer, bare), true) {
        Ok(()) => TalkEnd::Closed,
        Err(end) => end,
    }
}

// Ends the talk where the bytes hold no further part: 400 HEAD_INVALID for malformed ones, and 431 HEAD_INVALID for a head
// above its limits.
fn end_by<O: Sink>(alloc: Global, out: &mut O, fault: HttpFault) -> TalkEnd
    ensures ends { EndsFault fault (O.held out.old) (O.held out.new) result }
    ensures later { O.faults out.old ≤ O.faults out.new }
    ensures written { result ≡ TalkEnd.WriteFault → Rose (O.faults out.old) (O.faults out.new) }
    ensures unread { ¬ (result ≡ TalkEnd.ReadFault) }
{
    match fault {
        HttpFault::Cut => TalkEnd::Cut,
        HttpFault::Memory => TalkEnd::Memory,
        HttpFault::Bad => refuse(alloc, out, 400),
        HttpFault::TooManyHeaders => refuse(alloc, out, 431),
        HttpFault::HeadTooLong => refuse(alloc, out, 431),
    }
}

// What a request is answered whose body has come.
fn answer_of<D: Desk, C: Clock>(
    alloc: Global,
    desk: &mut D,
    clock: &mut C,
    coming: Coming,
) -> Result<Answer, Memory>
    ensures served { (g : Given) → Comes (Some coming) (Some g) → Served (IsStreamFault D.Stage D.Reader D.Stage.faults D.Reader.faults) (clocked (D.view desk.old) (C.readings clock.old)) (clocked (D.view desk.new) (C.readings clock.new)) g result }
    ensures moves { Moves (D.view desk.old) (D.view desk.new) }
    ensures phrase { IfOk result (λ a. HasPhrase a.status) }
{
    let Coming {
        wanted,
        media,
        last: _,
        bare,
        body,
    } = coming;
    let served = serve(alloc, desk, clock, wanted, &media, Text::of(body));
    mem::drop(media);
    match served {
        Ok(answer) => Ok(as_asked(answer, bare)),
        Err(Memory) => Err(Memory),
    }
}

// Reads at most so many bytes, and hands them to the session. None is the end of the input.
fn read_piece<I: Source>(
    input: &mut I,
    piece: &mut [u8],
    session: &mut Session,
    most: u64,
) -> Result<usize, ReadFailed>
    requires piece { length piece.old ≡ 65536 }
    requires body { session.old.body ≡ [] }
    requires room { length session.old.waiting < MAX_HEAD }
    requires some { 0 < most }
    ensures few { IfOk result (λ n. n ≤ most) }
    ensures short { IfOk result (λ n. n ≤ 65536) }
    ensures came { IfOk result (Came session.old session.new (I.left input.old) (I.left input.new) (I.ended input.old) (I.ended input.new)) }
    ensures failed { OnErr result ((session.new ≡ session.old) × (I.left input.new ≡ I.left input.old) × (I.ended input.new ≡ I.ended input.old)) }
    ensures cause { HasCause (I.faults input.old) (I.faults input.new) result }
{
    let most = if most < PIECE as u64 {
        most as usize
    } else {
        PIECE
    };
    match input.read(&mut piece[..most]) {
        Ok(0) => {
            session.close_input();
            Ok(0)
        }
        Ok(count) => {
            session.feed(&piece[..count]);
            Ok(count)
        }
        Err(failed) => Err(failed),
    }
}

impl Connection {
    fn new(alloc: Global) -> Result<Connection, Memory>
        ensures { IfOk result (λ t. t ≡ record { standing = fresh; coming = None; taken = 0 }) }
    {
        Ok(Connection {
            alloc,
            router: Router::new(alloc)?,
            session: Session::new(alloc)?,
            coming: None,
            taken: 0,
            piece: vec![in alloc; 0u8; PIECE]?,
        })
    }

    // A head has come. One that tells too long a body is answered at once, and nothing behind it is read.
    fn begin<O: Sink>(&mut self, head: Head, out: &mut O) -> Turned
        ensures begins { Begins self.old head (O.held out.old) (O.held out.new) self.new result }
        ensures later { O.faults out.old ≤ O.faults out.new }
        ensures written { result ≡ Turned.Ended TalkEnd.WriteFault → Rose (O.faults out.old) (O.faults out.new) }
        ensures unread { ¬ (result ≡ Turned.Ended TalkEnd.ReadFault) }
    {
        if is_too_long(head.length) {
            return Turned::Ended(refuse_long(self.alloc, out, is_bare(&head.method)));
        }
        match Coming::of(self.alloc, &self.router, head) {
            Ok(coming) => {
                self.coming = Some(coming);
                Turned::More
            }
            Err(Memory) => Turned::Ended(TalkEnd::Memory),
        }
    }

    // A piece of the body has come, which follows a head. One with which the body is too long is answered at once.
    fn gather<O: Sink>(&mut self, out: &mut O) -> Turned
        ensures gathers { Gathers self.old (O.held out.old) (O.held out.new) self.new result }
        ensures later { O.faults out.old ≤ O.faults out.new }
        ensures written { result ≡ Turned.Ended TalkEnd.WriteFault → Rose (O.faults out.old) (O.faults out.new) }
        ensures unread { ¬ (result ≡ Turned.Ended TalkEnd.ReadFault) }
    {
        let Some(coming) = &mut self.coming else {
            return Turned::Ended(TalkEnd::Bad);
        };
        let piece = self.session.body();
        if !coming.has_room(piece) {
            return Turned::Ended(refuse_long(self.alloc, out, coming.bare));
        }
        match coming.add(piece) {
            Ok(()) => Turned::More,
            Err(Memory) => Turned::Ended(TalkEnd::Memory),
        }
    }

    // The request has come to its end: it is done and answered.
    fn answer<D: Desk, C: Clock, O: Sink>(
        &mut self,
        desk: &mut D,
        clock: &mut C,
        out: &mut O,
    ) -> Turned
        ensures answered { (g : Given) → Comes self.old.coming (Some g) → Answered (IsStreamFault D.Stage D.Reader D.Stage.faults D.Reader.faults) (clocked (D.view desk.old) (C.readings clock.old)) (clocked (D.view desk.new) (C.readings clock.new)) (O.held out.old) (O.held out.new) g result }
        ensures moves { Moves (D.view desk.old) (D.view desk.new) }
        ensures next { self.new ≡ record { standing = self.old.standing; coming = None; taken = self.old.taken } }
        ensures later { O.faults out.old ≤ O.faults out.new }
        ensures written { result ≡ Turned.Ended TalkEnd.WriteFault → Rose (O.faults out.old) (O.faults out.new) }
        ensures unread { ¬ (result ≡ Turned.Ended TalkEnd.ReadFault) }
    {
        let Some(coming) = self.coming.take() else {
            return Turned::Ended(TalkEnd::Bad);
        };
        let last = coming.last;
        let Ok(answer) = answer_of(self.alloc, desk, clock, coming) else {
            return Turned::Ended(TalkEnd::Memory);
        };
        match write(self.alloc, out, answer, last) {
            Ok(()) if last => Turned::Ended(TalkEnd::Closed),
            Ok(()) => Turned::More,
            Err(end) => Turned::Ended(end),
        }
    }

    // Reads the next piece of the input.
    fn read_on<I: Source>(&mut self, input: &mut I) -> Turned
        requires body { self.old.standing.body ≡ [] }
        requires room { length self.old.standing.waiting < MAX_HEAD }
        ensures reads { Reads self.old self.new (I.left input.old) (I.left input.new) (I.ended input.old) (I.ended input.new) result }
        ensures few { self.new.taken ≤ 2 ^ 62 }
        ensures later { I.faults input.old ≤ I.faults input.new }
        ensures failed { result ≡ Turned.Ended TalkEnd.ReadFault → Rose (I.faults input.old) (I.faults input.new) }
        ensures unwritten { ¬ (result ≡ Turned.Ended TalkEnd.WriteFault) }
    {
        let room = MOST_INPUT - self.taken;
        if room == 0 {
            return Turned::Ended(TalkEnd::Long);
        }
        match read_piece(input, &mut self.piece, &mut self.session, room) {
            Ok(count) => {
                self.taken += count as u64;
                Turned::More
            }
            Err(ReadFailed) => Turned::Ended(TalkEnd::ReadFault),
        }
    }

    // One turn: a part of a request is taken, or a piece is read.
    fn turn<D: Desk, C: Clock, I: Source, O: Sink>(
        &mut self,
        desk: &mut D,
        clock: &mut C,
        input: &mut I,
        out: &mut O,
    ) -> Turned
        ensures talk { (start : Moment) → Progress (IsStreamFault D.Stage D.Reader D.Stage.faults D.Reader.faults) start (now_of (clocked (D.view desk.old) (C.readings clock.old)) (I.left input.old) (I.ended input.old) (O.held out.old)) self.old
            → GoesOn (IsStreamFault D.Stage D.Reader D.Stage.faults D.Reader.faults) start (now_of (clocked (D.view desk.new) (C.readings clock.new)) (I.left input.new) (I.ended input.new) (O.held out.new)) self.new result }
        ensures moves { Moves (D.view desk.old) (D.view desk.new) }
        ensures less { result ≡ Turned.More → work_left self.new < work_left self.old }
        ensures read_later { I.faults input.old ≤ I.faults input.new }
        ensures write_later { O.faults out.old ≤ O.faults out.new }
        ensures read { result ≡ Turned.Ended TalkEnd.ReadFault → Rose (I.faults input.old) (I.faults input.new) }
        ensures written { result ≡ Turned.Ended TalkEnd.WriteFault → Rose (O.faults out.old) (O.faults out.new) }
    {
        match self.session.part(self.alloc) {
            Ok(Part::NeedInput) => self.read_on(input),
            Ok(Part::Head(head)) => self.begin(head, out),
            Ok(Part::Body) => self.gather(out),
            Ok(Part::BodyEnd) => self.answer(desk, clock, out),
            Ok(Part::InputEnd) => Turned::Ended(TalkEnd::Closed),
            Err(fault) => Turned::Ended(end_by(self.alloc, out, fault)),
        }
    }

    // Turns, until the talk ends.
    fn turns<D: Desk, C: Clock, I: Source, O: Sink>(
        &mut self,
        desk: &mut D,
        clock: &mut C,
        input: &mut I,
        out: &mut O,
    ) -> TalkEnd
        ensures talk { (start : Moment) → Progress (IsStreamFault D.Stage D.Reader D.Stage.faults D.Reader.faults) start (now_of (clocked (D.view desk.old) (C.readings clock.old)) (I.left input.old) (I.ended input.old) (O.held out.old)) self.old
            → Talked (IsStreamFault D.Stage D.Reader D.Stage.faults D.Reader.faults) start (now_of (clocked (D.view desk.new) (C.readings clock.new)) (I.left input.new) (I.ended input.new) (O.held out.new)) result }
        ensures moves { Moves (D.view desk.old) (D.view desk.new) }
        ensures read { result ≡ TalkEnd.ReadFault → Rose (I.faults input.old) (I.faults input.new) }
        ensures written { result ≡ TalkEnd.WriteFault → Rose (O.faults out.old) (O.faults out.new) }
    {
        loop {
            match self.turn(desk, clock, input, out) {
                Turned::More => {}
                Turned::Ended(end) => return end,
            }
        }
    }
}

/// Talks over one connection: reads requests and writes their answers, until the input ends, a request closes, or a device
/// fails.
pub fn talk<D: Desk, C: Clock, I: Source, O: Sink>(
    alloc: Global,
    desk: &mut D,
    clock: &mut C,
    input: &mut I,
    out: &mut O,
) -> TalkEnd
    ensures talk { Talked (IsStreamFault D.Stage D.Reader D.Stage.faults D.Reader.faults)
        (now_of (clocked (D.view desk.old) (C.readings clock.old)) (I.left input.old) (I.ended input.old) (O.held out.old))
        (now_of (clocked (D.view desk.new) (C.readings clock.new)) (I.left input.new) (I.ended input.new) (O.held out.new)) result }
    ensures moves { Moves (D.view desk.old) (D.view desk.new) }
    ensures read { result ≡ TalkEnd.ReadFault → Rose (I.faults input.old) (I.faults input.new) }
    ensures written { result ≡ TalkEnd.WriteFault → Rose (O.faults out.old) (O.faults out.new) }
{
    let Ok(mut connection) = Connection::new(alloc) else {
        return TalkEnd::Memory;
    };
    let end = connection.turns(desk, clock, input, out);
    mem::drop(connection);
    end
}
