//! The top call.
ghost use Rattle.std.specs.Prelude.{◌≡◌, ◌↔◌, ◌≤◌, ◌⊎◌, codes, IfSome, IsTrue, Some};
ghost use Rattle.hb_outside.specs.Causes.{Rose};
ghost use Rattle.hb_outside.specs.Clocks.{behind};
ghost use Rattle.hb_desk.specs.Points.{IsStreamFault};
ghost use Rattle.hb_desk.specs.ClockedDesks.{clocked};
ghost use Rattle.hb_world.specs.Pullable.{IsPullable};
ghost use Rattle.hb_world.specs.Starting.{CanStart, IsAtRest, IsMisfit};
ghost use Rattle.hb_world.specs.Worlds.{WorldParts, shown, view_of};
ghost use Rattle.hb_talk.specs.Talks.{Talked, now_of};
ghost use Rattle.hb_talk.specs.declared.ends.TalkEnd.{TalkEnd as End};
ghost use Rattle.harbor_core.specs.Runs.{IsTalk, NotStarted, RanTalk, SaysUsage, devices, status_of, status_of_fault};

use hb_keeper::Keeper;
use hb_outside::{Clock, Sink, Source};
use hb_store::Store;
use hb_talk::{TalkEnd, talk};
use hb_text::Text;
use hb_world::{StartFault, World};
use std::alloc::Global;

/// The exit status of a run, and the devices that it hands back.
#[derive(Drop)]
pub struct Ended<K, S> {
    pub status: u8,
    pub keeper: K,
    pub store: S,
}

fn status_of(end: TalkEnd) -> u8
    ensures { result ≡ status_of end }
{
    match end {
        TalkEnd::Closed => 0,
        TalkEnd::Cut => 11,
        TalkEnd::Bad => 11,
        TalkEnd::Long => 10,
        TalkEnd::ReadFault => 3,
        TalkEnd::WriteFault => 4,
        TalkEnd::Memory => 7,
    }
}

fn is_talk_word(word: &Text) -> bool
    ensures { IsTrue result ↔ (word.now ≡ codes "talk") }
{
    word.bytes() == b"talk".as_slice()
}

fn is_talk(words: &[Text]) -> bool
    ensures { IsTrue result ↔ IsTalk words.now }
{
    match words {
        [word] => is_talk_word(word),
        _ => false,
    }
}

fn status_of_fault(fault: StartFault) -> u8
    ensures { result ≡ status_of_fault fault }
{
    match fault {
        StartFault::Misfit(_) => 8,
        StartFault::Failed => 5,
        StartFault::Memory => 7,
    }
}

// Talks over one connection, and hands back the devices of the world.
fn converse<K: Keeper, S: Store, C: Clock, I: Source, O: Sink>(
    alloc: Global,
    clock: &mut C,
    input: &mut I,
    out: &mut O,
    world: World<K, S>,
) -> Ended<K, S>
    ensures talked { (end : End) × (left : WorldParts K S) × (result.status ≡ status_of end) × (result.keeper ≡ left.keeper) × (result.store ≡ left.store)
        × Talked (IsStreamFault S.Stage S.Reader S.Stage.faults S.Reader.faults)
        (now_of (clocked (view_of (shown K.rows K.faults S.contents S.faults world)) (C.readings clock.old)) (I.left input.old) (I.ended input.old) (O.held out.old))
        (now_of (clocked (view_of (shown K.rows K.faults S.contents S.faults left)) (C.readings clock.new)) (I.left input.new) (I.ended input.new) (O.held out.new)) end }
    ensures rest { IsAtRest (K.rows result.keeper) (S.contents result.store) }
    ensures pullable { IfSome (K.rows result.keeper) (λ r. IsPullable r (S.contents result.store)) }
    ensures later { K.faults world.keeper ≤ K.faults result.keeper }
    ensures read { result.status ≡ 3 → Rose (I.faults input.old) (I.faults input.new) }
    ensures written { result.status ≡ 4 → Rose (O.faults out.old) (O.faults out.new) }
{
    let mut world = world;
    let end = talk(alloc, &mut world, clock, input, out);
    let (keeper, store) = world.close();
    Ended {
        status: status_of(end),
        keeper,
        store,
    }
}

/// Does what the words say over these devices, and hands them back with an exit status.
///
/// The single word `talk` starts a world on the devices and talks over one connection: it reads requests from
/// the input and writes their answers, until the input ends, a request closes, or a device fails. Other words
/// are status 2, and `usage` is written. A start that is refused reads and writes nothing, and leaves the rows.
///
/// Devices at rest are at rest again when they are handed back, whatever the status, and what clients see after the rows'
/// audit can then be pulled from them.
///
/// | status | comes |
/// |---|---|
/// | 0 | the input ended between requests, or a request closed the connection |
/// | 2 | exactly for other words than `talk` |
/// | 3 | only where the source's count of faults rose |
/// | 4 | only where the sink's count of faults rose |
/// | 5 | only where the keeper's count of faults rose, at the start |
/// | 7 | want of memory, freely |
/// | 8 | only where the rows don't fit, where they are told; and nothing else but 5 and 7 comes then |
/// | 10 | as many bytes were read as a connection may send, 2^62 |
/// | 11 | the input ended inside a request, or is malformed or above the limits of a head |
pub fn run<K: Keeper, S: Store, C: Clock, I: Source, O: Sink>(
    alloc: Global,
    words: &[Text],
    clock: &mut C,
    input: &mut I,
    out: &mut O,
    keeper: K,
    store: S,
) -> Ended<K, S>
    requires can { CanStart (K.rows keeper) (S.contents store) }
    // A talk ran over a world that opened on the devices: what is written are the answers of the requests that were read,
    // each by the points of its own events, which stand at the readings of the clock behind that of the start; and the rows
    // that are left are those of the audit after the last.
    ensures talked { IsTalk words.now → RanTalk (IsStreamFault S.Stage S.Reader S.Stage.faults S.Reader.faults) (C.readings clock.old)
        (λ v. now_of (clocked v (behind (C.readings clock.old))) (I.left input.old) (I.ended input.old) (O.held out.old)) (λ v. now_of (clocked v (C.readings clock.new)) (I.left input.new) (I.ended input.new) (O.held out.new))
        (devices (K.rows keeper) (S.contents store) (K.faults keeper) (S.faults store)) (devices (K.rows result.keeper) (S.contents result.store) (K.faults result.keeper) (S.faults result.store))
        result.status
        ⊎ NotStarted result.status (input.new ≡ input.old) (out.new ≡ out.old) (result.store ≡ store) (K.rows result.keeper ≡ K.rows keeper) }
    ensures misfit { IsTalk words.now → IsMisfit (K.rows keeper) → (result.status ≡ 8) ⊎ (result.status ≡ 5) ⊎ (result.status ≡ 7) }
    ensures unfit { result.status ≡ 8 → IfSome (K.rows keeper) (λ t. IsMisfit (Some t)) }
    ensures rest { IsAtRest (K.rows keeper) (S.contents store) → IsAtRest (K.rows result.keeper) (S.contents result.store) }
    ensures pullable { IsAtRest (K.rows keeper) (S.contents store) → IfSome (K.rows result.keeper) (λ r. IsPullable r (S.contents result.store)) }
    ensures words { (result.status ≡ 2) ↔ ¬ (IsTalk words.now) }
    ensures usage { ¬ (IsTalk words.now) → SaysUsage (O.held out.old) (O.held out.new) (O.faults out.old) (O.faults out.new) × (input.new ≡ input.old) × (result.keeper ≡ keeper) × (result.store ≡ store) }
    ensures read { result.status ≡ 3 → Rose (I.faults input.old) (I.faults input.new) }
    ensures written { result.status ≡ 4 → Rose (O.faults out.old) (O.faults out.new) }
    ensures failed { result.status ≡ 5 → Rose (K.faults keeper) (K.faults result.keeper) }
    ensures later { K.faults keeper ≤ K.faults result.keeper }
{
    if !is_talk(words) {
        let _written = out.write(b"usage\n");
        return Ended {
            status: 2,
            keeper,
            store,
        };
    }
    match World::start(alloc, keeper, store, clock.now()) {
        Ok(world) => converse(alloc, clock, input, out, world),
        Err(refused) => Ended {
            status: status_of_fault(refused.fault),
            keeper: refused.keeper,
            store: refused.store,
        },
    }
}
