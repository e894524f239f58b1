//! What holds of replies and of events, whatever desk answers. Each function does nothing: its contract is the law.
ghost use Rattle.std.specs.Prelude.{◌≡◌, ◌≤◌, ◌^◌, ℕ, suc, true, false, List, length, Some, IfSome};
ghost use Rattle.std.specs.List.{AllByRecursion};
ghost use Rattle.hb_records.specs.declared.entries.EntryKind.{EntryKind};
ghost use Rattle.hb_records.specs.declared.notes.Sealed.{Sealed};
ghost use Rattle.hb_model.specs.History.{History, Legal, latest};
ghost use Rattle.hb_desk.specs.Calls.{Call, Outcome};
ghost use Rattle.hb_desk.specs.Chains.{AreTimely, Chain, IsSpentByReply, StandsBehind};
ghost use Rattle.hb_desk.specs.Clause.{AllFit, Between, Causes, EventOf, View, moves_seal};
ghost use Rattle.hb_desk.specs.Events.{Event, after};
ghost use Rattle.hb_desk.specs.Keeping.{AsksKeepWhole};
ghost use Rattle.hb_desk.specs.Notes.{sealed_at};
ghost use Rattle.hb_desk.specs.Points.{Point};
ghost use Rattle.hb_desk.specs.Prefix.{GoesOn};
ghost use Rattle.hb_desk.specs.Reply.{reply};
ghost use Rattle.hb_desk.specs.State.{State};
ghost use Rattle.hb_desk.specs.ClockedDesks.{ClockedDesk};

/// The entry that a reply makes is legal as the next one, at a moment that doesn't fall.
pub fn what_is_replied_is_legal()
    ensures { (s : State) (call : Call) (t : ℕ) (kind : EntryKind) → latest s.audit ≤ t
        → (reply call s t).entry ≡ Some kind
        → Legal s.audit (record { number = suc (length s.audit); moment = t; kind = kind }) }
{}

/// Events that fit their replies make a history of a history.
pub fn events_keep_a_history()
    ensures { (events : List Event) (s : State) → History s.audit → AllFit events s
        → History (after events s).audit }
{}

/// What was seen stays, whatever happens.
pub fn what_was_seen_stays()
    ensures { (events : List Event) (s : State) → GoesOn s.audit (after events s).audit }
{}

/// An ask that is answered by its reply or by a fault leaves rows, notes and store that fit one another.
pub fn asks_keep_the_registry_whole()
    ensures { AsksKeepWhole }
{}

/// One event of theirs that seals and places none of the caller's sealed uploads is what others may do between two
/// events of a caller.
pub fn one_event_is_what_others_may_do()
    ensures { (own : List Sealed) (old new : View) (now : ℕ) (call : Call) (outcome : Outcome)
        → ((u : ℕ) (x : Sealed) → sealed_at u own ≡ Some x → moves_seal u call outcome ≡ false)
        → old.spent ≡ false → new.spent ≡ false → EventOf old new call outcome → Causes old new now call outcome
        → Between own old new }
{}

/// Others may do nothing.
pub fn others_may_rest()
    ensures { (own : List Sealed) (v : View) → v.entries ≤ 2 ^ 62 → Between own v v }
{}

/// What others may do, and what they may do behind it, is together what they may do.
pub fn what_others_do_adds_up()
    ensures { (own : List Sealed) (old mid new : View) → Between own old mid → Between own mid new → Between own old new }
{}

/// What a caller had seen stays. So does what its events made: behind each point stands what happened there, and an
/// entry of it is among the caller's own.
pub fn points_stand_in_what_was_seen()
    ensures { (start now : ClockedDesk) (points : List Point) (s t : State) → Chain start points now
        → start.view.state ≡ Some s → now.view.state ≡ Some t
        → GoesOn s.audit t.audit × AllByRecursion (StandsBehind t.audit (λ n. now.view.mine n ≡ true)) points }
{}

/// A caller whose seat isn't spent at the end was refused as spent only where the audit was full; by the reply, where what
/// was seen is told.
pub fn only_a_full_audit_is_spent()
    ensures { (start now : ClockedDesk) (points : List Point) → Chain start points now → now.view.spent ≡ false
        → AllByRecursion (IsSpentByReply now.view.entries) points }
{}

/// Each event of a caller stood at the reading of its clock that was its turn, or later; unless it wasn't made.
pub fn events_stand_at_readings_of_the_clock()
    ensures { (start now : ClockedDesk) (points : List Point) → Chain start points now
        → IfSome start.readings (λ reading. AreTimely reading points) }
{}
