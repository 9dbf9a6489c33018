ghost use Rattle.std.specs.Prelude.{◌≡◌, ◌++◌, [], ◌∷◌, List, codes, IfOk, OnErr, OnOk};
ghost use Rattle.alerts.specs.Ringing.{Hung, hung_all};
ghost use Rattle.desk.specs.InPart.{AreGivenInPart};
ghost use Rattle.desk.specs.Keeping.{kept_at};
ghost use Rattle.desk.specs.Seen.{desk_seen, DeskGoesOn};
ghost use Rattle.desk_state.specs.Repeats.{IsAskable};
ghost use Rattle.desk_state.specs.Texts.{closing};
ghost use Rattle.relief.specs.Roster.{desks_in, desks_of};
ghost use Rattle.relief.specs.Seated.{HaveHeard, Told, told_under};
ghost use Rattle.scripts.specs.Forms.{CanBeTaken};
ghost use Rattle.scripts.specs.Routes as routes;
ghost use Rattle.scripts.specs.Routes.{items_in, items_of, roster_after, roster_after_all, taken_all};
ghost use Rattle.scripts.specs.RosterTexts.{roster_text};
ghost use Rattle.scripts.specs.ShiftLines.{AreReplied, HaveHeardSome, HearOn, IsAnsweredAs, IsAnsweredUnder, IsShifts};
ghost use Rattle.scripts.specs.ShiftRuns.{AreSeatedAlways, IsSeatedRun, IsShiftRunInPart};

use crate::roster_text::push_roster;
use crate::routes::{Routed, route};
use alerts::{Bell, Notice, Ringer};
use desk::{Board, Desk, Gate, answer_item, said_text};
use desk_io::{LineFeeds, OutOfMemory, Run, Text, push_all, runs_between};
use desk_state::Item;
use keeper::Keeper;
use relief::Roster;
use rules::Steps;
use std::alloc::Global;
use std::sync::ledger::Ledger;

// The only lane.
const LANE: u32 = 1;

// Delivers the notices of an item to the persons who sit at the desks now.
fn ring<B: Bell>(ringer: &mut Ringer<B>, roster: &Roster, ticked: &[Notice], called: &[Notice])
    ensures { (told : List Told) → (bells : List Hung) → HaveHeard told bells (hung_all B.seen ringer.old)
        → HaveHeard (told ++ (told_under roster.now ticked.now ++ told_under roster.now called.now)) bells
        (hung_all B.seen ringer.new) }
{
    ringer.ring_seated(roster, ticked);
    ringer.ring_seated(roster, called);
}

// Answers an item on the board, rings the bells and returns the reply.
fn answer_on_board<K: Keeper, B: Bell, L: Ledger>(
    alloc: Global,
    desk: &mut Desk<K, B>,
    ringer: &mut Ringer<B>,
    roster: &Roster,
    item: &Item,
    steps: &mut Steps<L>,
) -> Result<Text, OutOfMemory>
    requires { IsAskable item.now }
    ensures answered { IfOk result (IsAnsweredUnder roster.now item.now (desk_seen K.seen B.seen desk.old)
        (desk_seen K.seen B.seen desk.new) (hung_all B.seen ringer.old) (hung_all B.seen ringer.new)) }
    ensures err { OnErr result (AreGivenInPart 1 (kept_at (K.seen desk.old.keeper))
        (kept_at (K.seen desk.new.keeper)) desk.old.board.state (item.now ∷ []) desk.new.board.state) }
    ensures on { DeskGoesOn (desk_seen K.seen B.seen desk.old) (desk_seen K.seen B.seen desk.new) }
    ensures hears { HearOn (hung_all B.seen ringer.old) (hung_all B.seen ringer.new) }
{
    let answered = answer_item(alloc, desk, LANE, item, steps)?;
    ring(
        ringer,
        roster,
        answered.ticked.as_slice(),
        answered.called.as_slice(),
    );
    said_text(alloc, &answered.outcome.said)
}

fn answer_routed<K: Keeper, B: Bell, L: Ledger>(
    alloc: Global,
    desk: &mut Desk<K, B>,
    ringer: &mut Ringer<B>,
    roster: &Roster,
    routed: Routed,
    steps: &mut Steps<L>,
) -> Result<Text, OutOfMemory>
    requires { CanBeTaken routed }
    ensures answered { IfOk result (IsAnsweredAs routed roster.now (desk_seen K.seen B.seen desk.old)
        (desk_seen K.seen B.seen desk.new) (hung_all B.seen ringer.old) (hung_all B.seen ringer.new)) }
    ensures err { OnErr result (AreGivenInPart 1 (kept_at (K.seen desk.old.keeper))
        (kept_at (K.seen desk.new.keeper)) desk.old.board.state (items_of routed) desk.new.board.state) }
    ensures on { DeskGoesOn (desk_seen K.seen B.seen desk.old) (desk_seen K.seen B.seen desk.new) }
    ensures hears { HearOn (hung_all B.seen ringer.old) (hung_all B.seen ringer.new) }
{
    match routed {
        Routed::ToBoard(item) => answer_on_board(alloc, desk, ringer, roster, &item, steps),
        Routed::Replied(text) => Ok(text),
    }
}

// Answers a line: on the board, or at once. Returns the reply.
fn answer_line<K: Keeper, B: Bell, L: Ledger>(
    alloc: Global,
    desk: &mut Desk<K, B>,
    ringer: &mut Ringer<B>,
    roster: &mut Roster,
    line: &[u8],
    steps: &mut Steps<L>,
) -> Result<Text, OutOfMemory>
    requires { desks_in roster.old ≡ desks_of desk.old.board.state.tables }
    ensures answered { IfOk result (IsAnsweredAs (routes.route desk.old.board.state.tables roster.old line.now)
        (roster_after desk.old.board.state.tables roster.old line.now) (desk_seen K.seen B.seen desk.old)
        (desk_seen K.seen B.seen desk.new) (hung_all B.seen ringer.old) (hung_all B.seen ringer.new)) }
    ensures roster { OnOk result (roster.new ≡ roster_after desk.old.board.state.tables roster.old line.now) }
    ensures desks { desks_in roster.new ≡ desks_in roster.old }
    ensures err { OnErr result (AreGivenInPart 1 (kept_at (K.seen desk.old.keeper))
        (kept_at (K.seen desk.new.keeper)) desk.old.board.state
        (items_of (routes.route desk.old.board.state.tables roster.old line.now)) desk.new.board.state) }
    ensures on { DeskGoesOn (desk_seen K.seen B.seen desk.old) (desk_seen K.seen B.seen desk.new) }
    ensures hears { HearOn (hung_all B.seen ringer.old) (hung_all B.seen ringer.new) }
{
    let routed = route(alloc, desk.board.tables(), roster, line)?;
    answer_routed(alloc, desk, ringer, roster, routed, steps)
}

// Answers a line between the two callbacks of the gate. `number` counts the lines from 1.
fn answer_passed<K: Keeper, B: Bell, G: Gate, L: Ledger>(
    alloc: Global,
    desk: &mut Desk<K, B>,
    ringer: &mut Ringer<B>,
    roster: &mut Roster,
    line: &[u8],
    number: u32,
    gate: &G,
    steps: &mut Steps<L>,
) -> Result<Text, OutOfMemory>
    requires { desks_in roster.old ≡ desks_of desk.old.board.state.tables }
    ensures answered { IfOk result (IsAnsweredAs (routes.route desk.old.board.state.tables roster.old line.now)
        (roster_after desk.old.board.state.tables roster.old line.now) (desk_seen K.seen B.seen desk.old)
        (desk_seen K.seen B.seen desk.new) (hung_all B.seen ringer.old) (hung_all B.seen ringer.new)) }
    ensures roster { OnOk result (roster.new ≡ roster_after desk.old.board.state.tables roster.old line.now) }
    ensures desks { desks_in roster.new ≡ desks_in roster.old }
    ensures err { OnErr result (AreGivenInPart 1 (kept_at (K.seen desk.old.keeper))
        (kept_at (K.seen desk.new.keeper)) desk.old.board.state
        (items_of (routes.route desk.old.board.state.tables roster.old line.now)) desk.new.board.state) }
    ensures on { DeskGoesOn (desk_seen K.seen B.seen desk.old) (desk_seen K.seen B.seen desk.new) }
    ensures hears { HearOn (hung_all B.seen ringer.old) (hung_all B.seen ringer.new) }
{
    gate.before(LANE, number);
    let answered = answer_line(alloc, desk, ringer, roster, line, steps);
    gate.after(LANE, number);
    answered
}

fn push_line(out: &mut Vec<u8>, reply: &Text) -> Result<(), OutOfMemory>
    ensures { OnOk result (out.new.items ≡ out.old.items ++ (reply.now ++ codes "\n")) }
{
    push_all(out, &[reply.bytes(), b"\n"])
}

// Answers lines one by one. Returns their replies, a line each.
fn replies_to<K: Keeper, B: Bell, G: Gate, L: Ledger>(
    alloc: Global,
    desk: &mut Desk<K, B>,
    ringer: &mut Ringer<B>,
    roster: &mut Roster,
    lines: &[Run<'_>],
    gate: &G,
    steps: &mut Steps<L>,
) -> Result<Vec<u8>, OutOfMemory>
    requires { desks_in roster.old ≡ desks_of desk.old.board.state.tables }
    ensures replied { IfOk result (λ v. AreReplied (kept_at (K.seen desk.old.keeper))
        (kept_at (K.seen desk.new.keeper)) desk.old.board.state
        (taken_all desk.old.board.state.tables roster.old lines.now) desk.new.board.state (hung_all B.seen ringer.old) (hung_all B.seen ringer.new)
        v.items) }
    ensures roster { OnOk result (roster.new
        ≡ roster_after_all desk.old.board.state.tables roster.old lines.now) }
    ensures err { OnErr result (AreGivenInPart 1 (kept_at (K.seen desk.old.keeper))
        (kept_at (K.seen desk.new.keeper)) desk.old.board.state
        (items_in (taken_all desk.old.board.state.tables roster.old lines.now)) desk.new.board.state) }
    ensures on { DeskGoesOn (desk_seen K.seen B.seen desk.old) (desk_seen K.seen B.seen desk.new) }
    ensures hears { HaveHeardSome (hung_all B.seen ringer.old) (hung_all B.seen ringer.new) }
{
    let _ = desk.board.now();
    let mut number = 1u32;
    let mut out = Vec::new(alloc);
    for line in lines {
        let reply = answer_passed(
            alloc,
            desk,
            ringer,
            roster,
            line.bytes(),
            number,
            gate,
            steps,
        )?;
        let _ = desk.board.now();
        push_line(&mut out, &reply)?;
        number = number.saturating_add(1);
    }
    Ok(out)
}

fn push_ending(
    alloc: Global,
    board: &Board,
    roster: &Roster,
    out: &mut Vec<u8>,
) -> Result<(), OutOfMemory>
    ensures { OnOk result (out.new.items ≡ out.old.items ++ (closing board.now.state ++ roster_text roster.now)) }
{
    let text = board.closing(alloc)?;
    out.extend_from_slice(text.bytes())?;
    push_roster(out, roster)
}

// The text of a run of shifts.
fn text_of_shifts<K: Keeper, B: Bell, G: Gate, L: Ledger>(
    alloc: Global,
    desk: &mut Desk<K, B>,
    ringer: &mut Ringer<B>,
    script: &[u8],
    gate: &G,
    steps: &mut Steps<L>,
) -> Result<Vec<u8>, OutOfMemory>
    ensures run { IfOk result (λ v. IsShifts (kept_at (K.seen desk.old.keeper))
        (kept_at (K.seen desk.new.keeper)) desk.old.board.state script.now desk.new.board.state v.items
        (hung_all B.seen ringer.old) (hung_all B.seen ringer.new)) }
    ensures err { OnErr result (IsShiftRunInPart (kept_at (K.seen desk.old.keeper))
        (kept_at (K.seen desk.new.keeper)) desk.old.board.state script.now desk.new.board.state) }
    ensures on { DeskGoesOn (desk_seen K.seen B.seen desk.old) (desk_seen K.seen B.seen desk.new) }
    ensures hears { HaveHeardSome (hung_all B.seen ringer.old) (hung_all B.seen ringer.new) }
{
    let lines = runs_between::<LineFeeds>(alloc, script)?;
    let mut roster = Roster::new(alloc, desk.board.tables())?;
    gate.expects(lines.len() as u64);
    let mut out = replies_to(alloc, desk, ringer, &mut roster, &lines, gate, steps)?;
    push_ending(alloc, &desk.board, &roster, &mut out)?;
    Ok(out)
}

/// Runs a script of shifts from the desk's present state. Each dispatcher sits at his own desk first, and the roster
/// isn't kept. Returns the text: a reply for each nonempty line, the closing text with the board and the weather, and
/// the roster.
///
/// A dispatcher's call is made for a desk at which he must sit. Relief lines hand over desks. `ringer` has the bells of
/// the persons who sit at the desks; the desk's own ringer rings for the desks' namesakes, and so should have none.
/// The gate is called around each nonempty line.
pub fn shift_text<K: Keeper, B: Bell, G: Gate, L: Ledger>(
    alloc: Global,
    desk: &mut Desk<K, B>,
    ringer: &mut Ringer<B>,
    script: &[u8],
    gate: &G,
    steps: &mut Steps<L>,
) -> Result<Vec<u8>, OutOfMemory>
    // The items are exactly those that the tables and the script make. Their outcomes form the board's one history, and
    // the text has them and all other replies in the order of the script. The bells have received exactly the notices
    // of the desks at which their persons sat, out of all notices of the history.
    ensures run { IfOk result (λ v. IsSeatedRun desk.old.board.opening (kept_at (K.seen desk.old.keeper))
        (kept_at (K.seen desk.new.keeper)) desk.old.board.state script.now desk.new.board.state v.items
        (hung_all B.seen ringer.old) (hung_all B.seen ringer.new)) }
    // If memory runs out, a prefix of the items was answered. Of the next item at most the tick was made.
    ensures err { OnErr result (IsShiftRunInPart (kept_at (K.seen desk.old.keeper))
        (kept_at (K.seen desk.new.keeper)) desk.old.board.state script.now desk.new.board.state) }
    ensures on { DeskGoesOn (desk_seen K.seen B.seen desk.old) (desk_seen K.seen B.seen desk.new) }
    // Whatever the result, the bells that stay are in their order, and each that was dropped has failed.
    ensures hears { HaveHeardSome (hung_all B.seen ringer.old) (hung_all B.seen ringer.new) }
    // At every moment each desk has exactly one sitter: whoever accepted it last, or its namesake.
    ensures roster { AreSeatedAlways desk.old.board.state.tables script.now }
{
    let _ = desk.board.now();
    // No two people have the same name.
    let _ = desk.board.tables().actors();
    text_of_shifts(alloc, desk, ringer, script, gate, steps)
}
