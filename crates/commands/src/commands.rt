ghost use Rattle.std.specs.Prelude.{◌≡◌, ◌<◌, ◌≤◌, None, Err, map, string_bytes};
ghost use Rattle.alerts.specs.Ringing.{hung_all};
ghost use Rattle.commands.specs.Bells.{AreRungAfter, AreRungBy, AreRungOver, AreRungUnder};
ghost use Rattle.commands.specs.Answers.{IsDoneOnDesk, ReadsUnder, Says, SaysReports, WorksUnder};
ghost use Rattle.commands.specs.Faults.{Gives};
ghost use Rattle.commands.specs.Seen.{lent, service};
ghost use Rattle.commands.specs.Sources.{first_of};
ghost use Rattle.commands.specs.Weather.{weather_text};
ghost use Rattle.commands.specs.Working.{AdvisesFiles, AsksNothing, AsksToOpen, ChecksFile, Does, Explains, ImportsFile, Opens};
ghost use Rattle.desk_io.specs.Over.{over};
ghost use Rattle.keeper.specs.Seen.{KeeperGoesOn};
ghost use Rattle.words.specs.Words.{IsWithin, command_of};
ghost use Rattle.words.specs.declared.task.DeskTask.TheVariants.{Advise, Check, Import};
ghost use Rattle.words.specs.declared.task.Task.TheVariants.{Desk};

use crate::fault::Fault;
use crate::inputs::{inquiry_in, plan_to_check};
use crate::shifts::shifts_over;
use crate::sources::{first_name, first_of, read_files, read_sources};
use crate::threads::{race_over, serve_over, stay_over};
use crate::weather::text_of_weather;
use crate::working::{Answered, Ended, Provided, boardless, open_over};
use crate::works::{Explaining, Importing, Making, Planning, Running, lines_in};
use alerts::{Bell, Ringer};
use desk_io::{Listed, OutOfMemory, Shelf, Text};
use desk_net::{Clock, Door};
use keeper::Keeper;
use scripts::{Gate, Steps, leave};
use service::Program;
use std::alloc::Global;
use std::marker::Brand;
use std::sync::Wait;
use std::sync::ledger::{Blank, Ledger};
use std::thread::Threads;
use words::{DeskTask, Task, command};

// The text for a file of reports.
fn read_reports(alloc: Global, file: &[u8]) -> Result<Text, Fault>
    ensures { Gives (λ text. text ≡ weather_text file.now) result }
{
    Ok(Text::from_vec(text_of_weather(alloc, file)?))
}

// Reads a file of reports.
fn weather<S: Shelf, K: Keeper, B: Bell>(
    alloc: Global,
    names: &[String],
    shelf: &mut S,
    keeper: K,
    ringer: Ringer<B>,
) -> Ended<K, B>
    ensures says { SaysReports (over S.seen shelf.old shelf.new) (lent K.seen keeper result.keeper)
        (map string_bytes names.now) result.board result.answer }
    ensures rung { AreRungOver result.board (hung_all B.seen ringer) (hung_all B.seen result.ringer) }
{
    match read_sources(alloc, shelf, names) {
        Ok(texts) => boardless(
            read_reports(alloc, first_of(texts.as_slice())),
            keeper,
            ringer,
        ),
        Err(fault) => boardless(Err(fault), keeper, ringer),
    }
}

// Answers with a fault for which no desk was opened.
fn unopened<K: Keeper, B: Bell>(fault: Fault, provided: Provided<K, B>) -> Ended<K, B>
    ensures answer { result.answer ≡ Err fault }
    ensures none { result.board ≡ None }
    ensures keeper { result.keeper ≡ provided.keeper }
    ensures ringer { result.ringer ≡ provided.ringer }
{
    let Provided {
        tables,
        keeper,
        ringer,
    } = provided;
    leave(tables);
    boardless(Err(fault), keeper, ringer)
}

// Imports a file, unless it lacks its header.
fn import<K: Keeper, B: Bell, G: Gate, L: Ledger>(
    alloc: Global,
    names: &[String],
    texts: &Listed<Text>,
    provided: Provided<K, B>,
    gate: &G,
    steps: &mut Steps<L>,
) -> Ended<K, B>
    ensures works { WorksUnder provided.tables (ImportsFile (first_of texts.now))
        (lent K.seen provided.keeper result.keeper) Import (map string_bytes names.now) texts.now
        result.board result.answer }
    ensures rung { AreRungOver result.board (hung_all B.seen provided.ringer) (hung_all B.seen result.ringer) }
{
    match lines_in(alloc, first_name(names), first_of(texts.as_slice())) {
        Ok(lines) => open_over(alloc, provided, Importing { lines }, gate, steps),
        Err(fault) => unopened(fault, provided),
    }
}

// Advises on the plan and the candidates in two files, unless one is bad.
fn advise<K: Keeper, B: Bell, G: Gate, L: Ledger>(
    alloc: Global,
    names: &[String],
    texts: &Listed<Text>,
    provided: Provided<K, B>,
    gate: &G,
    steps: &mut Steps<L>,
) -> Ended<K, B>
    ensures works { WorksUnder provided.tables (AdvisesFiles provided.tables texts.now)
        (lent K.seen provided.keeper result.keeper) Advise (map string_bytes names.now) texts.now
        result.board result.answer }
    ensures rung { AreRungOver result.board (hung_all B.seen provided.ringer) (hung_all B.seen result.ringer) }
{
    match inquiry_in(alloc, names, texts.as_slice(), &provided.tables) {
        Ok(advising) => open_over(alloc, provided, advising, gate, steps),
        Err(fault) => unopened(fault, provided),
    }
}

// Checks the plan in a file, unless the file isn't one.
fn check<K: Keeper, B: Bell, G: Gate, L: Ledger>(
    alloc: Global,
    names: &[String],
    texts: &Listed<Text>,
    provided: Provided<K, B>,
    gate: &G,
    steps: &mut Steps<L>,
) -> Ended<K, B>
    ensures works { WorksUnder provided.tables (ChecksFile (first_of texts.now))
        (lent K.seen provided.keeper result.keeper) Check (map string_bytes names.now) texts.now
        result.board result.answer }
    ensures rung { AreRungOver result.board (hung_all B.seen provided.ringer) (hung_all B.seen result.ringer) }
{
    match plan_to_check(alloc, first_name(names), first_of(texts.as_slice())) {
        Ok(checking) => open_over(alloc, provided, checking, gate, steps),
        Err(fault) => unopened(fault, provided),
    }
}

// Explains the revisions of a release.
fn explain<K: Keeper, B: Bell, G: Gate, L: Ledger>(
    alloc: Global,
    release: u32,
    provided: Provided<K, B>,
    gate: &G,
    steps: &mut Steps<L>,
) -> Ended<K, B>
    ensures opens { Opens provided.tables (Explains release) (lent K.seen provided.keeper result.keeper)
        result.board result.answer }
    ensures asked { AsksToOpen provided.tables (lent K.seen provided.keeper result.keeper) }
    ensures keeper { KeeperGoesOn (K.seen provided.keeper) (K.seen result.keeper) }
    ensures rung { AreRungOver result.board (hung_all B.seen provided.ringer) (hung_all B.seen result.ringer) }
{
    open_over(alloc, provided, Explaining { release }, gate, steps)
}

// Does the work of a command on the desk of the rows, over the texts of its sources.
fn work_on<
    R: Threads + Wait + Sync,
    K: Keeper + Send,
    B: Bell + Send + Drop,
    C: Clock + Send,
    D: Door + Drop + Send,
    G: Gate + Program + Sync,
    L: Ledger,
>(
    rt: &R,
    alloc: Global,
    task: DeskTask,
    names: &[String],
    texts: Listed<Text>,
    provided: Provided<K, B>,
    clock: C,
    door: D,
    gate: &G,
    steps: &mut Steps<L>,
) -> Answered<K, B, C, D>
where
    D::Link: Send,
    requires { IsWithin (Desk task) }
    ensures works { WorksUnder provided.tables
        (Does task provided.tables texts (service C.seen D.seen D.Link.seen clock result.clock door result.door))
        (lent K.seen provided.keeper result.ended.keeper) task (map string_bytes names.now) texts
        result.ended.board result.ended.answer }
    ensures idle { AsksNothing task result.ended.board ((result.clock ≡ clock) × (result.door ≡ door)) }
    ensures rung { AreRungBy task texts (lent K.seen provided.keeper result.ended.keeper) result.ended.answer
        result.ended.board (hung_all B.seen provided.ringer) (hung_all B.seen result.ended.ringer) }
{
    match task {
        DeskTask::Run => {
            let ended = open_over(alloc, provided, Running { texts }, gate, steps);
            Answered { ended, clock, door }
        }
        DeskTask::Race => {
            let ended = race_over(rt, alloc, provided, &texts, gate, steps);
            Answered { ended, clock, door }
        }
        DeskTask::Serve { port, connections } => serve_over(
            rt,
            alloc,
            provided,
            port,
            connections,
            clock,
            door,
            gate,
            steps,
        ),
        DeskTask::Stay { port } => stay_over(rt, alloc, provided, port, clock, door, gate, steps),
        DeskTask::Import => {
            let ended = import(alloc, names, &texts, provided, gate, steps);
            Answered { ended, clock, door }
        }
        DeskTask::Make { number, count } => {
            let ended = open_over(alloc, provided, Making { number, count }, gate, steps);
            Answered { ended, clock, door }
        }
        DeskTask::Advise => {
            let ended = advise(alloc, names, &texts, provided, gate, steps);
            Answered { ended, clock, door }
        }
        DeskTask::Planned => {
            let ended = open_over(alloc, provided, Planning { texts }, gate, steps);
            Answered { ended, clock, door }
        }
        DeskTask::Shifts => {
            let ended = shifts_over(alloc, provided, &texts, gate, steps);
            Answered { ended, clock, door }
        }
        DeskTask::Why { release } => {
            let ended = explain(alloc, release, provided, gate, steps);
            Answered { ended, clock, door }
        }
        DeskTask::Check => {
            let ended = check(alloc, names, &texts, provided, gate, steps);
            Answered { ended, clock, door }
        }
    }
}

// Reads the sources after the tables, and does the work of a command.
fn read_under<
    R: Threads + Wait + Sync,
    S: Shelf,
    K: Keeper + Send,
    B: Bell + Send + Drop,
    C: Clock + Send,
    D: Door + Drop + Send,
    G: Gate + Program + Sync,
    L: Ledger,
>(
    rt: &R,
    alloc: Global,
    task: DeskTask,
    names: &[String],
    shelf: &mut S,
    provided: Provided<K, B>,
    clock: C,
    door: D,
    gate: &G,
    steps: &mut Steps<L>,
) -> Answered<K, B, C, D>
where
    D::Link: Send,
    requires { IsWithin (Desk task) }
    ensures works { ReadsUnder provided.tables (over S.seen shelf.old shelf.new)
        (service C.seen D.seen D.Link.seen clock result.clock door result.door)
        (lent K.seen provided.keeper result.ended.keeper) task (map string_bytes names.now)
        result.ended.board result.ended.answer }
    ensures idle { AsksNothing task result.ended.board ((result.clock ≡ clock) × (result.door ≡ door)) }
    ensures rung { AreRungUnder (over S.seen shelf.old shelf.new) task (map string_bytes names.now)
        (lent K.seen provided.keeper result.ended.keeper) result.ended.answer result.ended.board
        (hung_all B.seen provided.ringer) (hung_all B.seen result.ended.ringer) }
{
    match read_sources(alloc, shelf, names) {
        Ok(texts) => work_on(
            rt, alloc, task, names, texts, provided, clock, door, gate, steps,
        ),
        Err(fault) => {
            let ended = unopened(fault, provided);
            Answered { ended, clock, door }
        }
    }
}

// Reads the tables, then the sources, and does the work of a command.
fn on_desk<
    R: Threads + Wait + Sync,
    S: Shelf,
    K: Keeper + Send,
    B: Bell + Send + Drop,
    C: Clock + Send,
    D: Door + Drop + Send,
    G: Gate + Program + Sync,
    L: Ledger,
>(
    rt: &R,
    alloc: Global,
    task: DeskTask,
    names: &[String],
    shelf: &mut S,
    clock: C,
    door: D,
    keeper: K,
    ringer: Ringer<B>,
    gate: &G,
    steps: &mut Steps<L>,
) -> Answered<K, B, C, D>
where
    D::Link: Send,
    requires { IsWithin (Desk task) }
    ensures done { IsDoneOnDesk (over S.seen shelf.old shelf.new)
        (service C.seen D.seen D.Link.seen clock result.clock door result.door)
        (lent K.seen keeper result.ended.keeper) task (map string_bytes names.now)
        result.ended.board result.ended.answer }
    ensures idle { AsksNothing task result.ended.board ((result.clock ≡ clock) × (result.door ≡ door)) }
    ensures rung { AreRungUnder (over S.seen shelf.old shelf.new) task (map string_bytes names.now)
        (lent K.seen keeper result.ended.keeper) result.ended.answer result.ended.board
        (hung_all B.seen ringer) (hung_all B.seen result.ended.ringer) }
{
    match read_files(alloc, shelf) {
        Ok(tables) => {
            let provided = Provided {
                tables,
                keeper,
                ringer,
            };
            read_under(
                rt, alloc, task, names, shelf, provided, clock, door, gate, steps,
            )
        }
        Err(fault) => {
            let ended = boardless(Err(fault), keeper, ringer);
            Answered { ended, clock, door }
        }
    }
}

fn answer_with<
    R: Threads + Wait + Sync,
    S: Shelf,
    K: Keeper + Send,
    B: Bell + Send + Drop,
    C: Clock + Send,
    D: Door + Drop + Send,
    G: Gate + Program + Sync,
    L: Ledger,
>(
    rt: &R,
    alloc: Global,
    words: &[String],
    shelf: &mut S,
    clock: C,
    door: D,
    keeper: K,
    ringer: Ringer<B>,
    gate: &G,
    blank: Blank,
) -> Answered<K, B, C, D>
where
    D::Link: Send,
    requires name { blank.name ≡ L.name }
    requires parts { blank.parts ≡ L.parts }
    requires some { 0 < blank.parts }
    ensures says { Says (over S.seen shelf.old shelf.new)
        (service C.seen D.seen D.Link.seen clock result.clock door result.door)
        (lent K.seen keeper result.ended.keeper) (command_of (map string_bytes words.now))
        result.ended.board result.ended.answer }
    ensures rung { AreRungAfter (over S.seen shelf.old shelf.new) (command_of (map string_bytes words.now))
        (lent K.seen keeper result.ended.keeper) result.ended.answer result.ended.board
        (hung_all B.seen ringer) (hung_all B.seen result.ended.ringer) }
{
    let mut steps = Steps::<L>::new(blank);
    match command(alloc, words) {
        Err(OutOfMemory) => {
            let ended = boardless(Err(Fault::OutOfMemory), keeper, ringer);
            Answered { ended, clock, door }
        }
        Ok(None) => {
            let ended = boardless(Err(Fault::Usage), keeper, ringer);
            Answered { ended, clock, door }
        }
        Ok(Some((Task::Weather, names))) => {
            let ended = weather(alloc, names, shelf, keeper, ringer);
            Answered { ended, clock, door }
        }
        Ok(Some((Task::Desk(task), names))) => on_desk(
            rt, alloc, task, names, shelf, clock, door, keeper, ringer, gate, &mut steps,
        ),
    }
}

/// Runs the command in the arguments. Only `serve`, `stay` and `race` may wait.
pub(crate) fn answer_to<
    R: Threads + Wait + Sync,
    S: Shelf,
    K: Keeper + Send,
    B: Bell + Send + Drop,
    C: Clock + Send,
    D: Door + Drop + Send,
    G: Gate + Program + Sync,
>(
    rt: &R,
    alloc: Global,
    words: &[String],
    shelf: &mut S,
    clock: C,
    door: D,
    keeper: K,
    ringer: Ringer<B>,
    gate: &G,
) -> Answered<K, B, C, D>
where
    D::Link: Send,
    ensures says { Says (over S.seen shelf.old shelf.new)
        (service C.seen D.seen D.Link.seen clock result.clock door result.door)
        (lent K.seen keeper result.ended.keeper) (command_of (map string_bytes words.now))
        result.ended.board result.ended.answer }
    ensures rung { AreRungAfter (over S.seen shelf.old shelf.new) (command_of (map string_bytes words.now))
        (lent K.seen keeper result.ended.keeper) result.ended.answer result.ended.board
        (hung_all B.seen ringer) (hung_all B.seen result.ended.ringer) }
{
    answer_with::<R, S, K, B, C, D, G, Brand>(
        rt,
        alloc,
        words,
        shelf,
        clock,
        door,
        keeper,
        ringer,
        gate,
        Blank::new(1),
    )
}
