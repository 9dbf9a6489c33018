ghost use Rattle.std.specs.Prelude.{◌≡◌};
ghost use Rattle.words.specs.Words as spec;
ghost use Rattle.words.specs.Words.{Fits, IsWithin};

/// What a command does.
#[derive(Clone, Copy, Debug, PartialEq, Eq)]
pub enum Task {
    /// `weather FILE` reads the reports of a file, without tables, rows or desk. Prints a line for each report.
    Weather,
    /// Reads the tables and the named sources, opens a desk over the stored rows, and works on it.
    Desk(DeskTask),
}

/// The work on an open desk.
#[derive(Clone, Copy, Debug, PartialEq, Eq)]
pub enum DeskTask {
    /// `run SCRIPT` runs a script. Prints the reply to each line, and the closing text.
    Run,
    /// `race SCRIPT..` runs 2 to 16 scripts at once, each as a lane in a thread of its own if the machine provides
    /// one. Prints the history, the outcomes of each lane and the closing text.
    Race,
    /// `serve PORT CONNECTIONS` serves 1 to 1,000 connections at a port, up to 16 at once, each in a thread of its own
    /// if the machine provides one. Prints the closing text.
    Serve { port: u16, connections: u32 },
    /// `stay PORT` serves connections at a port until the door fails, by workers that each have a thread of their own
    /// if the machine provides one. Meanwhile the desk ticks every minute.
    Stay { port: u16 },
    /// `import FILE` answers the records of a file. Prints the reply to each record, and the closing text.
    Import,
    /// `make NUMBER COUNT` answers calls that are made from the seed `number` for 1 to 20,000 flights. Prints three
    /// lines of counts.
    Make { number: u32, count: u32 },
    /// `advise PLAN CANDIDATES` advises alternates for each leg of a plan. Prints a line for each leg, and changes
    /// nothing on the desk once opened.
    Advise,
    /// `planned SCRIPT` runs a script of planned redispatches, which may file final plans, check them and take them up
    /// in flight. Prints the reply to each line, and the closing text.
    Planned,
    /// `shifts SCRIPT` runs a script of shifts, in which dispatchers hand over their desks. Prints the reply to each
    /// line, the closing text and the roster. Each bell rings for the desks at which its person sits.
    Shifts,
    /// `why RELEASE` explains the revisions of a release, of a number from 1. Prints every comparison that the rules
    /// make for the active and the pending one, and changes nothing on the desk once opened.
    Why { release: u32 },
    /// `check PLAN` checks a plan that isn't filed. Prints every comparison that the rules make for it, and changes
    /// nothing on the desk once opened.
    Check,
}

/// The name of a command.
#[derive(Clone, Copy)]
pub(crate) enum Name {
    Run,
    Race,
    Serve,
    Stay,
    Weather,
    Import,
    Make,
    Advise,
    Planned,
    Shifts,
    Why,
    Check,
}

/// All commands.
pub(crate) const COMMANDS: [Name; 12] = [
    Name::Run,
    Name::Race,
    Name::Serve,
    Name::Stay,
    Name::Weather,
    Name::Import,
    Name::Make,
    Name::Advise,
    Name::Planned,
    Name::Shifts,
    Name::Why,
    Name::Check,
];

/// The least and the most that a count or a number may be.
#[derive(Clone, Copy)]
pub(crate) struct Limits {
    pub least: u32,
    pub most: u32,
}

/// The arguments after a command's name.
#[derive(Clone, Copy)]
pub(crate) enum Form {
    /// The names of sources, as many as the limits allow.
    Names(Limits),
    /// A decimal number within its limits.
    Number(Limits),
    /// Two decimal numbers, each within its limits.
    Numbers(Limits, Limits),
}

/// A command's row of the table: its name, and the arguments after it.
#[derive(Clone, Copy)]
pub(crate) struct Row {
    pub name: &'static str,
    pub form: Form,
}

fn between(least: u32, most: u32) -> Limits
    ensures { result ≡ spec.between least most }
{
    Limits { least, most }
}

fn row_with(name: &'static str, form: Form) -> Row
    ensures name { result.name.now ≡ name.now }
    ensures form { result.form ≡ form }
{
    Row { name, form }
}

impl Name {
    /// The command's row of the table.
    pub(crate) fn row(self) -> Row
        ensures name { result.name.now ≡ (spec.row_of self).name }
        ensures form { result.form ≡ (spec.row_of self).form }
    {
        match self {
            Name::Run => row_with("run", Form::Names(between(1, 1))),
            Name::Race => row_with("race", Form::Names(between(2, 16))),
            Name::Serve => row_with(
                "serve",
                Form::Numbers(between(1, 65_535), between(1, 1_000)),
            ),
            Name::Stay => row_with("stay", Form::Number(between(1, 65_535))),
            Name::Weather => row_with("weather", Form::Names(between(1, 1))),
            Name::Import => row_with("import", Form::Names(between(1, 1))),
            Name::Make => row_with(
                "make",
                Form::Numbers(between(0, 4_294_967_295), between(1, 20_000)),
            ),
            Name::Advise => row_with("advise", Form::Names(between(2, 2))),
            Name::Planned => row_with("planned", Form::Names(between(1, 1))),
            Name::Shifts => row_with("shifts", Form::Names(between(1, 1))),
            Name::Why => row_with("why", Form::Number(between(1, 4_294_967_295))),
            Name::Check => row_with("check", Form::Names(between(1, 1))),
        }
    }

    /// The command's task. A number that it doesn't take is zero.
    pub(crate) fn task(self, numbers: (u32, u32)) -> Task
        requires { Fits (spec.row_of self).form numbers }
        ensures value { result ≡ spec.task_of self numbers }
        ensures within { IsWithin result }
    {
        let (one, two) = numbers;
        match self {
            Name::Run => Task::Desk(DeskTask::Run),
            Name::Race => Task::Desk(DeskTask::Race),
            Name::Serve => Task::Desk(DeskTask::Serve {
                port: one as u16,
                connections: two,
            }),
            Name::Stay => Task::Desk(DeskTask::Stay { port: one as u16 }),
            Name::Weather => Task::Weather,
            Name::Import => Task::Desk(DeskTask::Import),
            Name::Make => Task::Desk(DeskTask::Make {
                number: one,
                count: two,
            }),
            Name::Advise => Task::Desk(DeskTask::Advise),
            Name::Planned => Task::Desk(DeskTask::Planned),
            Name::Shifts => Task::Desk(DeskTask::Shifts),
            Name::Why => Task::Desk(DeskTask::Why { release: one }),
            Name::Check => Task::Desk(DeskTask::Check),
        }
    }
}
