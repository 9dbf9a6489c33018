ghost use Rattle.std.specs.Prelude.{◌≡◌};

use crate::requested::Requested;
use crate::surface::{Program, Surface};
use crate::wanted::Wanted;
use asks::{Ask, Reply};
use desk_io::{OutOfMemory, Text, push_all};
use desk_json::refusal_number;
use desk_state::Said;
use std::alloc::Global;
use std::sync::atomic::{AtomicU64, Ordering};

// How many places a row has.
const PLACES: usize = 12;

// The statuses that are counted, each at its place.
const STATUSES: [u16; PLACES] = [200, 400, 401, 403, 404, 405, 409, 411, 422, 500, 503, 507];

// Counts by place.
#[derive(Drop)]
struct Row {
    counts: [AtomicU64; PLACES],
}

impl Row {
    fn new() -> Row {
        Row {
            counts: [
                AtomicU64::new(0),
                AtomicU64::new(0),
                AtomicU64::new(0),
                AtomicU64::new(0),
                AtomicU64::new(0),
                AtomicU64::new(0),
                AtomicU64::new(0),
                AtomicU64::new(0),
                AtomicU64::new(0),
                AtomicU64::new(0),
                AtomicU64::new(0),
                AtomicU64::new(0),
            ],
        }
    }

    fn add(&self, place: usize) {
        if let Some(count) = self.counts.get(place) {
            count.fetch_add(1, Ordering::Relaxed);
        }
    }

    fn at(&self, place: usize) -> u64 {
        match self.counts.get(place) {
            Some(count) => count.load(Ordering::Relaxed),
            None => 0,
        }
    }
}

fn place_of(status: u16) -> Option<usize> {
    STATUSES.iter().position(|counted| *counted == status)
}

/// The answers of the desk and the pages, and counts of both.
#[derive(Drop)]
pub(crate) struct Counted<'a, P> {
    program: &'a P,
    commands: Row,
    views: Row,
    pages: Row,
    others: Row,
    // The refusals by their numbers, twelve to a row.
    refused: [Row; 4],
}

impl<'a, P: Program> Counted<'a, P> {
    pub fn new(program: &'a P) -> Counted<'a, P> {
        Counted {
            program,
            commands: Row::new(),
            views: Row::new(),
            pages: Row::new(),
            others: Row::new(),
            refused: [Row::new(), Row::new(), Row::new(), Row::new()],
        }
    }

    fn row_of(&self, wanted: &Wanted) -> &Row {
        match wanted {
            Wanted::Page(_) => &self.pages,
            Wanted::Asked(asked) => self.row_of_asked(asked),
        }
    }

    fn row_of_asked(&self, asked: &Requested) -> &Row {
        if let Requested::Call(call) = asked {
            if is_view(&call.ask) {
                &self.views
            } else {
                &self.commands
            }
        } else {
            &self.others
        }
    }
}

fn is_view(ask: &Ask) -> bool {
    matches!(
        ask,
        Ask::ViewBoard
            | Ask::ViewAlerts
            | Ask::ViewRelease { .. }
            | Ask::ViewWeather { .. }
            | Ask::ViewDeferred { .. }
    )
}

// Writes a count with its labels, if anything was counted.
fn push_count(
    alloc: Global,
    out: &mut Vec<u8>,
    front: &[u8],
    label: u64,
    count: u64,
) -> Result<(), OutOfMemory> {
    if count == 0 {
        return Ok(());
    }
    let label = label.to_string(alloc)?;
    let count = count.to_string(alloc)?;
    push_all(
        out,
        &[front, label.as_bytes(), b"\"} ", count.as_bytes(), b"\n"],
    )
}

fn push_row(alloc: Global, out: &mut Vec<u8>, front: &[u8], row: &Row) -> Result<(), OutOfMemory> {
    for place in 0..PLACES {
        let status = match STATUSES.get(place) {
            Some(status) => *status,
            None => 0,
        };
        push_count(alloc, out, front, status as u64, row.at(place))?;
    }
    Ok(())
}

// Writes the refusals of a row, whose first has this number.
fn push_refused(
    alloc: Global,
    out: &mut Vec<u8>,
    first: u64,
    row: &Row,
) -> Result<(), OutOfMemory> {
    for place in 0..PLACES {
        let number = first.saturating_add(place as u64);
        push_count(
            alloc,
            out,
            b"desk_refusals_total{number=\"",
            number,
            row.at(place),
        )?;
    }
    Ok(())
}

impl<'a, P: Program> Counted<'a, P> {
    fn push_responses(&self, alloc: Global, out: &mut Vec<u8>) -> Result<(), OutOfMemory> {
        push_all(
            out,
            &[
                b"# HELP desk_responses_total Responses by what was asked for and by status.\n",
                b"# TYPE desk_responses_total counter\n",
            ],
        )?;
        push_row(
            alloc,
            out,
            b"desk_responses_total{for=\"command\",status=\"",
            &self.commands,
        )?;
        push_row(
            alloc,
            out,
            b"desk_responses_total{for=\"view\",status=\"",
            &self.views,
        )?;
        push_row(
            alloc,
            out,
            b"desk_responses_total{for=\"page\",status=\"",
            &self.pages,
        )?;
        push_row(
            alloc,
            out,
            b"desk_responses_total{for=\"other\",status=\"",
            &self.others,
        )
    }

    fn push_workers(&self, alloc: Global, out: &mut Vec<u8>) -> Result<(), OutOfMemory> {
        let busy = self.program.busy().to_string(alloc)?;
        push_all(
            out,
            &[
                b"# HELP desk_workers_busy Workers that have a connection.\n",
                b"# TYPE desk_workers_busy gauge\n",
                b"desk_workers_busy ",
                busy.as_bytes(),
                b"\n",
            ],
        )
    }

    fn push_refusals(&self, alloc: Global, out: &mut Vec<u8>) -> Result<(), OutOfMemory> {
        push_all(
            out,
            &[
                b"# HELP desk_refusals_total Refused calls by the number of the refusal.\n",
                b"# TYPE desk_refusals_total counter\n",
            ],
        )?;
        let [first, second, third, fourth] = &self.refused;
        push_refused(alloc, out, 0, first)?;
        push_refused(alloc, out, 12, second)?;
        push_refused(alloc, out, 24, third)?;
        push_refused(alloc, out, 36, fourth)
    }
}

impl<'a, P: Program> Surface for Counted<'a, P> {
    ghost use Rattle.std.specs.Prelude.{◌≡◌, true};

    ghost pages = { true };

    fn has_pages(&self) -> bool
        ensures { result ≡ true }
    {
        true
    }

    fn name(&self) -> &[u8] {
        self.program.name()
    }

    fn count(&self, wanted: &Wanted, status: u16) {
        if let Some(place) = place_of(status) {
            self.row_of(wanted).add(place);
        }
    }

    fn said(&self, said: &Said) {
        if let Said::Reply(Reply::Refused(refusal)) = said {
            let number = refusal_number(refusal) as usize;
            if let Some(row) = self.refused.get(number / PLACES) {
                row.add(number % PLACES);
            }
        }
    }

    fn meters(&self, alloc: Global) -> Result<Text, OutOfMemory> {
        let mut out = Vec::new(alloc);
        self.push_workers(alloc, &mut out)?;
        self.push_responses(alloc, &mut out)?;
        self.push_refusals(alloc, &mut out)?;
        Ok(Text::from_vec(out))
    }
}
