ghost use Rattle.std.specs.Prelude.{◌≡◌, ◌≤◌, ◌++◌, codes, decimal, IfSome, OnOk, OnErr};
ghost use Rattle.std.specs.Option.{option_copied};
ghost use Rattle.desk_io.specs.Grown.{BeginsWith};
ghost use Rattle.facts.specs.Reading.{HasMoments, ReadHasMoments, TafHasMoments};
ghost use Rattle.facts.specs.Lines as spec;
ghost use Rattle.std.specs.Map.{keys_of};
ghost use Rattle.facts.specs.Lines.{
  moment_text,
  line_of,
  weather_at,
  weather,
  stations_of,
  AreStations,
};

use crate::index::Places;
use crate::report::{Read, Report};
use crate::reports::Reports;
use codes::Cond;
use desk_io::{OutOfMemory, Station, or_undone, push_all};
use desk_time::{FIRST, LAST, Minute, show};
use itoa::Buffer;
use weather_reports::{Metar, Taf, TafState};

#[tactic(auto, unfolding(crate::specs::Lines::moment_text))]
fn moment_text(at: Minute) -> [u8; 17]
    requires low { FIRST ≤ at }
    requires high { at ≤ LAST }
    ensures { result ≡ moment_text at }
{
    show(at)
}

fn value_text(digits: &mut Buffer, value: Option<u32>) -> &[u8]
    ensures { result.now ≡ spec.value_text value }
{
    match value {
        None => b"-",
        Some(n) => digits.format(n).as_bytes(),
    }
}

fn push_cond(out: &mut Vec<u8>, cond: Cond, unread: u32) -> Result<(), OutOfMemory>
    ensures ok { OnOk result (out.new.items ≡ out.old.items ++ spec.cond_text cond unread) }
    ensures err { OnErr result (out.new.items ≡ out.old.items) }
{
    let (mut ceiling, mut vis, mut count) = (Buffer::new(), Buffer::new(), Buffer::new());
    push_all(
        out,
        &[
            b" ceiling ",
            value_text(&mut ceiling, cond.ceiling),
            b" vis ",
            value_text(&mut vis, cond.vis),
            b" unread ",
            count.format(unread).as_bytes(),
        ],
    )
}

fn push_metar(out: &mut Vec<u8>, metar: &Metar) -> Result<(), OutOfMemory>
    ensures ok { OnOk result (out.new.items ≡ out.old.items ++ spec.metar_text metar.now) }
    ensures err { OnErr result (out.new.items ≡ out.old.items) }
{
    if metar.nil {
        push_all(out, &[b" NIL"])
    } else {
        push_cond(out, metar.cond, metar.unread)
    }
}

fn state_word(state: TafState) -> &'static [u8]
    ensures { result.now ≡ spec.state_word state }
{
    match state {
        TafState::Normal => b" parts ",
        TafState::Nil => b" NIL",
        TafState::Cancelled => b" CNL",
    }
}

fn part_count(digits: &mut Buffer, state: TafState, parts: usize) -> &[u8]
    ensures { result.now ≡ spec.part_count state parts }
{
    match state {
        TafState::Normal => digits.format(parts).as_bytes(),
        TafState::Nil => b"",
        TafState::Cancelled => b"",
    }
}

fn push_taf(out: &mut Vec<u8>, taf: &Taf) -> Result<(), OutOfMemory>
    requires { TafHasMoments taf.now }
    ensures ok { OnOk result (out.new.items ≡ out.old.items ++ spec.taf_text taf.now) }
    ensures err { OnErr result (out.new.items ≡ out.old.items) }
{
    let from = moment_text(taf.from);
    let to = moment_text(taf.to);
    let mut digits = Buffer::new();
    push_all(
        out,
        &[
            b" ",
            &from,
            b" ",
            &to,
            state_word(taf.state),
            part_count(&mut digits, taf.state, taf.parts.as_slice().len()),
        ],
    )
}

fn kind_text(read: &Read) -> &'static [u8]
    ensures { result.now ≡ spec.kind_text read.now }
{
    match read {
        Read::Metar(_) => b" METAR ",
        Read::Taf(_) => b" TAF ",
    }
}

fn push_head(out: &mut Vec<u8>, report: &Report) -> Result<(), OutOfMemory>
    requires { HasMoments report.now }
    ensures ok { OnOk result (out.new.items ≡ out.old.items ++ spec.head_text report.now) }
    ensures err { OnErr result (out.new.items ≡ out.old.items) }
{
    let station = report.station().bytes();
    let minute = moment_text(report.minute());
    let mut id = Buffer::new();
    push_all(
        out,
        &[
            &station,
            kind_text(&report.read),
            id.format(report.id).as_bytes(),
            b" ",
            &minute,
        ],
    )
}

fn push_read(out: &mut Vec<u8>, read: &Read) -> Result<(), OutOfMemory>
    requires { ReadHasMoments read.now }
    ensures ok { OnOk result (out.new.items ≡ out.old.items ++ spec.read_text read.now) }
    ensures err { OnErr result (out.new.items ≡ out.old.items) }
{
    match read {
        Read::Metar(metar) => push_metar(out, metar),
        Read::Taf(taf) => push_taf(out, taf),
    }
}

#[tactic(auto, unfolding(crate::specs::Lines::line_of))]
fn push_parts_of_line(out: &mut Vec<u8>, report: &Report) -> Result<(), OutOfMemory>
    requires { HasMoments report.now }
    ensures ok { OnOk result (out.new.items ≡ out.old.items ++ line_of report.now) }
    ensures err { OnErr result (BeginsWith out.new.items out.old.items) }
{
    push_head(out, report)?;
    push_read(out, &report.read)?;
    push_all(out, &[b"\n"])
}

/// Appends the line of a report: station, kind, number and moment. An observation adds ceiling in feet, visibility in
/// millimetres and the number of groups of class `Unread`, or else `NIL`. A forecast adds its validity, and then the
/// number of its parts, `NIL` or `CNL`. An unknown value is `-`. A line feed ends the line. If memory runs out, the
/// text is unchanged.
pub fn push_line(out: &mut Vec<u8>, report: &Report) -> Result<(), OutOfMemory>
    requires { HasMoments report.now }
    ensures ok { OnOk result (out.new.items ≡ out.old.items ++ line_of report.now) }
    ensures err { OnErr result (out.new.items ≡ out.old.items) }
{
    let before = out.len();
    let done = push_parts_of_line(out, report);
    or_undone(out, before, done)
}

fn push_latest(out: &mut Vec<u8>, report: Option<&Report>) -> Result<(), OutOfMemory>
    requires { IfSome (option_copied report) HasMoments }
    ensures ok { OnOk result (out.new.items ≡ out.old.items ++ spec.line_of_latest (option_copied report.entry)) }
    ensures err { OnErr result (out.new.items ≡ out.old.items) }
{
    match report {
        None => Ok(()),
        Some(report) => push_line(out, report),
    }
}

fn push_both(
    out: &mut Vec<u8>,
    observation: Option<&Report>,
    forecast: Option<&Report>,
) -> Result<(), OutOfMemory>
    requires observation { IfSome (option_copied observation) HasMoments }
    requires forecast { IfSome (option_copied forecast) HasMoments }
    ensures ok { OnOk result (out.new.items ≡ out.old.items ++
        (spec.line_of_latest (option_copied observation.entry) ++ spec.line_of_latest (option_copied forecast.entry))) }
    ensures err { OnErr result (BeginsWith out.new.items out.old.items) }
{
    push_latest(out, observation)?;
    push_latest(out, forecast)
}

fn push_station(out: &mut Vec<u8>, reports: &Reports, station: [u8; 4]) -> Result<(), OutOfMemory>
    ensures ok { OnOk result (out.new.items ≡ out.old.items ++ weather_at reports.now.reports station) }
    ensures err { OnErr result (out.new.items ≡ out.old.items) }
{
    let before = out.len();
    let done = push_both(out, reports.observation(station), reports.forecast(station));
    or_undone(out, before, done)
}

/// Appends the lines of a station: its latest METAR or SPECI, and then its latest TAF, if there are any. If memory
/// runs out, the text is unchanged.
pub fn push_weather_at(
    out: &mut Vec<u8>,
    reports: &Reports,
    station: Station,
) -> Result<(), OutOfMemory>
    ensures ok { OnOk result (out.new.items ≡ out.old.items ++ weather_at reports.now.reports station) }
    ensures err { OnErr result (out.new.items ≡ out.old.items) }
{
    push_station(out, reports, station.bytes())
}

#[tactic(auto, using(desk_io::proofs::Grown::begins_more))]
fn push_lines(
    out: &mut Vec<u8>,
    stations: &[([u8; 4], Places)],
    reports: &Reports,
) -> Result<(), OutOfMemory>
    ensures ok { OnOk result (out.new.items ≡ out.old.items ++ spec.lines_for
        (keys_of stations.now) reports.now.reports) }
    ensures err { OnErr result (BeginsWith out.new.items out.old.items) }
{
    for (station, _) in stations {
        push_station(out, reports, *station)?;
    }
    Ok(())
}

/// Appends the lines of all stations that have a report, in byte order. If memory runs out, the text is unchanged.
#[tactic(auto, unfolding(crate::specs::Lines::weather), using(crate::proofs::StationLaws::are_stations))]
pub fn push_weather(out: &mut Vec<u8>, reports: &Reports) -> Result<(), OutOfMemory>
    ensures ok { OnOk result (out.new.items ≡ out.old.items ++ weather reports.now.reports) }
    ensures err { OnErr result (out.new.items ≡ out.old.items) }
    ensures stations { AreStations reports.now.reports (stations_of reports.now.reports) }
{
    let before = out.len();
    let done = push_lines(out, reports.stations(), reports);
    or_undone(out, before, done)
}
