ghost use Rattle.std.specs.Prelude.{◌≡◌, ◌<◌, ◌++◌, ◌^◌, IfOk, OnOk};
ghost use Rattle.desk_time.specs.Limits.{IsMoment};
ghost use Rattle.http.specs.StatusCode.{IsStatusCode};
ghost use Rattle.service.specs.Pages as spec;

use crate::gauges::Gauges;
use crate::responses::{Media, Response};
use asks::{Ask, Call};
use deferrals::DEFERRAL_LIMIT;
use desk_io::{OutOfMemory, Text, push_all};
use desk_state::KEPT_LIMIT;
use desk_time::{Minute, show};
use facts::HELD_LIMIT;
use release_index::RELEASE_LIMIT;
use std::alloc::Global;

/// A page of a service that stays.
#[derive(Clone, Copy, Debug, PartialEq, Eq)]
pub enum Page {
    /// `GET /health`: whether the desk is well.
    Health,
    /// `GET /metrics`: what the desk holds and has done.
    Metrics,
}

/// The call by which a minute ticks, and a page is asked for. Its actor and its key are empty.
pub(crate) fn nobodys_call(alloc: Global) -> Call
    ensures { result ≡ spec.nobodys_call }
{
    Call {
        actor: Text::from_vec(Vec::new(alloc)),
        key: Text::from_vec(Vec::new(alloc)),
        number: 0,
        ask: Ask::ViewBoard,
    }
}

// ---- health

#[tactic(auto, unfolding(crate::specs::Pages::wellness))]
fn wellness(keeps: bool) -> &'static [u8]
    ensures { result.now ≡ spec.wellness keeps }
{
    if keeps { b"ok" } else { b"unkept" }
}

#[tactic(auto, unfolding(crate::specs::Pages::age_text))]
fn age_text(alloc: Global, at: Minute, received: Option<Minute>) -> Result<Text, OutOfMemory>
    requires { at < 2 ^ 32 }
    ensures { IfOk result (λ t. t ≡ spec.age_text at received) }
{
    match received {
        None => Text::of(alloc, b"null"),
        Some(received) => {
            let age = (60 * at.saturating_sub(received)).to_string(alloc)?;
            Text::of(alloc, age.as_bytes())
        }
    }
}

#[tactic(auto, unfolding(crate::specs::Pages::health_front))]
fn push_health_front(out: &mut Vec<u8>, word: &[u8], at: &[u8]) -> Result<(), OutOfMemory>
    ensures { OnOk result (out.new.items ≡ out.old.items ++ spec.health_front word.now at.now) }
{
    push_all(
        out,
        &[
            b"{\"health\":\"",
            word,
            b"\",\"at\":\"",
            at,
            b"\",\"seconds_since_report\":",
        ],
    )
}

#[tactic(auto, unfolding(crate::specs::Pages::health_rest))]
fn push_health_rest(out: &mut Vec<u8>, age: &[u8], name: &[u8]) -> Result<(), OutOfMemory>
    ensures { OnOk result (out.new.items ≡ out.old.items ++ spec.health_rest age.now name.now) }
{
    push_all(out, &[age, b",\"program\":\"", name, b"\"}"])
}

fn health_text(alloc: Global, name: &[u8], gauges: &Gauges) -> Result<Text, OutOfMemory>
    requires { IsMoment gauges.now.at }
    ensures { IfOk result (λ t. t ≡ spec.health_text name.now gauges.now) }
{
    let age = age_text(alloc, gauges.at, gauges.received)?;
    let at = show(gauges.at);
    let mut out = Vec::new(alloc);
    push_health_front(&mut out, wellness(gauges.keeps), &at)?;
    push_health_rest(&mut out, age.bytes(), name)?;
    Ok(Text::from_vec(out))
}

fn health_status(keeps: bool) -> u16
    ensures status { result ≡ spec.health_status keeps }
    ensures code { IsStatusCode result }
{
    if keeps { 200 } else { 503 }
}

// ---- metrics

// Writes a metric in the text format of Prometheus.
#[tactic(auto, unfolding(crate::specs::Pages::metric))]
fn push_metric(
    alloc: Global,
    out: &mut Vec<u8>,
    kind: &[u8],
    name: &[u8],
    help: &[u8],
    value: u64,
) -> Result<(), OutOfMemory>
    ensures { OnOk result (out.new.items ≡ out.old.items ++ spec.metric name.now kind.now help.now value) }
{
    let value = value.to_string(alloc)?;
    push_all(out, &[b"# HELP ", name, b" ", help, b"\n"])?;
    push_all(out, &[b"# TYPE ", name, b" ", kind, b"\n"])?;
    push_all(out, &[name, b" ", value.as_bytes(), b"\n"])
}

#[tactic(auto, unfolding(crate::specs::Pages::gauge))]
fn push_gauge(
    alloc: Global,
    out: &mut Vec<u8>,
    name: &[u8],
    help: &[u8],
    value: u64,
) -> Result<(), OutOfMemory>
    ensures { OnOk result (out.new.items ≡ out.old.items ++ spec.gauge name.now help.now value) }
{
    push_metric(alloc, out, b"gauge", name, help, value)
}

#[tactic(auto, unfolding(crate::specs::Pages::counter))]
fn push_counter(
    alloc: Global,
    out: &mut Vec<u8>,
    name: &[u8],
    help: &[u8],
    value: u64,
) -> Result<(), OutOfMemory>
    ensures { OnOk result (out.new.items ≡ out.old.items ++ spec.counter name.now help.now value) }
{
    push_metric(alloc, out, b"counter", name, help, value)
}

// How much of each limit is held.
fn push_held(alloc: Global, out: &mut Vec<u8>, gauges: &Gauges) -> Result<(), OutOfMemory>
    ensures { OnOk result (out.new.items ≡ out.old.items ++ spec.held_text gauges.now) }
{
    push_gauge(
        alloc,
        out,
        b"desk_reports",
        b"Weather reports held.",
        gauges.reports as u64,
    )?;
    push_gauge(
        alloc,
        out,
        b"desk_deferrals",
        b"Open deferrals held.",
        gauges.deferrals as u64,
    )?;
    push_gauge(
        alloc,
        out,
        b"desk_releases",
        b"Releases held.",
        gauges.releases as u64,
    )?;
    push_gauge(
        alloc,
        out,
        b"desk_replies",
        b"Replies kept for retries.",
        gauges.replies as u64,
    )?;
    Ok(())
}

fn push_limits(alloc: Global, out: &mut Vec<u8>) -> Result<(), OutOfMemory>
    ensures { OnOk result (out.new.items ≡ out.old.items ++ spec.limits_text) }
{
    push_gauge(
        alloc,
        out,
        b"desk_reports_limit",
        b"Most weather reports held.",
        HELD_LIMIT as u64,
    )?;
    push_gauge(
        alloc,
        out,
        b"desk_deferrals_limit",
        b"Most open deferrals held.",
        DEFERRAL_LIMIT as u64,
    )?;
    push_gauge(
        alloc,
        out,
        b"desk_releases_limit",
        b"Most releases held.",
        RELEASE_LIMIT as u64,
    )?;
    push_gauge(
        alloc,
        out,
        b"desk_replies_limit",
        b"Most replies kept for retries.",
        KEPT_LIMIT as u64,
    )?;
    Ok(())
}

#[tactic(auto, unfolding(crate::specs::Pages::flag))]
fn flag(holds: bool) -> u64
    ensures { result ≡ spec.flag holds }
{
    if holds { 1 } else { 0 }
}

#[tactic(auto, unfolding(crate::specs::Pages::kept_text))]
fn push_kept(alloc: Global, out: &mut Vec<u8>, keeps: bool) -> Result<(), OutOfMemory>
    ensures { OnOk result (out.new.items ≡ out.old.items ++ spec.kept_text keeps) }
{
    push_gauge(
        alloc,
        out,
        b"desk_rows_kept",
        b"1 if rows could be kept when they were to change last, else 0.",
        flag(keeps),
    )
}

fn push_desk(alloc: Global, out: &mut Vec<u8>, gauges: &Gauges) -> Result<(), OutOfMemory>
    requires { IsMoment gauges.now.at }
    ensures { OnOk result (out.new.items ≡ out.old.items ++ spec.desk_text gauges.now) }
{
    push_gauge(
        alloc,
        out,
        b"desk_alerts_open",
        b"Open alerts.",
        gauges.alerts as u64,
    )?;
    push_gauge(
        alloc,
        out,
        b"desk_alerts_acknowledged",
        b"Open alerts that their dispatchers have acknowledged.",
        gauges.acknowledged as u64,
    )?;
    push_kept(alloc, out, gauges.keeps)?;
    push_gauge(
        alloc,
        out,
        b"desk_moment_seconds",
        b"The moment of the desk, since 1970.",
        60 * gauges.at,
    )?;
    Ok(())
}

fn push_done(alloc: Global, out: &mut Vec<u8>, gauges: &Gauges) -> Result<(), OutOfMemory>
    ensures { OnOk result (out.new.items ≡ out.old.items ++ spec.done_text gauges.now) }
{
    push_counter(
        alloc,
        out,
        b"desk_commits_total",
        b"Ticks and accepted calls since the desk was opened, each stored by one commit.",
        gauges.entries as u64,
    )?;
    push_gauge(
        alloc,
        out,
        b"desk_events",
        b"Events since the first opening.",
        gauges.events,
    )?;
    Ok(())
}

fn metrics_text(alloc: Global, meters: &[u8], gauges: &Gauges) -> Result<Text, OutOfMemory>
    requires { IsMoment gauges.now.at }
    ensures { IfOk result (λ t. t ≡ spec.metrics_text meters.now gauges.now) }
{
    let mut out = Vec::new(alloc);
    push_held(alloc, &mut out, gauges)?;
    push_limits(alloc, &mut out)?;
    push_desk(alloc, &mut out, gauges)?;
    push_done(alloc, &mut out, gauges)?;
    push_all(&mut out, &[meters])?;
    Ok(Text::from_vec(out))
}

// ---- a page

/// The response to a request for a page. `name` is that of the program, and `meters` what the service has counted.
pub(crate) fn page_of(
    alloc: Global,
    page: Page,
    name: &[u8],
    meters: &[u8],
    gauges: &Gauges,
) -> Result<Response, OutOfMemory>
    requires { IsMoment gauges.now.at }
    ensures ok { IfOk result (λ r. r ≡ spec.page_of page name.now meters.now gauges.now) }
    ensures code { IfOk result (λ r. IsStatusCode r.status) }
{
    match page {
        Page::Health => Ok(Response {
            status: health_status(gauges.keeps),
            media: Media::Json,
            body: health_text(alloc, name, gauges)?,
        }),
        Page::Metrics => Ok(Response {
            status: 200,
            media: Media::Metrics,
            body: metrics_text(alloc, meters, gauges)?,
        }),
    }
}
