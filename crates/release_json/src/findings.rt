ghost use Rattle.std.specs.Prelude.{◌≡◌, ◌↔◌, Some, IfOk, IfSome, map};
ghost use Rattle.plan.specs.Findings.{AreInOrder};
ghost use Rattle.serde_json.specs.View.{view, items_view};
ghost use Rattle.plan.specs.Texts.{finding_text};
ghost use Rattle.asks.specs.Fields.{each_read};
ghost use Rattle.asks.specs.Forms.{IsFinding, IsSaidFinding};
ghost use Rattle.release_json.specs.Findings as spec;

use crate::cuts::{cut, leg_of};
use asks::text_value;
use desk_io::OutOfMemory;
use desk_time::read_number;
use plan::{EVERY_RULE, Finding, Findings, Rule, finding_text, is_before};
use serde_json::Value;
use std::alloc::Global;

fn rule_among(rules: &[Rule], code: &[u8]) -> Option<Rule>
    ensures { result ≡ spec.rule_among rules.now code.now }
{
    for rule in rules {
        if rule.code().as_bytes() == code {
            return Some(*rule);
        }
    }
    None
}

fn rule_of(code: &[u8]) -> Option<Rule>
    ensures { result ≡ spec.rule_of code.now }
{
    rule_among(&EVERY_RULE, code)
}

fn finding_at(places: u64, rule: Rule, leg: &[u8], place: &[u8]) -> Option<Finding>
    ensures { result ≡ spec.finding_at places rule (leg.now, place.now) }
{
    let leg = leg_of(leg)?;
    let place = read_number(places, place)?;
    Some(Finding { rule, leg, place })
}

fn finding_with(places: u64, code: &[u8], rest: &[u8]) -> Option<Finding>
    ensures { result ≡ spec.finding_with places (code.now, rest.now) }
{
    let rule = rule_of(code)?;
    let (leg, place) = cut(b'/', rest)?;
    finding_at(places, rule, leg, place)
}

#[tactic(auto, unfolding(crate::specs::Findings::finding_within))]
fn finding_within(places: u64, text: &[u8]) -> Option<Finding>
    ensures { result ≡ spec.finding_within places text.now }
{
    let (code, rest) = cut(b'/', text)?;
    finding_with(places, code, rest)
}

/// Reads a stored finding, such as `121.625/1/1`: the rule's code, the leg and the place. The leg is at most
/// 4,294,967,295, and the place at most 10^15.
pub fn read_finding(text: &[u8]) -> Option<Finding>
    ensures value { result ≡ spec.finding_of text.now }
    ensures exact { (f : Finding) → (result ≡ Some f) ↔ (IsFinding f × (text.now ≡ finding_text f)) }
{
    finding_within(1_000_000_000_000_000, text)
}

/// Reads a finding of a reply, whose place is any 64-bit number.
pub fn read_said_finding(text: &[u8]) -> Option<Finding>
    ensures value { result ≡ spec.said_finding_of text.now }
    ensures exact { (f : Finding) → (result ≡ Some f) ↔ (IsSaidFinding f × (text.now ≡ finding_text f)) }
{
    finding_within(u64::MAX, text)
}

fn finding_in(value: &Value) -> Option<Finding>
    ensures { result ≡ spec.finding_in (view value.now) }
{
    read_finding(value.as_str()?.as_bytes())
}

fn are_in_order(findings: &[Finding]) -> bool
    ensures { result ≡ spec.are_in_order findings.now }
{
    let mut left = findings;
    while let [first, after @ ..] = left {
        if let [second, ..] = after {
            if !is_before(first, second) {
                return false;
            }
        }
        left = after;
    }
    true
}

fn findings_in(alloc: Global, items: &[Value]) -> Result<Option<Findings>, OutOfMemory>
    ensures { IfOk result (λ findings. findings ≡ each_read spec.finding_in (items_view items.now)) }
{
    let mut findings = Findings::new(alloc);
    for item in items {
        match finding_in(item) {
            Some(finding) => findings.push(finding)?,
            None => return Ok(None),
        }
    }
    Ok(Some(findings))
}

#[tactic(auto, unfolding(crate::specs::Findings::findings_of))]
fn findings_of(alloc: Global, items: &[Value]) -> Result<Option<Findings>, OutOfMemory>
    ensures { IfOk result (λ findings. findings ≡ spec.findings_of (items_view items.now)) }
{
    match findings_in(alloc, items)? {
        Some(findings) if are_in_order(findings.as_slice()) => Ok(Some(findings)),
        _ => Ok(None),
    }
}

/// Reads a list of stored findings. They must be in order, and no two may be the same.
pub fn read_findings(alloc: Global, items: &[Value]) -> Result<Option<Findings>, OutOfMemory>
    ensures value { IfOk result (λ findings. findings ≡ spec.findings_of (items_view items.now)) }
    ensures order { IfOk result (λ findings. IfSome findings AreInOrder) }
{
    findings_of(alloc, items)
}

fn finding_values(alloc: Global, findings: &[Finding]) -> Result<Vec<Value>, OutOfMemory>
    ensures { IfOk result (λ values. map view values.items ≡ map spec.finding_data findings.now) }
{
    let mut values = Vec::new(alloc);
    for finding in findings {
        let text = finding_text(alloc, finding)?;
        values.push(text_value(alloc, text.bytes())?)?;
    }
    Ok(values)
}

/// Converts findings to a JSON list of their texts.
pub fn findings_value(alloc: Global, findings: &[Finding]) -> Result<Value, OutOfMemory>
    ensures { IfOk result (λ v. view v ≡ spec.findings_data findings.now) }
{
    Ok(Value::Array(finding_values(alloc, findings)?))
}
