ghost use Rattle.std.specs.Prelude.{◌≡◌, ◌≤◌, ◌<◌, ◌-◌, ◌+◌, ◌^◌, length, slice_range};
ghost use Rattle.codes.specs.Cond as spec;
ghost use Rattle.codes.specs.Cond.{cond_of, stretch_of};
ghost use Rattle.codes.specs.Shapes.{elements_of};

use crate::class::is_unread_by;
use crate::fault::{BadReport, Form, Why};
use crate::groups::{Group, Groups, first_of};
use crate::shapes::{Elements, Named, are_digits, elements_of, visibility_after};

/// A weather condition: ceiling and visibility, each None if unknown.
#[derive(Clone, Copy, Debug, PartialEq, Eq)]
pub struct Cond {
    /// The ceiling in feet.
    pub ceiling: Option<u32>,
    /// The visibility in millimetres.
    pub vis: Option<u32>,
}

impl Cond {
    /// Both elements are unknown.
    pub const UNKNOWN: Cond = Cond {
        ceiling: None,
        vis: None,
    };
}

/// The reading of consecutive groups.
#[derive(Clone, Copy, Debug, PartialEq, Eq)]
pub struct Stretch {
    /// The condition that the groups report.
    pub cond: Cond,
    /// How many of the groups have class `Unread`. It is 0 in a forecast.
    pub unread: u32,
}

// The reading of the groups so far.
#[derive(Clone, Copy)]
struct Found {
    // The least visibility, in millimetres.
    vis: Option<u32>,
    // The least height of the sky, in feet.
    height: Option<u32>,
    // Whether a group reports a layer whose height wasn't measured.
    unmeasured: bool,
    // How many of the groups have class `Unread`.
    unread: u32,
}

/// Returns the lesser value, or the only value that is present.
pub fn lesser(a: Option<u32>, b: Option<u32>) -> Option<u32>
    ensures { result ≡ spec.lesser a b }
{
    match (a, b) {
        (Some(x), Some(y)) => Some(x.min(y)),
        (Some(_), None) => a,
        (None, _) => b,
    }
}

/// Returns the lesser moment or id, or the only one that is present.
pub fn least_of(a: Option<u64>, b: Option<u64>) -> Option<u64>
    ensures { result ≡ spec.lesser a b }
{
    match (a, b) {
        (Some(x), Some(y)) => Some(x.min(y)),
        (Some(_), None) => a,
        (None, _) => b,
    }
}

fn value_of(named: Named) -> Option<u32>
    ensures { result ≡ spec.value_of named }
{
    match named {
        Named::Value(value) => Some(value),
        _ => None,
    }
}

fn is_bad(named: Named) -> bool
    ensures { result ≡ spec.is_bad named }
{
    match named {
        Named::Bad => true,
        _ => false,
    }
}

fn is_unmeasured(sky: Named) -> bool
    ensures { result ≡ spec.is_unmeasured_name sky }
{
    match sky {
        Named::Unmeasured => true,
        _ => false,
    }
}

fn ceiling_of(least: Option<u32>, unmeasured: bool) -> Option<u32>
    ensures { result ≡ spec.ceiling_of least unmeasured }
{
    match least {
        Some(height) if unmeasured && 100_000 <= height => None,
        _ => least,
    }
}

fn unread_one(form: Form, elements: Elements, group: &[u8], next: &[u8]) -> u32
    requires { elements ≡ elements_of group.now }
    ensures value { result ≡ spec.unread_one form group.now next.now }
    ensures within { result ≤ 1 }
{
    match form {
        Form::Report if is_unread_by(elements, group, next) => 1,
        _ => 0,
    }
}

impl Found {
    const NOTHING: Found = Found {
        vis: None,
        height: None,
        unmeasured: false,
        unread: 0,
    };

    // Adds one more group, given the groups before and after it.
    fn and(self, form: Form, elements: Elements, before: &[u8], group: &[u8], next: &[u8]) -> Found
        requires elements { elements ≡ elements_of group.now }
        requires fits { self.unread + 1 < 2 ^ 32 }
        ensures { result ≡ spec.found_with form self before.now group.now next.now }
    {
        Found {
            vis: lesser(
                self.vis,
                value_of(visibility_after(before, group, elements.vis)),
            ),
            height: lesser(self.height, value_of(elements.sky)),
            unmeasured: self.unmeasured || is_unmeasured(elements.sky),
            unread: self.unread + unread_one(form, elements, group, next),
        }
    }

    // Completes the reading.
    fn stretch(self) -> Stretch
        ensures cond { result.cond ≡ spec.cond_with self }
        ensures unread { result.unread ≡ self.unread }
    {
        let ceiling = ceiling_of(self.height, self.unmeasured);
        Stretch {
            cond: Cond {
                ceiling,
                vis: self.vis,
            },
            unread: self.unread,
        }
    }
}

/// Returns true if the group is four digits, `/` and four digits, the form of a forecast's period.
pub fn is_period(group: &[u8]) -> bool
    ensures { result ≡ spec.is_period group.now }
{
    match group {
        [a, b, c, d, b'/', e, f, g, h] => are_digits(&[*a, *b, *c, *d])
            && are_digits(&[*e, *f, *g, *h]),
        _ => false,
    }
}

fn fault_by(form: Form, elements: Elements, group: &[u8]) -> Option<Why>
    ensures { result ≡ spec.fault_by form elements group.now }
{
    if is_bad(elements.vis) {
        Some(Why::BadVisibility)
    } else if is_bad(elements.sky) {
        Some(Why::BadSky)
    } else {
        match form {
            Form::Report if is_period(group) => Some(Why::BadPeriod),
            _ => None,
        }
    }
}

/// Reads consecutive groups in one pass. The first of them has number `number`. The error is the first malformed
/// group.
#[tactic(auto, using(crate::proofs::CondLaws::stretch_found, crate::proofs::CondLaws::stretch_fault), unfolding(crate::specs::Cond::shape_fault))]
pub fn stretch_in(form: Form, number: u32, groups: &[Group<'_>]) -> Result<Stretch, BadReport>
    requires { number + length groups.now < 2 ^ 32 }
    ensures { result ≡ stretch_of form number groups.now }
{
    let mut found = Found::NOTHING;
    let mut before: &[u8] = b"";
    for (i, group) in groups.iter().enumerate() {
        let group = group.bytes();
        let elements = elements_of(group);
        if let Some(why) = fault_by(form, elements, group) {
            return Err(BadReport {
                group: number + i as u32,
                why,
            });
        }
        found = found.and(form, elements, before, group, first_of(&groups[i + 1..]));
        before = group;
    }
    Ok(found.stretch())
}

/// Reads the condition that consecutive groups report. The first of them has number `number`. The error is the first
/// malformed group.
#[tactic(auto, unfolding(crate::specs::Cond::stretch_of))]
pub fn cond_in(form: Form, number: u32, groups: &[Group<'_>]) -> Result<Cond, BadReport>
    requires { number + length groups.now < 2 ^ 32 }
    ensures { result ≡ cond_of form number groups.now }
{
    match stretch_in(form, number, groups) {
        Ok(stretch) => Ok(stretch.cond),
        Err(bad) => Err(bad),
    }
}

/// Reads the condition of a forecast's groups from number `from` up to, but not including, number `to`. The condition
/// is the least visibility and the least ceiling. If a layer's height wasn't measured, a ceiling of 100,000 feet is
/// unknown instead. The error is the first malformed group.
pub fn cond_of(groups: &Groups<'_>, from: usize, to: usize) -> Result<Cond, BadReport>
    requires low { 1 ≤ from }
    requires order { from ≤ to }
    requires high { to ≤ length groups.now + 1 }
    requires count { length groups.now ≤ 4_294_967_294 }
    ensures { result ≡ cond_of Form.Forecast from (slice_range groups.now (from - 1) (to - 1)) }
{
    cond_in(
        Form::Forecast,
        from as u32,
        &groups.as_slice()[from - 1..to - 1],
    )
}
