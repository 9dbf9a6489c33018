ghost use Rattle.std.specs.Prelude.{◌≡◌, Some};
ghost use Rattle.plan.specs.Findings as spec;

use desk_io::{Copied, Listed, OutOfMemory};
use std::alloc::Global;

/// The nineteen rules by which a release is judged.
#[derive(Clone, Copy, Debug, PartialEq, Eq)]
pub enum Rule {
    /// 14 CFR 121.593: a domestic flight that has stopped for more than an hour needs another release.
    No1,
    /// 14 CFR 121.595: a flag flight that has stopped for more than six hours needs another release.
    No2,
    /// 14 CFR 121.613, 121.652: the destination is at or above landing minima at the ETA.
    No3,
    /// 14 CFR 121.617(a): if the departure is below landing minima at the ETD, a takeoff alternate is listed.
    No4,
    /// 14 CFR 121.617(a): the takeoff alternate is within one or two hours with one engine inoperative.
    No5,
    /// 14 CFR 121.617(b): the takeoff alternate is at or above its alternate minima.
    No6,
    /// 14 CFR 121.619(a): a domestic leg that needs an alternate lists one.
    No7,
    /// 14 CFR 121.619(a): a domestic leg lists a second alternate if the destination and the first one are marginal.
    No8,
    /// 14 CFR 121.621(a): a flag leg that needs an alternate lists one, unless its route is free of them.
    No9,
    /// 14 CFR 121.625: each listed alternate is at or above its alternate minima.
    No10,
    /// 14 CFR 121.628: no open deferral forbids the leg.
    No11,
    /// 14 CFR 121.628: no open deferral is due for repair by the ETA.
    No12,
    /// 14 CFR 121.631(a): the type may use the destination, the alternates and the takeoff alternate.
    No13,
    /// 14 CFR 121.639: the minimum fuel of a domestic leg is at least what is required.
    No14,
    /// 14 CFR 121.645: the minimum fuel of a flag leg is at least what is required.
    No15,
    /// The desk's own: the fuel on board is at least the minimum fuel.
    No16,
    /// The desk's own: the next leg departs at most `late_off` minutes after its ETD.
    No17,
    /// The desk's own: the leg in flight arrives at most `late_on` minutes after its ETA.
    No18,
    /// The desk's own: the plan passes its tests under the tables.
    No19,
}

/// A rule that a release fails, with the leg and the place.
#[derive(Clone, Copy, Debug, PartialEq, Eq)]
pub struct Finding {
    pub rule: Rule,
    /// The leg that fails, from 1; 0 if the plan as a whole fails.
    pub leg: u32,
    /// Which of several things on the leg fails, such as an alternate or a deferral; otherwise 0.
    pub place: u64,
}

/// Findings sorted by rule, leg and place, without duplicates.
pub type Findings = Listed<Finding>;

impl Copied for Finding {
    fn copy(&self, _alloc: Global) -> Result<Finding, OutOfMemory> {
        Ok(*self)
    }
}

/// All rules in their order.
pub const EVERY_RULE: [Rule; 19] = [
    Rule::No1,
    Rule::No2,
    Rule::No3,
    Rule::No4,
    Rule::No5,
    Rule::No6,
    Rule::No7,
    Rule::No8,
    Rule::No9,
    Rule::No10,
    Rule::No11,
    Rule::No12,
    Rule::No13,
    Rule::No14,
    Rule::No15,
    Rule::No16,
    Rule::No17,
    Rule::No18,
    Rule::No19,
];

/// Returns the rules that are judged leg by leg: all but the last, which tests the plan under the tables.
pub fn rules_of_legs() -> &'static [Rule]
    ensures { result.now ≡ spec.rules_of_legs }
{
    &EVERY_RULE[..18]
}

impl Rule {
    /// Returns the rule's number, from 1.
    pub fn number(self) -> u8
        ensures value { result ≡ spec.number_of self }
        ensures own { spec.rule_of result ≡ Some self }
    {
        match self {
            Rule::No1 => 1,
            Rule::No2 => 2,
            Rule::No3 => 3,
            Rule::No4 => 4,
            Rule::No5 => 5,
            Rule::No6 => 6,
            Rule::No7 => 7,
            Rule::No8 => 8,
            Rule::No9 => 9,
            Rule::No10 => 10,
            Rule::No11 => 11,
            Rule::No12 => 12,
            Rule::No13 => 13,
            Rule::No14 => 14,
            Rule::No15 => 15,
            Rule::No16 => 16,
            Rule::No17 => 17,
            Rule::No18 => 18,
            Rule::No19 => 19,
        }
    }

    /// Returns the rule's code in findings: its section of 14 CFR or the desk's own name.
    pub fn code(self) -> &'static str
        ensures { result.now ≡ spec.code_of self }
    {
        match self {
            Rule::No1 => "121.593",
            Rule::No2 => "121.595",
            Rule::No3 => "121.613",
            Rule::No4 => "121.617-ALT",
            Rule::No5 => "121.617-RANGE",
            Rule::No6 => "121.617-WX",
            Rule::No7 => "121.619-NONE",
            Rule::No8 => "121.619-SECOND",
            Rule::No9 => "121.621-NONE",
            Rule::No10 => "121.625",
            Rule::No11 => "121.628-LIMIT",
            Rule::No12 => "121.628-DUE",
            Rule::No13 => "121.631-TYPE",
            Rule::No14 => "121.639",
            Rule::No15 => "121.645",
            Rule::No16 => "DESK-BOARD",
            Rule::No17 => "DESK-LATE-OFF",
            Rule::No18 => "DESK-LATE-ON",
            Rule::No19 => "DESK-TABLES",
        }
    }
}

/// Returns true if the findings are equal.
pub fn is_same(a: &Finding, b: &Finding) -> bool
    ensures { result ≡ spec.is_same a.now b.now }
{
    a.rule.number() == b.rule.number() && a.leg == b.leg && a.place == b.place
}

/// Returns true if `a` comes before `b` in the order of rule, leg and place.
pub fn is_before(a: &Finding, b: &Finding) -> bool
    ensures { result ≡ spec.is_before a.now b.now }
{
    let (one, two) = (a.rule.number(), b.rule.number());
    one < two || one == two && (a.leg < b.leg || a.leg == b.leg && a.place < b.place)
}
