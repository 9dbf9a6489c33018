ghost use Rattle.std.specs.Prelude.{◌≡◌, drop};
ghost use Rattle.desk_time.specs.Digits.{or_else};
ghost use Rattle.weather_window.specs.Running as spec;
ghost use Rattle.weather_window.specs.Values.{Element, ceiling as ceiling_element, visibility};

use codes::{Cond, lesser};
use desk_time::Minute;
use weather_reports::{Part, PartKind};

// How a part of a forecast counts at a moment.
#[derive(Clone, Copy)]
enum Role {
    // It has replaced all earlier parts.
    Replaces,
    // It is a finished change, whose values last.
    Lasts,
    // It is a change in progress, or a temporary part within its period.
    Passes,
    // It doesn't count.
    Silent,
}

// The values of one element in the parts so far.
#[derive(Clone, Copy)]
struct Holding {
    // The value that lasts until another part replaces it.
    lasting: Option<u32>,
    // The least value of changes in progress and temporary parts.
    passing: Option<u32>,
}

fn role_of(part: &Part, minute: Minute) -> Role
    ensures { result ≡ spec.role_of minute part.now }
{
    match part.kind {
        PartKind::Base | PartKind::From if part.from <= minute => Role::Replaces,
        PartKind::Becoming if part.to <= minute => Role::Lasts,
        PartKind::Becoming if part.from <= minute => Role::Passes,
        PartKind::Tempo | PartKind::Prob if part.from <= minute && minute <= part.to =>
            Role::Passes,
        _ => Role::Silent,
    }
}

fn and_value(held: Holding, role: Role, value: Option<u32>) -> Holding
    ensures { result ≡ spec.and_value held role value }
{
    match role {
        Role::Replaces => Holding {
            lasting: value,
            passing: None,
        },
        Role::Lasts => Holding {
            lasting: value.or(held.lasting),
            passing: held.passing,
        },
        Role::Passes => Holding {
            lasting: held.lasting,
            passing: lesser(held.passing, value),
        },
        Role::Silent => held,
    }
}

fn only(value: Option<u32>) -> Holding
    ensures { result ≡ spec.only value }
{
    Holding {
        lasting: value,
        passing: None,
    }
}

fn least_held(held: Holding) -> Option<u32>
    ensures { result ≡ spec.least_held held }
{
    lesser(held.lasting, held.passing)
}

fn after_first(first: &Part, after: &[Part], minute: Minute) -> Cond
    ensures ceiling { result.ceiling ≡ spec.least_after ceiling_element minute first.now after.now }
    ensures vis { result.vis ≡ spec.least_after visibility minute first.now after.now }
{
    let mut ceiling = only(first.cond.ceiling);
    let mut vis = only(first.cond.vis);
    for part in after {
        let role = role_of(part, minute);
        ceiling = and_value(ceiling, role, part.cond.ceiling);
        vis = and_value(vis, role, part.cond.vis);
    }
    Cond {
        ceiling: least_held(ceiling),
        vis: least_held(vis),
    }
}

/// The least values of the parts of a forecast at a moment.
#[tactic(auto, unfolding(crate::specs::Running::least_at))]
pub(crate) fn parts_at(parts: &[Part], minute: Minute) -> Cond
    ensures ceiling { result.ceiling ≡ spec.least_at ceiling_element minute parts.now }
    ensures vis { result.vis ≡ spec.least_at visibility minute parts.now }
{
    match parts {
        [] => Cond::UNKNOWN,
        [first, after @ ..] => after_first(first, after, minute),
    }
}
