ghost use Rattle.std.specs.Prelude.{◌≡◌};
ghost use Rattle.std.specs.Option.{option_copied};
ghost use Rattle.ops_tables.specs.Tables.{is_captain_role};
ghost use Rattle.desk_state.specs.People as spec;
ghost use Rattle.decisions.specs.Answers.{Passes};

use crate::chain::{Stop, refused_if};
use asks::{Ask, Refusal};
use ops_tables::{Actor, Role};

fn is_dispatcher(role: Role) -> bool
    ensures { result ≡ spec.is_dispatcher role }
{
    match role {
        Role::D => true,
        Role::C | Role::F | Role::M | Role::S => false,
    }
}

/// Returns true if a person with this role may be the pilot in command.
pub(crate) fn is_captain(role: Role) -> bool
    ensures { result ≡ is_captain_role role }
{
    match role {
        Role::C => true,
        Role::D | Role::F | Role::M | Role::S => false,
    }
}

fn is_feed(role: Role) -> bool
    ensures { result ≡ spec.is_feed role }
{
    match role {
        Role::F => true,
        Role::D | Role::C | Role::M | Role::S => false,
    }
}

fn is_maintenance(role: Role) -> bool
    ensures { result ≡ spec.is_maintenance role }
{
    match role {
        Role::M => true,
        Role::D | Role::C | Role::F | Role::S => false,
    }
}

fn is_records(role: Role) -> bool
    ensures { result ≡ spec.is_records role }
{
    match role {
        Role::S => true,
        Role::D | Role::C | Role::F | Role::M => false,
    }
}

// Returns true if a role permits an ask.
fn may_ask(ask: &Ask, role: Role) -> bool
    ensures { result ≡ spec.may_ask ask.now role }
{
    match ask {
        Ask::Admit { .. } => is_feed(role) || is_dispatcher(role),
        Ask::Defer { .. } | Ask::Clear { .. } => is_maintenance(role),
        Ask::Draft { .. }
        | Ask::Prepare { .. }
        | Ask::Sign { .. }
        | Ask::Amend { .. }
        | Ask::Cancel { .. }
        | Ask::Acknowledge { .. } => is_dispatcher(role),
        Ask::Concur { .. } => is_captain(role),
        Ask::Depart { .. } | Ask::Arrive { .. } => is_dispatcher(role) || is_captain(role),
        Ask::Purge { .. } | Ask::Sweep { .. } => is_records(role),
        Ask::ViewBoard
        | Ask::ViewAlerts
        | Ask::ViewRelease { .. }
        | Ask::ViewWeather { .. }
        | Ask::ViewDeferred { .. } => true,
    }
}

/// Checks a caller's name and key. Returns a refusal if nobody has the name (1) or the key is wrong (2).
pub fn mistaken(person: Option<&Actor>, key: &[u8]) -> Option<Refusal>
    ensures { result ≡ spec.mistaken (option_copied person.entry) key.now }
{
    match person {
        None => Some(Refusal::UnknownActor),
        Some(person) if person.key() == key => None,
        Some(_) => Some(Refusal::WrongKey),
    }
}

/// Refuses (3) unless the person's role permits the ask.
pub(crate) fn not_his_role(person: Option<&Actor>, ask: &Ask) -> Result<(), Stop>
    ensures { Passes result (spec.not_his_role (option_copied person.entry) ask.now) }
{
    match person {
        None => Err(Stop::Refused(Refusal::NotYourRole)),
        Some(person) => refused_if(!may_ask(ask, person.role()), Refusal::NotYourRole),
    }
}
