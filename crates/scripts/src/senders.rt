ghost use Rattle.std.specs.Prelude.{◌≡◌, IfSome};
ghost use Rattle.std.specs.Option.{option_copied};
ghost use Rattle.asks.specs.Ranges.{RefusalHasMoment};
ghost use Rattle.desk_state.specs.Decide as decide;
ghost use Rattle.desk_state.specs.People as people;
ghost use Rattle.relief.specs.Roster as roster;
ghost use Rattle.scripts.specs.Routes as spec;

use asks::{Ask, Refusal};
use ops_tables::{Actor, Role};

/// Returns true if a person with this role is a dispatcher.
pub(crate) fn is_dispatcher_role(role: Role) -> bool
    ensures { result ≡ roster.is_dispatcher_role role }
{
    match role {
        Role::D => true,
        Role::C | Role::F | Role::M | Role::S => false,
    }
}

fn is_dispatcher(person: Option<&Actor>) -> bool
    ensures { result ≡ roster.is_dispatcher (option_copied person.entry) }
{
    match person {
        None => false,
        Some(person) => is_dispatcher_role(person.role()),
    }
}

/// Returns true if the ask only shows something.
pub(crate) fn is_view(ask: &Ask) -> bool
    ensures { result ≡ decide.is_view ask.now }
{
    match ask {
        Ask::ViewBoard
        | Ask::ViewAlerts
        | Ask::ViewRelease { .. }
        | Ask::ViewWeather { .. }
        | Ask::ViewDeferred { .. } => true,
        _ => false,
    }
}

/// Checks a caller's name and key. Returns a refusal if nobody has the name (1) or the key is wrong (2).
pub(crate) fn mistaken(person: Option<&Actor>, key: &[u8]) -> Option<Refusal>
    ensures { result ≡ people.mistaken (option_copied person.entry) key.now }
{
    match person {
        None => Some(Refusal::UnknownActor),
        Some(person) if person.key() == key => None,
        Some(_) => Some(Refusal::WrongKey),
    }
}

/// Checks a known person's key (2).
#[tactic(auto, using(crate::proofs::SenderLaws::mistaken_moment))]
pub(crate) fn key_refusal(person: &Actor, key: &[u8]) -> Option<Refusal>
    ensures value { result ≡ spec.key_refusal person.now key.now }
    ensures shown { IfSome result RefusalHasMoment }
{
    mistaken(Some(person), key)
}

/// Checks the sender of a relief line: a known person (1) with the right key (2), who is a dispatcher (3).
#[tactic(auto, using(crate::proofs::SenderLaws::mistaken_moment))]
pub(crate) fn sender_refusal(person: Option<&Actor>, key: &[u8]) -> Option<Refusal>
    ensures value { result ≡ spec.sender_refusal (option_copied person.entry) key.now }
    ensures shown { IfSome result RefusalHasMoment }
{
    match mistaken(person, key) {
        Some(refusal) => Some(refusal),
        None if is_dispatcher(person) => None,
        None => Some(Refusal::NotYourRole),
    }
}
