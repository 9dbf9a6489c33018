ghost use Rattle.std.specs.Prelude.{◌≡◌, ◌≤◌, ◌<◌, IfOk};
ghost use Rattle.made_items.specs.Calls as spec;

use crate::plans::plan_of;
use asks::{Ask, Call};
use desk_io::{OutOfMemory, Text};
use std::alloc::Global;

/// A person who asks.
#[derive(Clone, Copy, Debug)]
pub(crate) enum Person {
    Feed,
    Dispatcher,
    Captain,
}

fn name_of(person: Person) -> &'static [u8]
    ensures { result.now ≡ spec.name_of person }
{
    match person {
        Person::Feed => b"F1",
        Person::Dispatcher => b"D1",
        Person::Captain => b"C7",
    }
}

fn key_of(person: Person) -> &'static [u8]
    ensures { result.now ≡ spec.key_of person }
{
    match person {
        Person::Feed => b"kF1",
        Person::Dispatcher => b"kD1",
        Person::Captain => b"kC7",
    }
}

fn asked_by(alloc: Global, person: Person, number: u64, ask: Ask) -> Result<Call, OutOfMemory>
    ensures { IfOk result (λ call. call ≡ spec.asked_by person number ask) }
{
    Ok(Call {
        actor: Text::of(alloc, name_of(person))?,
        key: Text::of(alloc, key_of(person))?,
        number,
        ask,
    })
}

/// Admits a report, as the feed's request of this number.
pub(crate) fn admit(alloc: Global, number: u64, text: &[u8]) -> Result<Call, OutOfMemory>
    ensures { IfOk result (λ call. call ≡ spec.admit number text.now) }
{
    let text = Text::of(alloc, text)?;
    asked_by(alloc, Person::Feed, number, Ask::Admit { text })
}

/// Drafts the flight after `earlier` ones.
pub(crate) fn draft(alloc: Global, earlier: u32, minimum: u32) -> Result<Call, OutOfMemory>
    ensures { IfOk result (λ call. call ≡ spec.draft earlier minimum) }
{
    let earlier = u64::from(earlier);
    let plan = plan_of(alloc, earlier + 1, minimum)?;
    asked_by(
        alloc,
        Person::Dispatcher,
        4 * earlier + 1,
        Ask::Draft { plan },
    )
}

/// Prepares the flight's release.
pub(crate) fn prepare(alloc: Global, earlier: u32, release: u64) -> Result<Call, OutOfMemory>
    ensures { IfOk result (λ call. call ≡ spec.prepare earlier release) }
{
    let number = 4 * u64::from(earlier) + 2;
    asked_by(alloc, Person::Dispatcher, number, Ask::Prepare { release })
}

/// Signs its first revision, as the dispatcher.
pub(crate) fn sign(
    alloc: Global,
    earlier: u32,
    release: u64,
    digest: [u8; 32],
) -> Result<Call, OutOfMemory>
    ensures { IfOk result (λ call. call ≡ spec.sign earlier release digest) }
{
    let ask = Ask::Sign {
        release,
        revision: 1,
        digest,
    };
    asked_by(alloc, Person::Dispatcher, 4 * u64::from(earlier) + 3, ask)
}

/// Concurs with its first revision, as the captain.
pub(crate) fn concur(
    alloc: Global,
    earlier: u32,
    release: u64,
    digest: [u8; 32],
) -> Result<Call, OutOfMemory>
    ensures { IfOk result (λ call. call ≡ spec.concur earlier release digest) }
{
    let ask = Ask::Concur {
        release,
        revision: 1,
        digest,
    };
    asked_by(alloc, Person::Captain, u64::from(earlier) + 1, ask)
}

/// Cancels the release.
pub(crate) fn cancel(alloc: Global, earlier: u32, release: u64) -> Result<Call, OutOfMemory>
    ensures { IfOk result (λ call. call ≡ spec.cancel earlier release) }
{
    let number = 4 * u64::from(earlier) + 4;
    asked_by(alloc, Person::Dispatcher, number, Ask::Cancel { release })
}
