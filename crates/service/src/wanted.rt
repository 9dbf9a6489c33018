ghost use Rattle.std.specs.Prelude.{◌≡◌, false, IfOk};
ghost use Rattle.service.specs.Forms.{WantedHasForms};
ghost use Rattle.service.specs.Wanted as spec;

use crate::pages::Page;
use crate::requested::{Requested, requested_by};
use desk_http::{Patterns, Wire};
use desk_io::OutOfMemory;
use std::alloc::Global;

/// What a request wants.
#[derive(Debug, Drop)]
pub enum Wanted {
    /// An answer of the desk.
    Asked(Requested),
    /// A page.
    Page(Page),
}

fn page_at(path: &[u8]) -> Option<Page>
    ensures { result ≡ spec.page_at path.now }
{
    if path == b"/health".as_slice() {
        Some(Page::Health)
    } else if path == b"/metrics".as_slice() {
        Some(Page::Metrics)
    } else {
        None
    }
}

fn page_in(pages: bool, path: &[u8]) -> Option<Page>
    ensures { result ≡ spec.page_in pages path.now }
{
    if pages { page_at(path) } else { None }
}

fn page_wanted(get: bool, page: Page) -> Wanted
    ensures wanted { result ≡ spec.page_wanted get page }
    ensures forms { WantedHasForms result }
{
    if get {
        Wanted::Page(page)
    } else {
        Wanted::Asked(Requested::WrongMethod)
    }
}

/// What a request wants of a service with pages, or without.
pub(crate) fn wanted_by(
    alloc: Global,
    pages: bool,
    patterns: &Patterns,
    wire: &Wire,
) -> Result<Wanted, OutOfMemory>
    ensures wanted { IfOk result (λ w. w ≡ spec.wanted_by pages wire.now) }
    ensures forms { IfOk result WantedHasForms }
{
    match page_in(pages, wire.path.bytes()) {
        Some(page) => Ok(page_wanted(wire.get, page)),
        None => Ok(Wanted::Asked(requested_by(alloc, patterns, wire)?)),
    }
}
