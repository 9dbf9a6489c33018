ghost use Rattle.std.specs.Prelude.{◌≡◌, ◌==◌, ◌≤◌, ◌+◌, ◌-◌, ◌++◌, [], IfOk, OnOk, List, ℕ, length, slice_index, slice_index_or};
ghost use Rattle.codes.specs.Groups.{
  without_end_sign,
  last_without_end_sign,
  groups_of,
  first_of,
  spaced,
  joined,
  canonical,
};

use desk_io::{Blanks, OutOfMemory, Run, Text, push_run, runs_between};
use std::alloc::Global;
use std::marker::Model;

/// One group of a report's text, borrowed from the text.
pub type Group<'a> = Run<'a>;

/// The groups of a report's text, numbered from 1 and borrowed from the text. A group isn't empty and contains no
/// blank.
#[derive(Debug, Drop)]
pub struct Groups<'a> {
    items: Vec<Group<'a>>,
}

impl<'a> Model for Groups<'a> {
    ghost use Rattle.std.specs.Prelude.{List, ℕ, All};
    ghost use Rattle.codes.specs.Groups.{IsGroup};

    ghost Value = { List (List ℕ) };

    ghost view = { λ g. g.items.items };

    ghost invariant = { λ g. All IsGroup g.items.items };
}

// The run without a final `=`.
fn without_end_sign(run: &[u8]) -> &[u8]
    ensures { result.now ≡ without_end_sign run.now }
{
    match run {
        [front @ .., b'='] => front,
        _ => run,
    }
}

#[tactic(auto, using(crate::proofs::GroupLaws::last_without_end_sign_push))]
fn drop_end_sign(runs: &mut Vec<Run<'_>>) -> Result<(), OutOfMemory>
    ensures { OnOk result (runs.new.items ≡ last_without_end_sign runs.old.items) }
{
    if let Some(last) = runs.pop() {
        push_run(runs, without_end_sign(last.bytes()))?;
    }
    Ok(())
}

// Splits a text into its groups, without the `=` that ends a report.
#[tactic(auto, unfolding(crate::specs::Groups::groups_of))]
fn items_of<'a>(alloc: Global, text: &'a [u8]) -> Result<Vec<Group<'a>>, OutOfMemory>
    ensures { IfOk result (λ v. v.items ≡ groups_of text.now) }
{
    let mut runs = runs_between::<Blanks>(alloc, text)?;
    drop_end_sign(&mut runs)?;
    Ok(runs)
}

fn push_spaced(text: &mut Vec<u8>, groups: &[Group<'_>]) -> Result<(), OutOfMemory>
    ensures { OnOk result (text.new.items ≡ text.old.items ++ spaced groups.now) }
{
    for group in groups {
        text.push(b' ')?;
        text.extend_from_slice(group.bytes())?;
    }
    Ok(())
}

// The bytes of all groups, with one byte more for each.
fn room_for(groups: &[Group<'_>]) -> usize {
    let mut room = 0_usize;
    for group in groups {
        room = room.saturating_add(group.bytes().len()).saturating_add(1);
    }
    room
}

fn joined(alloc: Global, groups: &[Group<'_>]) -> Result<Vec<u8>, OutOfMemory>
    ensures { IfOk result (λ v. v.items ≡ joined groups.now) }
{
    let mut text = Vec::with_capacity(alloc, room_for(groups))?;
    if let [first, rest @ ..] = groups {
        text.extend_from_slice(first.bytes())?;
        push_spaced(&mut text, rest)?;
    }
    Ok(text)
}

#[tactic(auto, unfolding(crate::specs::Groups::canonical))]
fn canonical_text(alloc: Global, groups: &[Group<'_>]) -> Result<Text, OutOfMemory>
    ensures { IfOk result (λ t. t ≡ canonical groups.now) }
{
    let mut text = joined(alloc, groups)?;
    if has_end_sign(&text) {
        text.push(b'=')?;
    }
    Ok(Text::from_vec(text))
}

fn has_end_sign(text: &[u8]) -> bool
    ensures { result ≡ (slice_index text.now (length text.now - 1) == 61) }
{
    text.last() == Some(&b'=')
}

/// Returns the first group, or no bytes if there is none.
pub fn first_of<'a>(groups: &[Group<'a>]) -> &'a [u8]
    ensures { result.now ≡ first_of groups.now }
{
    match groups {
        [first, ..] => first.bytes(),
        [] => b"",
    }
}

impl<'a> Groups<'a> {
    /// Splits a text into its groups, the maximal runs of bytes that aren't blank. Removes one `=` from the end of
    /// the last group, and the group itself if nothing else is left. There is at most one group more than there are
    /// bytes.
    #[tactic(auto, using(crate::proofs::GroupLaws::groups_of_length))]
    pub fn of(alloc: Global, text: &'a [u8]) -> Result<Groups<'a>, OutOfMemory>
        ensures groups { IfOk result (λ g. g ≡ groups_of text.now) }
        ensures count { IfOk result (λ g. length g ≤ length text.now + 1) }
    {
        let items = items_of(alloc, text)?;
        Ok(Groups { items })
    }

    /// Returns the canonical text, in which single spaces separate the groups. If the last group ends in `=`, another
    /// `=` follows, so that the text splits into the same groups.
    #[tactic(auto, using(crate::proofs::CanonicalLaws::groups_of_canonical, crate::proofs::LengthLaws::no_text_is_shorter))]
    pub fn canonical(&self, alloc: Global) -> Result<Text, OutOfMemory>
        ensures text { IfOk result (λ t. t ≡ canonical self.now) }
        ensures again { IfOk result (λ t. groups_of t ≡ self.now) }
        // No text with these groups is shorter.
        ensures shortest { IfOk result (λ t. (text : List ℕ) → groups_of text ≡ self.now → length t ≤ length text) }
    {
        canonical_text(alloc, &self.items)
    }

    /// Returns the number of groups.
    pub fn len(&self) -> usize
        ensures { result ≡ length self.now }
    {
        self.items.len()
    }

    /// Returns true if there are no groups.
    pub fn is_empty(&self) -> bool
        ensures { result ≡ (length self.now == 0) }
    {
        self.items.is_empty()
    }

    /// Returns the groups in order.
    pub fn as_slice(&self) -> &[Group<'a>]
        ensures { result.now ≡ self.now }
    {
        &self.items
    }

    /// Returns group number `n`, counted from 1.
    pub fn group(&self, n: usize) -> &'a [u8]
        requires low { 1 ≤ n }
        requires high { n ≤ length self.now }
        ensures { result.now ≡ slice_index_or self.now (n - 1) [] }
    {
        self.items[n - 1].bytes()
    }
}
