ghost use Rattle.std.specs.Prelude.{◌≡◌, nat_le, Option, MatchOption};
ghost use Rattle.serde_json.specs.Data.{no_items, item};
ghost use Rattle.serde_json.specs.Events.{items_len};
ghost use Rattle.compact_json.specs.Elements.{data_at, items_left};

use crate::boxes::after_box;
use crate::element::Element;

/// An iterator over the items of a list.
#[derive(Clone, Copy)]
pub struct Items<'a> {
    pub(crate) bytes: &'a [u8],
}

impl<'a> Items<'a> {
    /// Returns the next item.
    pub fn next(&mut self) -> Option<Element<'a>>
        ensures { MatchOption result ((items_left self.old ≡ no_items) × (items_left self.new ≡ no_items))
            (λ e. items_left self.old ≡ item (data_at e) (items_left self.new)) }
    {
        let bytes = self.bytes;
        if bytes.is_empty() {
            return None;
        }
        self.bytes = after_box(bytes);
        Some(Element { bytes })
    }

    /// Returns true if at most `count` items are left.
    pub fn are_at_most(&self, count: usize) -> bool
        ensures { result ≡ nat_le (items_len (items_left self.now)) count }
    {
        let mut left = *self;
        let mut seen = 0;
        'items: while let Some(_) = left.next() {
            if seen == count {
                return false;
            }
            seen += 1;
        }
        true
    }
}
