use desk_io::Text;

/// A step in the relief of a desk.
#[derive(Debug, Drop)]
pub enum Handover {
    /// The person who sits at a desk offers it to another dispatcher.
    Offer { actor: Text, desk: Text, to: Text },
    /// A dispatcher accepts a desk that was offered to him.
    Accept { actor: Text, desk: Text },
}
