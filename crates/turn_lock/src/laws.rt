//! Laws that follow from the rule of the table, and from the definitions that contracts use.
ghost use Rattle.std.specs.Prelude.{◌≡◌, ◌≢◌, ◌++◌, ◌∷◌, [], ℕ, List, Option};
ghost use Rattle.atomic_table.specs.Table.{State};
ghost use Rattle.turn_lock.specs.declared.view.View.{View};
ghost use Rattle.turn_lock.specs.Elements.{elements_of};
ghost use Rattle.turn_lock.specs.Laws.{AtMostOneIsOut, CountsTickets, HasOneList, AreDistinct};
ghost use Rattle.turn_lock.specs.Rule.{IsOrderly};

use crate::listed::Listed;

/// Holds in every state that meets the rule. At most one pass has a turn. The tickets drawn, less those served, are
/// as many as the passes that wait or have a turn. There is one list, of which each pass has seen a prefix. No two
/// passes share a number.
pub fn turns_are_single<T: Listed>()
    ensures single { (s : State (Option T) (View T.Element)) → IsOrderly T.list T.bears s → AtMostOneIsOut s }
    ensures tickets { (s : State (Option T) (View T.Element)) → IsOrderly T.list T.bears s → CountsTickets s }
    ensures list { (s : State (Option T) (View T.Element)) → IsOrderly T.list T.bears s → HasOneList T.list T.bears s }
    ensures apart { (s : State (Option T) (View T.Element)) → IsOrderly T.list T.bears s → AreDistinct s }
{}

/// The elements of a number are exactly those that carry it, in order.
pub fn elements_are_found<T: Listed>()
    ensures none { (n : ℕ) → elements_of T.bears n [] ≡ [] }
    ensures its { (n : ℕ) → (xs : List T.Element) → (x : T.Element) → T.bears x ≡ n
        → elements_of T.bears n (xs ++ x ∷ []) ≡ elements_of T.bears n xs ++ x ∷ [] }
    ensures others { (n : ℕ) → (xs : List T.Element) → (x : T.Element) → T.bears x ≢ n
        → elements_of T.bears n (xs ++ x ∷ []) ≡ elements_of T.bears n xs }
{}
