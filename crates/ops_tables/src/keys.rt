ghost use Rattle.std.specs.Prelude.{◌≡◌, ◌==◌, ◌&&◌, [], length, refl};
ghost use Rattle.std.specs.Str.{bytes_eq};
ghost use Rattle.ops_tables.specs.Grouped as spec;
ghost use Rattle.ops_tables.specs.Keys as keys;
ghost use Rattle.ops_tables.specs.Limits as limits;
ghost use Rattle.ops_tables.specs.SameGroup as same;
ghost use Rattle.ops_tables.specs.Tables.{is_station, is_pair};

use crate::grouped::{GroupName, Keyed, Row, group_name};
use crate::{
    Actor, Airport, AlternateRow, Approach, CaptainHours, Distance, ItemPair, MelRow, Route, Tail,
    TypeRow, Use,
};

impl Row<48> for Airport {
    ghost name = { λ r. spec.group_name r.station [] [] };

    ghost is_same_key = { keys.is_same_airport };

    ghost Fits = { limits.FitsAirport };

    ghost limit = { 5_000 };

    ghost same_group = { λ a b h. same.one_part b.station a.station h };

    ghost bounded = { refl };

    ghost short = { refl };

    fn group_name(&self) -> GroupName {
        group_name(&self.station.bytes(), b"", b"")
    }

    fn has_key_of(&self, other: &Airport) -> bool {
        other.is_of(&self.station.bytes(), b"", b"")
    }
}

impl Keyed for Airport {
    ghost is_of = { λ a b c r. (length b == 0) && (length c == 0) && is_station r.station a };

    ghost in_group = { λ a b c r h. same.by_one a b c r.station h };

    fn is_of(&self, first: &[u8], second: &[u8], third: &[u8]) -> bool {
        second.is_empty() && third.is_empty() && self.station.bytes().as_slice() == first
    }
}

impl Row<4> for Approach {
    ghost name = { λ r. r.station };

    ghost is_same_key = { keys.is_same_approach };

    ghost Fits = { limits.FitsApproach };

    ghost limit = { 50_000 };

    ghost same_group = { λ a b h. same.first_of_two (bytes_eq b.station a.station) (bytes_eq b.name a.name) h };

    ghost bounded = { refl };

    ghost short = { refl };

    fn group_name(&self) -> [u8; 4] {
        self.station.bytes()
    }

    fn has_key_of(&self, other: &Approach) -> bool {
        other.station.bytes() == self.station.bytes() && other.name.bytes() == self.name.bytes()
    }
}

impl Row<4> for AlternateRow {
    ghost name = { λ r. r.station };

    ghost is_same_key = { keys.is_same_alternate };

    ghost Fits = { limits.FitsAlternate };

    ghost limit = { 20_000 };

    ghost same_group = { λ a b h. same.first_of_three (bytes_eq b.station a.station) (b.ceiling == a.ceiling)
        (b.vis16 == a.vis16) h };

    ghost bounded = { refl };

    ghost short = { refl };

    fn group_name(&self) -> [u8; 4] {
        self.station.bytes()
    }

    fn has_key_of(&self, other: &AlternateRow) -> bool {
        other.station.bytes() == self.station.bytes()
            && other.ceiling == self.ceiling
            && other.vis16 == self.vis16
    }
}

impl Row<48> for TypeRow {
    ghost name = { λ r. spec.group_name r.kind [] [] };

    ghost is_same_key = { keys.is_same_type };

    ghost Fits = { limits.FitsType };

    ghost limit = { 200 };

    ghost same_group = { λ a b h. same.one_part b.kind a.kind h };

    ghost bounded = { refl };

    ghost short = { refl };

    fn group_name(&self) -> GroupName {
        group_name(self.kind.bytes(), b"", b"")
    }

    fn has_key_of(&self, other: &TypeRow) -> bool {
        other.is_of(self.kind.bytes(), b"", b"")
    }
}

impl Keyed for TypeRow {
    ghost is_of = { λ a b c r. (length b == 0) && (length c == 0) && bytes_eq r.kind a };

    ghost in_group = { λ a b c r h. same.by_one a b c r.kind h };

    fn is_of(&self, first: &[u8], second: &[u8], third: &[u8]) -> bool {
        second.is_empty() && third.is_empty() && self.kind.bytes() == first
    }
}

impl Row<48> for Tail {
    ghost name = { λ r. spec.group_name r.tail [] [] };

    ghost is_same_key = { keys.is_same_tail };

    ghost Fits = { limits.FitsTail };

    ghost limit = { 5_000 };

    ghost same_group = { λ a b h. same.one_part b.tail a.tail h };

    ghost bounded = { refl };

    ghost short = { refl };

    fn group_name(&self) -> GroupName {
        group_name(self.tail.bytes(), b"", b"")
    }

    fn has_key_of(&self, other: &Tail) -> bool {
        other.is_of(self.tail.bytes(), b"", b"")
    }
}

impl Keyed for Tail {
    ghost is_of = { λ a b c r. (length b == 0) && (length c == 0) && bytes_eq r.tail a };

    ghost in_group = { λ a b c r h. same.by_one a b c r.tail h };

    fn is_of(&self, first: &[u8], second: &[u8], third: &[u8]) -> bool {
        second.is_empty() && third.is_empty() && self.tail.bytes() == first
    }
}

impl Row<48> for Use {
    ghost name = { λ r. spec.group_name r.kind r.station [] };

    ghost is_same_key = { keys.is_same_use };

    ghost Fits = { limits.FitsUse };

    ghost limit = { 200_000 };

    ghost same_group = { λ a b h. same.two_parts b.kind b.station a.kind a.station h };

    ghost bounded = { refl };

    ghost short = { refl };

    fn group_name(&self) -> GroupName {
        group_name(self.kind.bytes(), &self.station.bytes(), b"")
    }

    fn has_key_of(&self, other: &Use) -> bool {
        other.is_of(self.kind.bytes(), &self.station.bytes(), b"")
    }
}

impl Keyed for Use {
    ghost is_of = { λ a b c r. (length c == 0) && (bytes_eq r.kind a && is_station r.station b) };

    ghost in_group = { λ a b c r h. same.by_two a b c r.kind r.station h };

    fn is_of(&self, first: &[u8], second: &[u8], third: &[u8]) -> bool {
        third.is_empty() && self.kind.bytes() == first && self.station.bytes().as_slice() == second
    }
}

impl Row<48> for Distance {
    ghost name = { λ r. spec.group_name r.from r.to [] };

    ghost is_same_key = { keys.is_same_distance };

    ghost Fits = { limits.FitsDistance };

    ghost limit = { 200_000 };

    ghost same_group = { λ a b h. same.two_parts b.from b.to a.from a.to h };

    ghost bounded = { refl };

    ghost short = { refl };

    fn group_name(&self) -> GroupName {
        group_name(&self.from.bytes(), &self.to.bytes(), b"")
    }

    fn has_key_of(&self, other: &Distance) -> bool {
        other.is_of(&self.from.bytes(), &self.to.bytes(), b"")
    }
}

impl Keyed for Distance {
    ghost is_of = { λ a b c r. (length c == 0) && (is_station r.from a && is_station r.to b) };

    ghost in_group = { λ a b c r h. same.by_two a b c r.from r.to h };

    fn is_of(&self, first: &[u8], second: &[u8], third: &[u8]) -> bool {
        third.is_empty()
            && self.from.bytes().as_slice() == first
            && self.to.bytes().as_slice() == second
    }
}

impl Row<48> for Route {
    ghost name = { λ r. spec.group_name r.from r.to [] };

    ghost is_same_key = { keys.is_same_route };

    ghost Fits = { λ _. Unit {0} };

    ghost limit = { 50_000 };

    ghost same_group = { λ a b h. same.two_parts b.from b.to a.from a.to h };

    ghost bounded = { refl };

    ghost short = { refl };

    fn group_name(&self) -> GroupName {
        group_name(&self.from.bytes(), &self.to.bytes(), b"")
    }

    fn has_key_of(&self, other: &Route) -> bool {
        other.is_of(&self.from.bytes(), &self.to.bytes(), b"")
    }
}

impl Keyed for Route {
    ghost is_of = { λ a b c r. (length c == 0) && (is_station r.from a && is_station r.to b) };

    ghost in_group = { λ a b c r h. same.by_two a b c r.from r.to h };

    fn is_of(&self, first: &[u8], second: &[u8], third: &[u8]) -> bool {
        third.is_empty()
            && self.from.bytes().as_slice() == first
            && self.to.bytes().as_slice() == second
    }
}

impl Row<48> for MelRow {
    ghost name = { λ r. spec.group_name r.kind r.item [] };

    ghost is_same_key = { keys.is_same_item };

    ghost Fits = { limits.FitsItem };

    ghost limit = { 50_000 };

    ghost same_group = { λ a b h. same.two_parts b.kind b.item a.kind a.item h };

    ghost bounded = { refl };

    ghost short = { refl };

    fn group_name(&self) -> GroupName {
        group_name(self.kind.bytes(), self.item.bytes(), b"")
    }

    fn has_key_of(&self, other: &MelRow) -> bool {
        other.is_of(self.kind.bytes(), self.item.bytes(), b"")
    }
}

impl Keyed for MelRow {
    ghost is_of = { λ a b c r. (length c == 0) && (bytes_eq r.kind a && bytes_eq r.item b) };

    ghost in_group = { λ a b c r h. same.by_two a b c r.kind r.item h };

    fn is_of(&self, first: &[u8], second: &[u8], third: &[u8]) -> bool {
        third.is_empty() && self.kind.bytes() == first && self.item.bytes() == second
    }
}

impl Row<48> for ItemPair {
    ghost name = { λ r. spec.group_name r.kind r.item r.other };

    ghost is_same_key = { keys.is_same_pair };

    ghost Fits = { limits.FitsPair };

    ghost limit = { 50_000 };

    ghost same_group = { λ a b h. same.three_parts b.kind b.item b.other a.kind a.item a.other h };

    ghost bounded = { refl };

    ghost short = { refl };

    fn group_name(&self) -> GroupName {
        group_name(self.kind(), self.item(), self.other())
    }

    fn has_key_of(&self, other: &ItemPair) -> bool {
        other.is_of(self.kind(), self.item(), self.other())
    }
}

impl Keyed for ItemPair {
    ghost is_of = { λ a b c r. is_pair r a b c };

    ghost in_group = { λ a b c r h. same.three_parts r.kind r.item r.other a b c h };

    fn is_of(&self, first: &[u8], second: &[u8], third: &[u8]) -> bool {
        self.kind() == first && self.item() == second && self.other() == third
    }
}

impl Row<48> for Actor {
    ghost name = { λ r. spec.group_name r.name [] [] };

    ghost is_same_key = { keys.is_same_actor };

    ghost Fits = { limits.FitsActor };

    ghost limit = { 5_000 };

    ghost same_group = { λ a b h. same.one_part b.name a.name h };

    ghost bounded = { refl };

    ghost short = { refl };

    fn group_name(&self) -> GroupName {
        group_name(self.name(), b"", b"")
    }

    fn has_key_of(&self, other: &Actor) -> bool {
        other.is_of(self.name(), b"", b"")
    }
}

impl Keyed for Actor {
    ghost is_of = { λ a b c r. (length b == 0) && (length c == 0) && bytes_eq r.name a };

    ghost in_group = { λ a b c r h. same.by_one a b c r.name h };

    fn is_of(&self, first: &[u8], second: &[u8], third: &[u8]) -> bool {
        second.is_empty() && third.is_empty() && self.name() == first
    }
}

impl Row<48> for CaptainHours {
    ghost name = { λ r. spec.group_name r.captain r.kind [] };

    ghost is_same_key = { keys.is_same_hours };

    ghost Fits = { limits.FitsHours };

    ghost limit = { 20_000 };

    ghost same_group = { λ a b h. same.two_parts b.captain b.kind a.captain a.kind h };

    ghost bounded = { refl };

    ghost short = { refl };

    fn group_name(&self) -> GroupName {
        group_name(self.captain(), self.kind(), b"")
    }

    fn has_key_of(&self, other: &CaptainHours) -> bool {
        other.is_of(self.captain(), self.kind(), b"")
    }
}

impl Keyed for CaptainHours {
    ghost is_of = { λ a b c r. (length c == 0) && (bytes_eq r.captain a && bytes_eq r.kind b) };

    ghost in_group = { λ a b c r h. same.by_two a b c r.captain r.kind h };

    fn is_of(&self, first: &[u8], second: &[u8], third: &[u8]) -> bool {
        third.is_empty() && self.captain() == first && self.kind() == second
    }
}
