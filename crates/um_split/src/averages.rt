//! The average weight of a set's members, and where it lies.

ghost use Rattle.std.specs.Prelude.{◌≡◌, ◌<◌, ◌≤◌, ◌^◌, pos, ◌*ℤ◌, ◌≤ℤ◌, ◌<ℤ◌, length, All, AllPairs, IsTrue, ◌↔◌};
ghost use Rattle.um_laws.specs.Sums.{sum_of, dot};
ghost use Rattle.um_model.specs.WellFormed.{IsWithin};
ghost use Rattle.um_model.specs.Feasible.{part};
ghost use Rattle.um_model.specs.declared.deck.Member.{Member};
ghost use Rattle.um_model.specs.declared.limits.TheConstants.{MOST_WEIGHT};
ghost use Rattle.um_point.specs.MemberParts.{parts_of};
ghost use Rattle.um_point.specs.SmallPoints.{FitsIn36Bits};
ghost use Rattle.um_split.specs.Stretches.{IsStretch};
ghost use Rattle.um_split.specs.LastReached.{weight_at, IsLastReached};

use um_model::Member;

/// An average weight: `weighted / total`, which is never divided out.
#[derive(Clone, Copy)]
pub(crate) struct Average {
    /// The sum of weight times part.
    pub weighted: i128,
    /// The sum of the parts.
    pub total: i128,
}

/// A member's part.
fn part_of(member: &Member, parts: &[i128]) -> i128
    requires inside { member.now.column < length parts.now }
    requires small { All FitsIn36Bits parts.now }
    ensures value { result ≡ part parts.now member.now.column }
    ensures size { IsWithin (2 ^ 36) result }
{
    parts[member.column as usize]
}

/// A member's weight times its part.
fn weighted_part(member: &Member, parts: &[i128]) -> i128
    requires inside { member.now.column < length parts.now }
    requires small { All FitsIn36Bits parts.now }
    requires weight { IsWithin MOST_WEIGHT member.now.weight }
    ensures value { result ≡ member.now.weight *ℤ part parts.now member.now.column }
    ensures size { IsWithin (2 ^ 87) result }
{
    i128::from(member.weight) * part_of(member, parts)
}

/// The average weight of the members, each weighed by its part.
pub(crate) fn average_of(members: &[Member], parts: &[i128], start: usize, end: usize) -> Average
    requires { IsStretch members.now parts.now start end }
    ensures weighted { result.weighted ≡ dot (λ (m : Member). m.weight) members.now (parts_of parts.now members.now) }
    ensures total { result.total ≡ sum_of (λ x. x) (parts_of parts.now members.now) }
    ensures total_size { IsWithin (2 ^ 48) result.total }
{
    let mut weighted = 0;
    let mut total = 0;
    for position in start..end {
        let member = &members[position];
        weighted += weighted_part(member, parts);
        total += part_of(member, parts);
    }
    Average { weighted, total }
}

impl Average {
    /// A weight times the total.
    fn times_total(&self, weight: i64) -> i128
        requires weight { IsWithin MOST_WEIGHT weight }
        requires total { IsWithin (2 ^ 48) self.now.total }
        ensures { result ≡ weight *ℤ self.now.total }
    {
        i128::from(weight) * self.total
    }

    /// Whether a weight is at most the average.
    fn reaches(&self, weight: i64) -> bool
        requires weight { IsWithin MOST_WEIGHT weight }
        requires total { IsWithin (2 ^ 48) self.now.total }
        ensures { IsTrue result ↔ ((weight *ℤ self.now.total) ≤ℤ self.now.weighted) }
    {
        self.times_total(weight) <= self.weighted
    }

    /// The last position whose weight is at most the average: that of `first` is, and that of `last` is not.
    pub(crate) fn last_reached(&self, members: &[Member], first: usize, last: usize) -> usize
        requires rise { AllPairs (λ (a : Member) (b : Member). a.weight <ℤ b.weight) members.now }
        requires weights { All (λ (m : Member). IsWithin MOST_WEIGHT m.weight) members.now }
        requires order { first < last }
        requires inside { last < length members.now }
        requires total { pos 0 ≤ℤ self.now.total }
        requires total_size { IsWithin (2 ^ 48) self.now.total }
        requires reached { (weight_at members.now first *ℤ self.now.total) ≤ℤ self.now.weighted }
        requires beyond { self.now.weighted <ℤ (weight_at members.now last *ℤ self.now.total) }
        ensures { IsLastReached members.now self.now.weighted self.now.total result }
    {
        for position in first + 1..last {
            if !self.reaches(members[position].weight) {
                return position - 1;
            }
        }
        last - 1
    }
}
