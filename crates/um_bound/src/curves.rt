//! Curves: what a column with an arc costs by its value, and where that is least.

ghost use Rattle.std.specs.Prelude.{◌≡◌, ◌-◌, ◌*◌, ◌^◌, ◌*ℤ◌, ◌≤ℤ◌, ◌<ℤ◌, ◌≤◌, pos, unsigned_abs};
ghost use Rattle.um_model.specs.WellFormed.{IsWithin};
ghost use Rattle.um_model.specs.LeafValue as LeafValue;
ghost use Rattle.um_model.specs.declared.limits.TheConstants.{MOST_COEFFICIENT, MOST_ARC, MOST_ARC_END, MULTIPLIER_SIZE};
ghost use Rattle.um_bound.specs.Curves.{IsSmallCurve};

use um_num::floor_div;

/// What a column with an arc costs once the rows are paid for, times the objective's multiplier: at a value
/// of `x` thousandths it is `1000 * linear * x + square * x * x`, in millionths.
#[derive(Drop)]
pub(crate) struct Curve {
    pub(crate) linear: i128,
    pub(crate) square: i128,
}

impl Curve {
    /// What the curve's linear part is at a value in thousandths.
    fn linear_at(&self, x: i128) -> i128
        requires small { IsSmallCurve self.now }
        requires value { IsWithin MOST_ARC_END x }
        ensures value { result ≡ pos 1000 *ℤ self.now.linear *ℤ x }
        ensures size { IsWithin (1000 * (513 * (MULTIPLIER_SIZE * MOST_COEFFICIENT)) * MOST_ARC_END) result }
    {
        1000 * self.linear * x
    }

    /// What the curve's square part is at a value in thousandths.
    fn square_at(&self, x: i128) -> i128
        requires small { IsSmallCurve self.now }
        requires value { IsWithin MOST_ARC_END x }
        ensures value { result ≡ self.now.square *ℤ (x *ℤ x) }
        ensures size { IsWithin (MULTIPLIER_SIZE * MOST_ARC * (MOST_ARC_END * MOST_ARC_END)) result }
    {
        self.square * (x * x)
    }

    /// The curve at a value in thousandths.
    fn at(&self, x: i128) -> i128
        requires small { IsSmallCurve self.now }
        requires value { IsWithin MOST_ARC_END x }
        ensures value { result ≡ LeafValue.curve self.now.linear self.now.square x }
        ensures size { IsWithin (2 ^ 114 - 2 ^ 63) result }
    {
        self.linear_at(x) + self.square_at(x)
    }

    /// Half of the curve's slope at a value in thousandths.
    fn half_slope(&self, x: i128) -> i128
        requires small { IsSmallCurve self.now }
        requires value { IsWithin MOST_ARC_END x }
        ensures value { result ≡ LeafValue.half_slope self.now.linear self.now.square x }
    {
        500 * self.linear + self.square * x
    }

    /// The whole number of thousandths that is nearest to the vertex of a curve that opens upwards and
    /// whose vertex lies between these ends; of two the lower.
    fn nearest(&self, low: i128, high: i128) -> i128
        requires small { IsSmallCurve self.now }
        requires low { IsWithin MOST_ARC_END low }
        requires high { IsWithin MOST_ARC_END high }
        requires upwards { pos 0 <ℤ self.now.square }
        requires falls { LeafValue.half_slope self.now.linear self.now.square low <ℤ pos 0 }
        requires rises { pos 0 <ℤ LeafValue.half_slope self.now.linear self.now.square high }
        ensures value { result ≡ LeafValue.nearest self.now.linear (unsigned_abs self.now.square) }
        ensures size { IsWithin MOST_ARC_END result }
    {
        -floor_div(1000 * self.linear + self.square, 2 * self.square)
    }

    /// How far the curve may fall below its value at the whole number nearest to its vertex, where half of
    /// its slope is this.
    fn vertex_margin(&self, half_slope: i128) -> i128
        requires small { IsSmallCurve self.now }
        requires upwards { pos 0 <ℤ self.now.square }
        ensures value { result ≡ LeafValue.vertex_margin half_slope self.now.square }
        ensures size { IsWithin (2 ^ 63) result }
    {
        if half_slope == 0 {
            0
        } else {
            -floor_div(-self.square, 4)
        }
    }

    /// A number that the curve does not go below and that it is near to, where its vertex lies between these
    /// ends.
    fn near_vertex(&self, low: i128, high: i128) -> i128
        requires small { IsSmallCurve self.now }
        requires low { IsWithin MOST_ARC_END low }
        requires high { IsWithin MOST_ARC_END high }
        requires upwards { pos 0 <ℤ self.now.square }
        requires falls { LeafValue.half_slope self.now.linear self.now.square low <ℤ pos 0 }
        requires rises { pos 0 <ℤ LeafValue.half_slope self.now.linear self.now.square high }
        ensures value { result ≡ LeafValue.near_vertex self.now.linear self.now.square (LeafValue.nearest self.now.linear (unsigned_abs self.now.square)) }
        ensures size { IsWithin (2 ^ 114) result }
    {
        let nearest = self.nearest(low, high);
        self.at(nearest) - self.vertex_margin(self.half_slope(nearest))
    }

    /// The least of the curve between two ends, in thousandths; near the vertex a number that is below it by
    /// at most a quarter of the square.
    pub(crate) fn least(&self, low: i128, high: i128) -> i128
        requires small { IsSmallCurve self.now }
        requires low { IsWithin MOST_ARC_END low }
        requires high { IsWithin MOST_ARC_END high }
        ensures value { result ≡ LeafValue.curve_least self.now.linear self.now.square low high }
        ensures size { IsWithin (2 ^ 114) result }
    {
        if self.square <= 0 {
            self.at(low).min(self.at(high))
        } else if self.half_slope(low) >= 0 {
            self.at(low)
        } else if self.half_slope(high) <= 0 {
            self.at(high)
        } else {
            self.near_vertex(low, high)
        }
    }
}
