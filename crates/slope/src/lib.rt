// `find_best_slope` of src/index/v3.rs, over values taken from a lent area.
#![tactic(auto)]

ghost use Rattle.std.specs.Prelude.{◌≡◌, ◌+◌, ◌-◌, ◌*◌, ◌/◌, ◌%◌, ◌^◌, ◌≤◌, ◌<◌, get_or};
ghost use Rattle.slope.specs.Column.{ColumnOk};
ghost use Rattle.slope.specs.Extremes.{New};

// A point with its slope.
#[derive(Clone, Copy)]
struct Point {
    i: u64,
    v: u64,
    slope: u64,
}

impl Point {
    fn new(i: u64, v: u64) -> Point
        requires { 0 < i }
        ensures { New i v result }
    {
        Point {
            i,
            v,
            slope: v / i % 0x1_0000_0000,
        }
    }

    // The point (i, v). Slopes that are s lie from s × i on, below s × i + i: there no division is needed.
    fn near(i: u64, v: u64, s: u64) -> Point
        requires { (0 < i) × (i ≤ 2 ^ 31) × (s < 2 ^ 32) }
        ensures { New i v result }
    {
        let at = s * i;
        if (at..at + i).contains(&v) {
            return Point { i, v, slope: s };
        }
        Point::new(i, v)
    }
}

// The lowest and the highest of the points before place j; a tie goes to the later one. That they are a column's stands in clauses: a
// ghost field that said so would need the column in each of them.
#[derive(Clone, Copy)]
struct Extremes {
    low: Point,
    high: Point,
    j: usize,
}

// The slope between the lowest and the highest point, rounded.
fn between(low: Point, high: Point) -> u32
    requires { (0 < low.i) × (low.i + high.i < 2 ^ 32) × (low.v < 2 ^ 62) × (high.v < 2 ^ 62) }
    ensures { result ≡ (low.v + high.v + (low.i + high.i) / 2) / (low.i + high.i) % 2 ^ 32 }
{
    let denominator = low.i + high.i;
    ((low.v + high.v + denominator / 2) / denominator % 0x1_0000_0000) as u32
}

// A slope, and the width that values need with it.
#[derive(Clone, Copy)]
pub struct Slope {
    pub slope: u32,
    pub nbits: u8,
}

// Methods and no From: the way back asks for a number below 2^40, which a From can't, and `u64::from` wouldn't say which number.
impl Slope {
    // Both as one number of 40 bits.
    pub fn packed(self) -> u64
        ensures { result ≡ 256 * self.slope + self.nbits }
    {
        256 * u64::from(self.slope) + u64::from(self.nbits)
    }

    // Both back from it.
    pub fn unpacked(number: u64) -> Slope
        requires { number < 2 ^ 40 }
        ensures { (result.slope ≡ number / 256) × (result.nbits ≡ number % 256) }
    {
        Slope {
            slope: (number / 256) as u32,
            nbits: (number % 256) as u8,
        }
    }
}

// Values that stand in a lent area, since there is no heap for a list of them: `count`, every stride-th from place `at` on, less the
// base.
#[derive(Clone, Copy)]
pub struct Column<'a> {
    pub area: &'a [u64],
    pub at: usize,
    pub stride: usize,
    pub base: u64,
    pub count: usize,
    pub ghost ok: { ColumnOk area.now at stride base count },
}

impl<'a> Column<'a> {
    ghost use Rattle.slope.specs.Slope.{best_slope, max_derivation, width_of};
    ghost use Rattle.slope.specs.Values.{values};
    ghost use Rattle.slope.specs.ExtremesOf.{ExtremesOf};

    // Value j.
    fn value(&self, j: usize) -> u64
        requires { j < self.now.count }
        ensures { (result ≡ get_or self.now.area.now (self.now.at + self.now.stride * j) 0 - self.now.base) × (result < 2 ^ 62) }
    {
        self.area[self.at + self.stride * j] - self.base
    }

    // Up to the first point whose slope takes more than 32 bits; it lies above the highest. Most of the others need no division. A loop:
    // try_fold would give the stop as Err and the end as Ok of the same Extremes, to be made one again, and would make all of them anew
    // in a turn that changes two numbers.
    fn uncut_extremes(&self, start: Extremes) -> Extremes
        requires { ExtremesOf self.now start.low start.high start.j }
        ensures { ExtremesOf self.now result.low result.high result.j }
    {
        let mut low = start.low;
        let mut high = start.high;
        for j in start.j..self.count {
            let v = self.value(j);
            let i = j as u64 + 1;
            let lo = low.slope * i;
            if v < lo {
                low = Point::new(i, v);
            } else if v - lo < i {
                if low.slope == high.slope {
                    high.i = i;
                    high.v = v;
                }
                low.i = i;
                low.v = v;
            } else if v >= high.slope * i {
                if i <= v / 0x1_0000_0000 {
                    return Extremes { low, high, j };
                }
                high = Point::near(i, v, high.slope);
            }
        }
        Extremes {
            low,
            high,
            j: self.count,
        }
    }

    // Up to the end, with each slope worked out and cut to 32 bits.
    fn cut_extremes(&self, start: Extremes) -> Extremes
        requires { ExtremesOf self.now start.low start.high start.j }
        ensures { ExtremesOf self.now result.low result.high result.j × (self.now.count ≤ result.j) }
    {
        (start.j..self.count).fold(start, |kept: Extremes, j| {
            let later = Point::new(j as u64 + 1, self.value(j));
            Extremes {
                low: if later.slope <= kept.low.slope {
                    later
                } else {
                    kept.low
                },
                high: if later.slope >= kept.high.slope {
                    later
                } else {
                    kept.high
                },
                j: j + 1,
            }
        })
    }

    // The slope of the values.
    pub fn best_slope(&self) -> u32
        ensures { result ≡ best_slope (values self.now) }
    {
        if self.count == 0 {
            return 0;
        }
        let first = Point::new(1, self.value(0));
        let start = Extremes {
            low: first,
            high: first,
            j: 1,
        };
        let all = self.cut_extremes(self.uncut_extremes(start));
        between(all.low, all.high)
    }

    // The largest |v - slope × i|. Not inlined, so that its loop has the registers. The larger less the smaller: of abs_diff's two
    // differences the compiler makes sums that take three tenths more time a value.
    #[inline(never)]
    pub fn max_derivation(&self, slope: u32) -> u64
        ensures { result ≡ max_derivation slope 1 (values self.now) }
    {
        (0..self.count).fold(0, |largest: u64, j| {
            let value = self.value(j);
            let predicted = u64::from(slope) * (j as u64 + 1);
            largest.max(value.max(predicted) - value.min(predicted))
        })
    }

    // The width that the values need with this slope.
    pub fn width_of(&self, slope: u32) -> u8
        ensures { result ≡ width_of slope (values self.now) }
    {
        bitpacker::compute_num_bits(self.max_derivation(slope)) + 1
    }

    // The slope of the values and the width that they need with it.
    pub fn find_best_slope(&self) -> Slope
        ensures { (result.slope ≡ best_slope (values self.now))
            × (result.nbits ≡ width_of (best_slope (values self.now)) (values self.now)) }
    {
        let slope = self.best_slope();
        Slope {
            slope,
            nbits: self.width_of(slope),
        }
    }
}
