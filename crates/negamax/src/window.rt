//! Windows of a search.
ghost use Rattle.std.specs.Prelude.{◌≡◌, pos, negsuc, neg_ℤ, ◌+ℤ◌, ◌<ℤ◌, ◌≤ℤ◌};
ghost use Rattle.std.specs.Int.{int_max, int_min};
ghost use Rattle.evaluation.specs.Laws.{Within};

/// Below every value.
pub(crate) const WORST: i32 = -32_001;

/// Above every value.
pub(crate) const BEST: i32 = 32_001;

/// What is asked of a value: the value itself where it is above `alpha` and below `beta`, and else only on which side
/// of them it is.
#[derive(Clone, Copy)]
pub struct Window {
    pub alpha: i32,
    pub beta: i32,
    ghost floor: { negsuc 32001 ≤ℤ alpha },
    ghost wide: { alpha <ℤ beta },
    ghost roof: { beta ≤ℤ pos 32002 },
}

impl Window {
    /// The window in which every value is exact.
    pub fn open() -> Window
        ensures alpha { result.alpha ≡ negsuc 32001 }
        ensures beta { result.beta ≡ pos 32002 }
    {
        Window {
            alpha: WORST - 1,
            beta: BEST + 1,
        }
    }

    /// The window in which only values above the floor and below the roof are exact. A number that no window can have
    /// is taken for the nearest that one can have.
    pub fn between(floor: i32, roof: i32) -> Window
        ensures alpha { result.alpha ≡ int_max (negsuc 32001) (int_min (pos 32001) floor) }
        ensures beta { result.beta ≡ int_max (result.alpha +ℤ pos 1) (int_min (pos 32002) roof) }
    {
        let alpha = floor.clamp(WORST - 1, BEST);
        Window {
            alpha,
            beta: roof.clamp(alpha + 1, BEST + 1),
        }
    }

    /// The same window, seen from the other side.
    pub fn turned(self) -> Window
        ensures alpha { result.alpha ≡ neg_ℤ self.beta }
        ensures beta { result.beta ≡ neg_ℤ self.alpha }
    {
        Window {
            alpha: -self.beta,
            beta: -self.alpha,
        }
    }

    /// What is left of the window, where the best score so far is this one.
    pub fn above(self, best: i32) -> Window
        requires within { Within best }
        requires low { best <ℤ self.beta }
        ensures alpha { result.alpha ≡ int_max self.alpha best }
        ensures beta { result.beta ≡ self.beta }
    {
        Window {
            alpha: self.alpha.max(best),
            beta: self.beta,
        }
    }

    /// The null window: it asks only whether a value is above what the window has for its floor.
    pub fn null(self) -> Window
        ensures alpha { result.alpha ≡ self.alpha }
        ensures beta { result.beta ≡ self.alpha +ℤ pos 1 }
    {
        Window {
            alpha: self.alpha,
            beta: self.alpha + 1,
        }
    }

    /// The window in which the other side answers a move, where the best score so far is this one.
    pub fn of_reply(self, best: i32) -> Window
        requires within { Within best }
        requires low { best <ℤ self.beta }
        ensures alpha { result.alpha ≡ neg_ℤ self.beta }
        ensures beta { result.beta ≡ neg_ℤ (int_max self.alpha best) }
    {
        Window {
            alpha: -self.beta,
            beta: -self.alpha.max(best),
        }
    }
}

/// The greater of the best score so far and of one more.
pub(crate) fn greater(best: i32, score: i32) -> i32
    requires best { Within best }
    requires score { Within score }
    ensures is { result ≡ int_max best score }
    ensures within { Within result }
{
    best.max(score)
}

/// The best score, where the other side answers one more move by this.
pub(crate) fn raised(best: i32, answered: i32) -> i32
    requires best { Within best }
    requires answered { Within answered }
    ensures is { result ≡ int_max best (neg_ℤ answered) }
    ensures within { Within result }
{
    best.max(-answered)
}
