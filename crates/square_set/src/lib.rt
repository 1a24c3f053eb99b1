//! Sets of squares: bit s of a number stands for square s.
#![tactic(auto)]

ghost use Rattle.std.specs.Prelude.{◌≡◌, ◌<◌, ◌+◌, ℕ, true, false, ◌&&◌, ◌||◌, not, ◌==◌, IfSome, OnSome, IfNone};
ghost use Rattle.std.specs.Bool.{OnTrue, OnFalse};
ghost use Rattle.square_set.specs.Members as Members;

/// A set of squares, each named by its number, which is below 128.
#[derive(Clone, Copy, Default, PartialEq, Eq)]
pub struct Set(pub u128);

/// A change of the numbers of squares, the same for each square of a set.
#[derive(Clone, Copy, PartialEq, Eq)]
pub enum Shift {
    /// To the number that is greater by this.
    Up(u8),
    /// To the number that is less by this.
    Down(u8),
}

impl Shift {
    /// The square from which the shift leads to this one, where there is one.
    pub fn origin(self, to: u8) -> u8
        requires { Members.HasOrigin self 128 to }
        ensures { result ≡ Members.origin self to }
    {
        match self {
            Shift::Up(by) => to - by,
            Shift::Down(by) => to + by,
        }
    }

    /// The shift that leads back.
    pub fn back(self) -> Shift
        ensures is { result ≡ Members.back self }
        ensures as_long { Members.length_of result ≡ Members.length_of self }
    {
        match self {
            Shift::Up(by) => Shift::Down(by),
            Shift::Down(by) => Shift::Up(by),
        }
    }

    /// The shift made twice.
    pub fn twice(self) -> Shift
        requires { Members.length_of self < 64 }
        ensures is { result ≡ Members.twice self }
        ensures short { Members.length_of result < 128 }
    {
        match self {
            Shift::Up(by) => Shift::Up(by + by),
            Shift::Down(by) => Shift::Down(by + by),
        }
    }
}

/// The set without a square.
pub const EMPTY: Set = Set(0);

/// The set of every square.
pub const ALL: Set = Set(u128::MAX);

/// The squares of the largest board.
pub const BOARD: Set = Set((1 << 120) - 1);

impl Set {
    /// Whether the square is in the set.
    pub fn has(self, square: u8) -> bool
        requires { square < 128 }
        ensures { result ≡ Members.has self square }
    {
        (self.0 >> square) & 1 == 1
    }

    /// The set with the square.
    pub fn with(self, square: u8) -> Set
        requires { square < 128 }
        ensures { Members.IsWith self square result }
    {
        Set(self.0 | 1 << square)
    }

    /// The set without the square.
    pub fn without(self, square: u8) -> Set
        requires { square < 128 }
        ensures { Members.IsWithout self square result }
    {
        Set(self.0 & !(1 << square))
    }

    /// The squares that both sets have.
    pub fn and(self, other: Set) -> Set
        ensures { (s : ℕ) → Members.has result s ≡ (Members.has self s && Members.has other s) }
    {
        Set(self.0 & other.0)
    }

    /// The squares that one of the sets has, or both.
    pub fn or(self, other: Set) -> Set
        ensures { (s : ℕ) → Members.has result s ≡ (Members.has self s || Members.has other s) }
    {
        Set(self.0 | other.0)
    }

    /// The squares of this set that the other has not.
    pub fn minus(self, other: Set) -> Set
        ensures { (s : ℕ) → Members.has result s ≡ (Members.has self s && not (Members.has other s)) }
    {
        Set(self.0 & !other.0)
    }

    /// The squares below 128 to which the shift leads from those of the set.
    pub fn shifted(self, shift: Shift) -> Set
        requires { Members.length_of shift < 128 }
        ensures { (t : ℕ) → t < 128 → Members.has result t ≡ Members.is_led shift self t }
    {
        match shift {
            Shift::Up(by) => Set(self.0 << by),
            Shift::Down(by) => Set(self.0 >> by),
        }
    }

    /// Whether the set has no square.
    pub fn is_empty(self) -> bool
        ensures empty { OnTrue result ((s : ℕ) → Members.has self s ≡ false) }
        ensures not_empty { OnFalse result (0 < Members.size self) }
    {
        self.0 == 0
    }

    /// The square of the lowest number, or None where the set is empty.
    pub fn first(self) -> Option<u8>
        ensures some { IfSome result (λ square. Members.IsFirst self square) }
        ensures none { IfNone result ((s : ℕ) → Members.has self s ≡ false) }
    {
        if self.0 == 0 {
            None
        } else {
            Some(self.0.trailing_zeros() as u8)
        }
    }

    /// The set without its square of the lowest number. To take 1 off turns the lowest bit and the bits below it, and
    /// no other.
    fn without_first(self) -> Set
        ensures { (first : ℕ) → Members.IsFirst self first → Members.IsWithout self first result }
    {
        Set(self.0 & self.0.wrapping_sub(1))
    }

    /// Takes the square of the lowest number out of the set. Where the set is empty it stays so, and the answer is
    /// None.
    pub fn take_first(&mut self) -> Option<u8>
        ensures some { IfSome result (λ square. Members.IsFirst self.old square) }
        ensures rest { IfSome result (λ square. Members.IsWithout self.old square self.new) }
        ensures fewer { OnSome result (Members.size self.new + 1 ≡ Members.size self.old) }
        ensures none { IfNone result ((s : ℕ) → Members.has self.old s ≡ false) }
        ensures kept { IfNone result (self.new ≡ self.old) }
    {
        let first = self.first()?;
        *self = self.without_first();
        Some(first)
    }

    /// How many squares the set has.
    pub fn count(self) -> u32
        ensures { result ≡ Members.size self }
    {
        self.0.count_ones()
    }

    /// The squares below 128 before which the set has none, in the order of rising or of falling numbers: those up to
    /// the first of the set, and all where it is empty.
    pub fn cover(self, rising: bool) -> Set
        ensures { (s : ℕ) → s < 128 → Members.has result s ≡ (Members.before rising (Members.has self) s == 0) }
    {
        if rising {
            self.up_to_first()
        } else {
            self.from_last()
        }
    }

    /// The squares with no lower one in the set. To take 1 off turns the lowest bit and the bits below it, and no
    /// other.
    fn up_to_first(self) -> Set
        ensures { (s : ℕ) → s < 128 → Members.has result s ≡ (Members.before true (Members.has self) s == 0) }
    {
        Set(self.0 ^ self.0.wrapping_sub(1))
    }

    /// The squares with no higher one in the set. A bit 0 that is set besides changes nothing: no square is below it.
    fn from_last(self) -> Set
        ensures { (s : ℕ) → s < 128 → Members.has result s ≡ (Members.before false (Members.has self) s == 0) }
    {
        Set(u128::MAX << (127 - (self.0 | 1).leading_zeros()))
    }
}
