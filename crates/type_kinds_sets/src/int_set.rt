ghost use Rattle.std.specs.Prelude.{◌≡◌, [], ◌↔◌, ◌&&◌, ◌<◌, ◌≤◌, ℤ, IsTrue, IfSome, IfNone, length, filter, ◌∷◌, ◌++◌};
ghost use Rattle.std.specs.List.{list_all, insert};
ghost use Rattle.std.specs.Option.{option_copied};
ghost use Rattle.std.specs.Ordering.{int_cmp};
ghost use Rattle.type_kinds_sets.specs.Ascending.{is_ascending, has_item, placed, merged};
ghost use Rattle.type_kinds_sets.specs.Ends.{in_range, is_range};
ghost use Rattle.type_kinds_sets.specs.Numbers.{Numbers, has, Below, none, is_narrow, are_listed, listed, range, meet, join};
ghost use Rattle.type_kinds_sets.specs.Numbers.{hull, lowest, highest, low_end, high_end, is_none, members_of, ends_of};

use crate::ends::{High, Low};
use crate::limits::MAX_MEMBERS;
use arrayvec::ArrayVec;
use std::marker::Model;
use type_kinds::MAGNITUDE_LIMIT;

// The numbers, strictly ascending, or the ends of an interval that isn't empty.
#[derive(Debug, Drop)]
enum Kind {
    Listed(ArrayVec<i128, MAX_MEMBERS>),
    Between(Low, High),
}

/// A set of integers: at most `MAX_MEMBERS`, each of magnitude below `MAGNITUDE_LIMIT`, or an
/// interval. None of its calls takes memory.
#[derive(Debug, Drop)]
pub struct IntSet {
    kind: Kind,
}

impl Model for IntSet {
    ghost use Rattle.type_kinds_sets.specs.Numbers.{Numbers, numbers_code};
    ghost use Rattle.type_kinds_sets.specs.steps.IntKinds.{numbers_of, IsKept};

    ghost Value = { Numbers };

    ghost coded = { numbers_code };

    ghost view = { λ set. numbers_of set.kind };

    ghost invariant = { λ set. IsKept set.kind };
}

impl IntSet {
    /// No integer.
    #[tactic(auto, using(crate::proofs::IntKinds::kinds))]
    pub fn none() -> IntSet
        ensures { result ≡ none }
    {
        IntSet {
            kind: Kind::Listed(ArrayVec::new()),
        }
    }

    /// The set of one integer.
    #[tactic(auto, using(crate::proofs::IntKinds::ones))]
    pub fn one(n: i128) -> IntSet
        requires { IsTrue (is_narrow n) }
        ensures value { result ≡ listed (n ∷ []) }
        ensures only { (m : ℤ) → IsTrue (has result m) ↔ (m ≡ n) }
    {
        let mut numbers = ArrayVec::new();
        numbers.push(n);
        IntSet {
            kind: Kind::Listed(numbers),
        }
    }

    /// Whether a set can list the integer: its magnitude is below `MAGNITUDE_LIMIT`.
    pub fn can_hold(n: i128) -> bool
        ensures { result ≡ is_narrow n }
    {
        n.unsigned_abs() < MAGNITUDE_LIMIT
    }

    /// Whether a set can list the integers: they ascend strictly, are at most `MAX_MEMBERS`, and
    /// each is of magnitude below `MAGNITUDE_LIMIT`.
    pub fn can_list(numbers: &[i128]) -> bool
        ensures { result ≡ are_listed numbers.now }
    {
        if numbers.len() > MAX_MEMBERS {
            return false;
        }
        ascend(numbers) && all_narrow(numbers)
    }

    /// The set of the integers, which a set has to be able to list.
    #[tactic(auto, using(crate::proofs::IntKinds::kinds))]
    pub fn listed(numbers: &[i128]) -> IntSet
        requires { IsTrue (are_listed numbers.now) }
        ensures value { result ≡ listed numbers.now }
        ensures only { (n : ℤ) → has result n ≡ has_item int_cmp numbers.now n }
    {
        IntSet {
            kind: Kind::Listed(copied(numbers)),
        }
    }

    /// Whether there is an integer from the one end to the other.
    pub fn is_range(low: Low, high: High) -> bool
        ensures { result ≡ is_range low high }
    {
        match (low, high) {
            (Low::Min, _) => true,
            (_, High::MinusOne) => false,
            _ => true,
        }
    }

    /// The integers from the one end to the other, of which there has to be one.
    #[tactic(auto, using(crate::proofs::IntKinds::kinds))]
    pub fn range(low: Low, high: High) -> IntSet
        requires { IsTrue (is_range low high) }
        ensures value { result ≡ range low high }
        ensures between { (n : ℤ) → has result n ≡ in_range low high n }
    {
        IntSet {
            kind: Kind::Between(low, high),
        }
    }

    /// A second set of the same integers.
    pub fn copy(&self) -> IntSet
        ensures { result ≡ self.now }
    {
        let kind = match &self.kind {
            Kind::Listed(numbers) => Kind::Listed(copied(numbers.as_slice())),
            Kind::Between(low, high) => Kind::Between(*low, *high),
        };
        IntSet { kind }
    }

    /// The integers in ascending order, or `None` for an interval.
    #[tactic(auto, using(crate::proofs::IntKinds::kinds))]
    pub fn members(&self) -> Option<&[i128]>
        ensures value { option_copied result ≡ members_of self.now }
        ensures some { IfSome result (λ xs. IsTrue (are_listed xs.now) × (self.now ≡ listed xs.now)) }
    {
        match &self.kind {
            Kind::Listed(numbers) => Some(numbers.as_slice()),
            Kind::Between(_, _) => None,
        }
    }

    /// The ends of an interval, and `None` for a set that isn't one.
    #[tactic(auto, using(crate::proofs::IntKinds::kinds))]
    pub fn ends(&self) -> Option<(Low, High)>
        ensures value { result ≡ ends_of self.now }
        ensures some { IfSome result (λ p. IsTrue (is_range p.0 p.1) × (self.now ≡ range p.0 p.1)) }
    {
        match &self.kind {
            Kind::Listed(_) => None,
            Kind::Between(low, high) => Some((*low, *high)),
        }
    }

    /// Whether the integer is in the set.
    pub fn contains(&self, n: i128) -> bool
        ensures { result ≡ has self.now n }
    {
        match &self.kind {
            Kind::Listed(numbers) => holds(numbers.as_slice(), n),
            Kind::Between(low, high) => low.admits(n) && high.admits(n),
        }
    }

    /// Whether no integer is in the set.
    #[tactic(auto, using(crate::proofs::IntKinds::kinds))]
    pub fn is_none(&self) -> bool
        ensures value { result ≡ is_none self.now }
        ensures empty { IsTrue result ↔ (self.now ≡ none) }
    {
        match &self.kind {
            Kind::Listed(numbers) => numbers.is_empty(),
            Kind::Between(_, _) => false,
        }
    }

    /// Whether each integer of this set is in the other.
    pub fn leq(&self, other: &IntSet) -> bool
        ensures { IsTrue result ↔ Below self.now other.now }
    {
        match &self.kind {
            Kind::Listed(numbers) => all_in(numbers.as_slice(), other),
            Kind::Between(low, high) => match &other.kind {
                Kind::Listed(_) => false,
                Kind::Between(other_low, other_high) => {
                    other_low.holds(*low) && other_high.holds(*high)
                }
            },
        }
    }

    /// The integers of both sets.
    #[tactic(auto, using(crate::proofs::IntKinds::meets), unfolding(crate::specs::Numbers::meet))]
    pub fn meet(&self, other: &IntSet) -> IntSet
        ensures value { result ≡ meet self.now other.now }
        ensures both { (n : ℤ) → has result n ≡ (has self.now n && has other.now n) }
    {
        match &self.kind {
            Kind::Listed(numbers) => kept(numbers.as_slice(), other),
            Kind::Between(low, high) => match &other.kind {
                Kind::Listed(numbers) => kept(numbers.as_slice(), self),
                Kind::Between(other_low, other_high) => {
                    IntSet::between(low.raised(*other_low), high.lowered(*other_high))
                }
            },
        }
    }

    /// The smallest set of this kind that contains both: their integers alone where both sets list
    /// them and there are at most `MAX_MEMBERS`, and else the smallest interval that contains both.
    #[tactic(auto, using(crate::proofs::IntKinds::joins))]
    pub fn join(&self, other: &IntSet) -> IntSet
        ensures value { result ≡ join self.now other.now }
        ensures left { Below self.now result }
        ensures right { Below other.now result }
        ensures least { (u : Numbers) → Below self.now u → Below other.now u → Below result u }
    {
        match self.together(other) {
            Some(numbers) => IntSet {
                kind: Kind::Listed(numbers),
            },
            None => self.hull(other),
        }
    }

    // The numbers of two sets that list them, where they are few enough to be listed together.
    #[tactic(auto, using(crate::proofs::IntKinds::lists), unfolding(crate::specs::Numbers::join))]
    fn together(&self, other: &IntSet) -> Option<ArrayVec<i128, MAX_MEMBERS>>
        ensures some { IfSome result (λ v. IsTrue (are_listed v.items) × (join self.now other.now ≡ listed v.items)) }
        ensures none { IfNone result (join self.now other.now ≡ hull self.now other.now) }
    {
        match &self.kind {
            Kind::Listed(numbers) => match &other.kind {
                Kind::Listed(others) => both(numbers.as_slice(), others.as_slice()),
                Kind::Between(_, _) => None,
            },
            Kind::Between(_, _) => None,
        }
    }

    // The smallest interval that contains both sets, and no integer where both are empty.
    #[tactic(auto, unfolding(crate::specs::Numbers::hull))]
    fn hull(&self, other: &IntSet) -> IntSet
        ensures { result ≡ hull self.now other.now }
    {
        let low = self.low_end().lower(other.low_end());
        let high = self.high_end().higher(other.high_end());
        IntSet::between(low, high)
    }

    // The integers from the one end to the other.
    #[tactic(auto, unfolding(crate::specs::Numbers::range))]
    fn between(low: Low, high: High) -> IntSet
        ensures { result ≡ range low high }
    {
        if IntSet::is_range(low, high) {
            IntSet::range(low, high)
        } else {
            IntSet::none()
        }
    }

    // The nearest end under the set.
    #[tactic(auto, using(crate::proofs::IntKinds::kinds))]
    fn low_end(&self) -> Low
        ensures { result ≡ low_end self.now }
    {
        match &self.kind {
            Kind::Listed(numbers) => lowest(numbers.as_slice()),
            Kind::Between(low, _) => *low,
        }
    }

    // The nearest end over the set.
    #[tactic(auto, using(crate::proofs::IntKinds::kinds))]
    fn high_end(&self) -> High
        ensures { result ≡ high_end self.now }
    {
        match &self.kind {
            Kind::Listed(numbers) => highest(numbers.as_slice()),
            Kind::Between(_, high) => *high,
        }
    }
}

// Whether the number is in the list.
fn holds(numbers: &[i128], n: i128) -> bool
    ensures { result ≡ has_item int_cmp numbers.now n }
{
    numbers.contains(&n)
}

// Whether each number is below the next.
fn ascend(numbers: &[i128]) -> bool
    ensures { result ≡ is_ascending int_cmp numbers.now }
{
    for at in 1..numbers.len() {
        if numbers[at - 1] >= numbers[at] {
            return false;
        }
    }
    true
}

// Whether each number is of magnitude below `MAGNITUDE_LIMIT`.
fn all_narrow(numbers: &[i128]) -> bool
    ensures { result ≡ list_all is_narrow numbers.now }
{
    for n in numbers {
        if !IntSet::can_hold(*n) {
            return false;
        }
    }
    true
}

// Whether each number of the list is in the set.
fn all_in(numbers: &[i128], set: &IntSet) -> bool
    ensures { result ≡ list_all (has set.now) numbers.now }
{
    for n in numbers {
        if !set.contains(*n) {
            return false;
        }
    }
    true
}

// The numbers of a list of at most `MAX_MEMBERS`.
fn copied(numbers: &[i128]) -> ArrayVec<i128, MAX_MEMBERS>
    requires { length numbers.now ≤ MAX_MEMBERS }
    ensures { result.items ≡ numbers.now }
{
    let mut out = ArrayVec::new();
    for n in numbers {
        out.push(*n);
    }
    out
}

// The numbers of the list that are in the set.
#[tactic(auto, using(crate::proofs::IntKinds::keeps))]
fn kept(numbers: &[i128], set: &IntSet) -> IntSet
    requires { IsTrue (are_listed numbers.now) }
    ensures { result ≡ listed (filter (has set.now) numbers.now) }
{
    let mut out = ArrayVec::new();
    for n in numbers {
        if set.contains(*n) {
            out.push(*n);
        }
    }
    IntSet {
        kind: Kind::Listed(out),
    }
}

// Where the number goes in an ascending list, and `None` where it is there.
fn position_of(numbers: &[i128], n: i128) -> Option<usize>
    ensures some { IfSome result (λ at. (at ≤ length numbers.now) × (placed int_cmp n numbers.now ≡ insert numbers.now at n)) }
    ensures none { IfNone result (placed int_cmp n numbers.now ≡ numbers.now) }
{
    for (at, other) in numbers.iter().enumerate() {
        if n < *other {
            return Some(at);
        }
        if n == *other {
            return None;
        }
    }
    Some(numbers.len())
}

// Puts the number into an ascending list. `false` says that there are `MAX_MEMBERS` others.
fn put(numbers: &mut ArrayVec<i128, MAX_MEMBERS>, n: i128) -> bool
    ensures done { IsTrue result → numbers.new.items ≡ placed int_cmp n numbers.old.items }
    ensures fits { length numbers.new.items ≤ MAX_MEMBERS }
    ensures full { (IsTrue result → ⊥) → MAX_MEMBERS < length (placed int_cmp n numbers.old.items) }
{
    match position_of(numbers.as_slice(), n) {
        Some(at) => {
            if numbers.is_full() {
                return false;
            }
            numbers.insert(at, n);
            true
        }
        None => true,
    }
}

// The numbers of two ascending lists in one, and `None` where they are more than `MAX_MEMBERS`.
fn both(numbers: &[i128], others: &[i128]) -> Option<ArrayVec<i128, MAX_MEMBERS>>
    requires { length numbers.now ≤ MAX_MEMBERS }
    ensures some { IfSome result (λ v. (v.items ≡ merged int_cmp numbers.now others.now) × (length v.items ≤ MAX_MEMBERS)) }
    ensures none { IfNone result (MAX_MEMBERS < length (merged int_cmp numbers.now others.now)) }
{
    let mut out = copied(numbers);
    for n in others {
        if !put(&mut out, *n) {
            return None;
        }
    }
    Some(out)
}

// The nearest end under all numbers of the list.
fn lowest(numbers: &[i128]) -> Low
    ensures { result ≡ lowest numbers.now }
{
    let mut low = Low::One;
    for n in numbers {
        low = low.lower(Low::of(*n));
    }
    low
}

// The nearest end over all numbers of the list.
fn highest(numbers: &[i128]) -> High
    ensures { result ≡ highest numbers.now }
{
    let mut high = High::MinusOne;
    for n in numbers {
        high = high.higher(High::of(*n));
    }
    high
}
