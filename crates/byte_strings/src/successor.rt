//! The smallest element above a bound, among elements of any kind that has a total order.

ghost use Rattle.std.specs.Prelude.{◌≡◌, ◌+◌, ◌<◌, Bool, length};
ghost use Rattle.byte_strings.specs.Order.{TotalPreorder, UpwardClosed};
ghost use Rattle.byte_strings.specs.Least.{Least};

/// Elements of which any two can be compared. `le x y` says that x is at most y.
// Not std's `Ord`, which wants an `==` in step with the order: a place of a cloud is ordered by its name alone.
pub trait Ordered {
    ghost le: { Self → Self → Bool };

    fn is_at_most(&self, other: &Self) -> bool
        ensures { result ≡ le self.now other.now };

    ghost ordered: { TotalPreorder le };
}

/// What the successor among elements of the kind `T` is to be above. `above q x` says that x is above the bound q.
pub trait Bound<T: Ordered> {
    ghost above: { Self → T → Bool };

    // That all larger elements are above it too is a promise here and no law of the trait: a law would bar bounds
    // that hold a reference.
    fn is_below(&self, item: &T) -> bool
        ensures value { result ≡ above self.now item.now }
        ensures upward { UpwardClosed T.Ordered.le (above self.now) };
}

/// The index of the smallest item above the bound, the first of those that are equally small.
pub fn successor<T: Ordered, B: Bound<T>>(items: &[T], bound: &B) -> Option<usize>
    ensures { Least (B.above bound.now) T.le items.now (length items.now) result }
{
    // Over indices and not items: the answer is an index, and two places of the list are compared.
    let mut best: Option<usize> = None;
    for i in 0..items.len() {
        best = better(items, bound, i, best);
    }
    best
}

// The answer for one item more: `best` is that for the items before `i`.
fn better<T: Ordered, B: Bound<T>>(
    items: &[T],
    bound: &B,
    i: usize,
    best: Option<usize>,
) -> Option<usize>
    requires within { i < length items.now }
    requires before { Least (B.above bound.now) T.le items.now i best }
    ensures { Least (B.above bound.now) T.le items.now (i + 1) result }
{
    let item = &items[i];
    if !bound.is_below(item) {
        return best;
    }
    let Some(b) = best else {
        return Some(i);
    };
    if items[b].is_at_most(item) {
        return Some(b);
    }
    Some(i)
}
