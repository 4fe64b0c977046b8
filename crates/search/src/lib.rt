// The nearest earlier match and the first later match in a slice, once for every element and every key.
#![tactic(auto)]

ghost use Rattle.std.specs.Prelude.{◌≡◌, ◌-◌, ◌<◌, Bool, length, IfSome};
ghost use Rattle.search.specs.Search.{nearest, first, passes, NearestIsFound, FirstIsFound};

/// Elements that match a key, or do not.
pub trait Matches<K> {
    ghost hits: { Self → K → Bool };

    fn matches(&self, key: &K) -> bool
        ensures { result ≡ hits self.now key.now };
}

/// The greatest index below `before` whose element matches.
pub fn nearest_earlier<K, T: Matches<K>>(items: &[T], before: usize, key: &K) -> Option<usize>
    ensures value { result ≡ nearest (passes (λ x. T.Matches.hits x key.now) items.now) before }
    ensures within { IfSome result (λ k. (k < before) × (k < length items.now)) }
{
    let earlier = &items[..before.min(items.len())];
    earlier.iter().rposition(|item| item.matches(key))
}

/// The least index from `from` on whose element matches.
pub fn first_later<K, T: Matches<K>>(items: &[T], from: usize, key: &K) -> Option<usize>
    ensures value { result ≡ first (passes (λ x. T.Matches.hits x key.now) items.now) from (length items.now - from) }
    ensures within { IfSome result (λ k. k < length items.now) }
{
    let later = &items[from.min(items.len())..];
    let found = later.iter().position(|item| item.matches(key))?;
    Some(from + found)
}

/// A search finds exactly the nearest or the first, and nothing only where nothing passes.
pub fn searches_find_the_nearest_and_the_first() -> u8
    ensures nearest { NearestIsFound }
    ensures first { FirstIsFound }
{
    0
}
