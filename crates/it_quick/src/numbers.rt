//! Items at any place.

/// The item at place `k`, or `other` past the end.
#[inline]
pub fn at<T: Copy>(items: &[T], k: usize, other: T) -> T {
    if k < items.len() { items[k] } else { other }
}

/// The number at place `k` in 64 bits, 0 past the end.
#[inline]
pub fn number_at(numbers: &[i32], k: u16) -> i64 {
    i64::from(at(numbers, usize::from(k), 0))
}
