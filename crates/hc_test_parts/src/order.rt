//! The orders of five.

/// The orders of five are among so many codes.
pub(crate) const CODES: usize = 3_125;

/// The order that has this code, if one has: its digits to base 5.
pub(crate) fn order_of(code: usize) -> Option<[usize; 5]> {
    let places = [
        code % 5,
        code / 5 % 5,
        code / 25 % 5,
        code / 125 % 5,
        code / 625 % 5,
    ];
    for place in 0..5 {
        if !places.contains(&place) {
            return None;
        }
    }
    Some(places)
}
