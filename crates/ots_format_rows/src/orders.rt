// How values compare.
use ots_row_words::Said;
use std::cmp::Ordering;

/// Says how each of these values compares with each of them: for each a row of `<`, `=` and `>`, or `?` where
/// the order and the equality differ.
pub fn say_order<T: Ord>(values: &[T], said: &mut Said) {
    for first in values {
        said.push(" ");
        say_row(first, values, said);
    }
}

/// Says how a value compares with each of these.
fn say_row<T: Ord>(first: &T, values: &[T], said: &mut Said) {
    for second in values {
        said.push(sign(first.cmp(second), first == second));
    }
}

/// The sign of an order and an equality.
fn sign(order: Ordering, is_equal: bool) -> &'static str {
    match (order, is_equal) {
        (Ordering::Less, false) => "<",
        (Ordering::Equal, true) => "=",
        (Ordering::Greater, false) => ">",
        _ => "?",
    }
}
