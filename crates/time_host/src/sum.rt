use gate_model::Shown;

/// A sum over the keys of what a screen shows, place by place, to compare two builds by.
pub fn sum_of(shown: &Shown) -> u64 {
    let mut sum: u64 = 0;
    for y in 0..shown.rows() {
        for x in 0..shown.cols() {
            let key = shown.key(x, y);
            let look = key.face as u64 * 7 + key.ink as u64 * 3 + key.paper as u64;
            let under = if key.under { 1000 } else { 0 };
            sum = sum.wrapping_mul(31).wrapping_add(look).wrapping_add(under);
        }
    }
    sum
}
