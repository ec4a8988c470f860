//! An expression for each of eight lanes, written once.

/// An array of what each of eight lanes gives, by what is in the lane, by its place, or by both; of two values, two arrays.
#[macro_export]
macro_rules! each_lane {
    ($lane:ident of $lanes:expr => $($value:expr),+) => {{
        let [a, b, c, d, e, f, g, h] = $lanes;
        ($($crate::each_lane!(in [a, b, c, d, e, f, g, h] $lane => $value)),+)
    }};
    ($place:ident => $value:expr) => {
        $crate::each_lane!(in [0, 1, 2, 3, 4, 5, 6, 7] $place => $value)
    };
    ($place:ident, $lane:ident of $lanes:expr => $($value:expr),+) => {{
        let [a, b, c, d, e, f, g, h] = $lanes;
        ($($crate::each_lane!(in [0 a, 1 b, 2 c, 3 d, 4 e, 5 f, 6 g, 7 h] $place $lane => $value)),+)
    }};
    (in [$($one:expr),*] $lane:ident => $value:expr) => {
        [$({
            let $lane = $one;
            $value
        }),*]
    };
    (in [$($at:literal $one:ident),*] $place:ident $lane:ident => $value:expr) => {
        [$({
            let $place = $at;
            let $lane = $one;
            $value
        }),*]
    };
}
