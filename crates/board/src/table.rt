// The small board's table: a row for each state, an entry for each symbol.
pub(crate) const TABLE: [i32; 42] = [
    // state 0
    0, 3, 4, 0, 1, 2,
    // state 1
    -1, 3, 4, 0, 0, 5,
    // state 2
    -3, -3, -3, 0, 0, 0,
    // state 3
    -4, -4, -4, 0, 0, 0,
    // state 4
    0, 6, 0, 0, 0, 0,
    // state 5
    -2, -2, -2, 0, 0, 0,
    // state 6
    -5, -5, -5, 0, 0, 0,
];
