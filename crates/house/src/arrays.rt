// The arrays of the house notation, as `tools/house/make` prints them.

// The left side of each rule.
pub(crate) const LEFT: [u32; 16] = [
    // rule 1
    18, // start
    // rule 2
    19, // book
    // rule 3
    19, // book
    // rule 4
    20, // variant
    // rule 5
    21, // pits
    // rule 6
    22, // seeds
    // rule 7
    23, // sow
    // rule 8
    23, // sow
    // rule 9
    24, // laps
    // rule 10
    24, // laps
    // rule 11
    25, // capture
    // rule 12
    26, // takes
    // rule 13
    26, // takes
    // rule 14
    27, // take
    // rule 15
    27, // take
    // rule 16
    27, // take
];

// The length of each rule's right side.
pub(crate) const LENS: [u32; 16] = [
    // rule 1
    1, // start
    // rule 2
    2, // book
    // rule 3
    1, // book
    // rule 4
    7, // variant
    // rule 5
    3, // pits
    // rule 6
    3, // seeds
    // rule 7
    3, // sow
    // rule 8
    3, // sow
    // rule 9
    3, // laps
    // rule 10
    3, // laps
    // rule 11
    3, // capture
    // rule 12
    3, // takes
    // rule 13
    1, // takes
    // rule 14
    1, // take
    // rule 15
    2, // take
    // rule 16
    1, // take
];

// The right sides, one after the other.
pub(crate) const RIGHTS: [u32; 40] = [
    // rule 1
    19, // book
    // rule 2
    19, // book
    20, // variant
    // rule 3
    20, // variant
    // rule 4
    1, // VARIANT
    2, // NAME
    21, // pits
    22, // seeds
    23, // sow
    24, // laps
    25, // capture
    // rule 5
    3, // PITS
    8, // EQUALS
    9, // NUMBER
    // rule 6
    4, // SEEDS
    8, // EQUALS
    9, // NUMBER
    // rule 7
    5, // SOW
    8, // EQUALS
    10, // LEFT
    // rule 8
    5, // SOW
    8, // EQUALS
    11, // RIGHT
    // rule 9
    6, // LAPS
    8, // EQUALS
    12, // SINGLE
    // rule 10
    6, // LAPS
    8, // EQUALS
    13, // RELAY
    // rule 11
    7, // CAPTURE
    8, // EQUALS
    26, // takes
    // rule 12
    26, // takes
    17, // THEN
    27, // take
    // rule 13
    27, // take
    // rule 14
    14, // OPPOSITE
    // rule 15
    15, // EXACT
    9, // NUMBER
    // rule 16
    16, // NOTHING
];

// The table, row by row.
pub(crate) const TABLE: [i32; 980] = [
    // state 0
    0, 1, // VARIANT
    0, 0, 0, 0, 0, 0, 0, 0, 0, 0, 0, 0, 0, 0, 0, 0, 0, 2, // book
    3, // variant
    0, 0, 0, 0, 0, 0, 0,
    // state 1
    0, 0, 4, // NAME
    0, 0, 0, 0, 0, 0, 0, 0, 0, 0, 0, 0, 0, 0, 0, 0, 0, 0, 0, 0, 0, 0, 0, 0, 0,
    // state 2
    -1, // END
    1, // VARIANT
    0, 0, 0, 0, 0, 0, 0, 0, 0, 0, 0, 0, 0, 0, 0, 0, 0, 0, 5, // variant
    0, 0, 0, 0, 0, 0, 0,
    // state 3
    -3, // END
    -3, // VARIANT
    0, 0, 0, 0, 0, 0, 0, 0, 0, 0, 0, 0, 0, 0, 0, 0, 0, 0, 0, 0, 0, 0, 0, 0, 0, 0,
    // state 4
    0, 0, 0, 6, // PITS
    0, 0, 0, 0, 0, 0, 0, 0, 0, 0, 0, 0, 0, 0, 0, 0, 0, 7, // pits
    0, 0, 0, 0, 0, 0,
    // state 5
    -2, // END
    -2, // VARIANT
    0, 0, 0, 0, 0, 0, 0, 0, 0, 0, 0, 0, 0, 0, 0, 0, 0, 0, 0, 0, 0, 0, 0, 0, 0, 0,
    // state 6
    0, 0, 0, 0, 0, 0, 0, 0, 8, // EQUALS
    0, 0, 0, 0, 0, 0, 0, 0, 0, 0, 0, 0, 0, 0, 0, 0, 0, 0, 0,
    // state 7
    0, 0, 0, 0, 9, // SEEDS
    0, 0, 0, 0, 0, 0, 0, 0, 0, 0, 0, 0, 0, 0, 0, 0, 0, 10, // seeds
    0, 0, 0, 0, 0,
    // state 8
    0, 0, 0, 0, 0, 0, 0, 0, 0, 11, // NUMBER
    0, 0, 0, 0, 0, 0, 0, 0, 0, 0, 0, 0, 0, 0, 0, 0, 0, 0,
    // state 9
    0, 0, 0, 0, 0, 0, 0, 0, 12, // EQUALS
    0, 0, 0, 0, 0, 0, 0, 0, 0, 0, 0, 0, 0, 0, 0, 0, 0, 0, 0,
    // state 10
    0, 0, 0, 0, 0, 13, // SOW
    0, 0, 0, 0, 0, 0, 0, 0, 0, 0, 0, 0, 0, 0, 0, 0, 0, 14, // sow
    0, 0, 0, 0,
    // state 11
    0, 0, 0, 0, -5, // SEEDS
    0, 0, 0, 0, 0, 0, 0, 0, 0, 0, 0, 0, 0, 0, 0, 0, 0, 0, 0, 0, 0, 0, 0,
    // state 12
    0, 0, 0, 0, 0, 0, 0, 0, 0, 15, // NUMBER
    0, 0, 0, 0, 0, 0, 0, 0, 0, 0, 0, 0, 0, 0, 0, 0, 0, 0,
    // state 13
    0, 0, 0, 0, 0, 0, 0, 0, 16, // EQUALS
    0, 0, 0, 0, 0, 0, 0, 0, 0, 0, 0, 0, 0, 0, 0, 0, 0, 0, 0,
    // state 14
    0, 0, 0, 0, 0, 0, 17, // LAPS
    0, 0, 0, 0, 0, 0, 0, 0, 0, 0, 0, 0, 0, 0, 0, 0, 0, 18, // laps
    0, 0, 0,
    // state 15
    0, 0, 0, 0, 0, -6, // SOW
    0, 0, 0, 0, 0, 0, 0, 0, 0, 0, 0, 0, 0, 0, 0, 0, 0, 0, 0, 0, 0, 0,
    // state 16
    0, 0, 0, 0, 0, 0, 0, 0, 0, 0, 19, // LEFT
    20, // RIGHT
    0, 0, 0, 0, 0, 0, 0, 0, 0, 0, 0, 0, 0, 0, 0, 0,
    // state 17
    0, 0, 0, 0, 0, 0, 0, 0, 21, // EQUALS
    0, 0, 0, 0, 0, 0, 0, 0, 0, 0, 0, 0, 0, 0, 0, 0, 0, 0, 0,
    // state 18
    0, 0, 0, 0, 0, 0, 0, 22, // CAPTURE
    0, 0, 0, 0, 0, 0, 0, 0, 0, 0, 0, 0, 0, 0, 0, 0, 0, 23, // capture
    0, 0,
    // state 19
    0, 0, 0, 0, 0, 0, -7, // LAPS
    0, 0, 0, 0, 0, 0, 0, 0, 0, 0, 0, 0, 0, 0, 0, 0, 0, 0, 0, 0, 0,
    // state 20
    0, 0, 0, 0, 0, 0, -8, // LAPS
    0, 0, 0, 0, 0, 0, 0, 0, 0, 0, 0, 0, 0, 0, 0, 0, 0, 0, 0, 0, 0,
    // state 21
    0, 0, 0, 0, 0, 0, 0, 0, 0, 0, 0, 0, 24, // SINGLE
    25, // RELAY
    0, 0, 0, 0, 0, 0, 0, 0, 0, 0, 0, 0, 0, 0,
    // state 22
    0, 0, 0, 0, 0, 0, 0, 0, 26, // EQUALS
    0, 0, 0, 0, 0, 0, 0, 0, 0, 0, 0, 0, 0, 0, 0, 0, 0, 0, 0,
    // state 23
    -4, // END
    -4, // VARIANT
    0, 0, 0, 0, 0, 0, 0, 0, 0, 0, 0, 0, 0, 0, 0, 0, 0, 0, 0, 0, 0, 0, 0, 0, 0, 0,
    // state 24
    0, 0, 0, 0, 0, 0, 0, -9, // CAPTURE
    0, 0, 0, 0, 0, 0, 0, 0, 0, 0, 0, 0, 0, 0, 0, 0, 0, 0, 0, 0,
    // state 25
    0, 0, 0, 0, 0, 0, 0, -10, // CAPTURE
    0, 0, 0, 0, 0, 0, 0, 0, 0, 0, 0, 0, 0, 0, 0, 0, 0, 0, 0, 0,
    // state 26
    0, 0, 0, 0, 0, 0, 0, 0, 0, 0, 0, 0, 0, 0, 27, // OPPOSITE
    28, // EXACT
    29, // NOTHING
    0, 0, 0, 0, 0, 0, 0, 0, 0, 30, // takes
    31, // take
    // state 27
    -14, // END
    -14, // VARIANT
    0, 0, 0, 0, 0, 0, 0, 0, 0, 0, 0, 0, 0, 0, 0, -14, // THEN
    0, 0, 0, 0, 0, 0, 0, 0, 0, 0,
    // state 28
    0, 0, 0, 0, 0, 0, 0, 0, 0, 32, // NUMBER
    0, 0, 0, 0, 0, 0, 0, 0, 0, 0, 0, 0, 0, 0, 0, 0, 0, 0,
    // state 29
    -16, // END
    -16, // VARIANT
    0, 0, 0, 0, 0, 0, 0, 0, 0, 0, 0, 0, 0, 0, 0, -16, // THEN
    0, 0, 0, 0, 0, 0, 0, 0, 0, 0,
    // state 30
    -11, // END
    -11, // VARIANT
    0, 0, 0, 0, 0, 0, 0, 0, 0, 0, 0, 0, 0, 0, 0, 33, // THEN
    0, 0, 0, 0, 0, 0, 0, 0, 0, 0,
    // state 31
    -13, // END
    -13, // VARIANT
    0, 0, 0, 0, 0, 0, 0, 0, 0, 0, 0, 0, 0, 0, 0, -13, // THEN
    0, 0, 0, 0, 0, 0, 0, 0, 0, 0,
    // state 32
    -15, // END
    -15, // VARIANT
    0, 0, 0, 0, 0, 0, 0, 0, 0, 0, 0, 0, 0, 0, 0, -15, // THEN
    0, 0, 0, 0, 0, 0, 0, 0, 0, 0,
    // state 33
    0, 0, 0, 0, 0, 0, 0, 0, 0, 0, 0, 0, 0, 0, 27, // OPPOSITE
    28, // EXACT
    29, // NOTHING
    0, 0, 0, 0, 0, 0, 0, 0, 0, 0, 34, // take
    // state 34
    -12, // END
    -12, // VARIANT
    0, 0, 0, 0, 0, 0, 0, 0, 0, 0, 0, 0, 0, 0, 0, -12, // THEN
    0, 0, 0, 0, 0, 0, 0, 0, 0, 0,
];
