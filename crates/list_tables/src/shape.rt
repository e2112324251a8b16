// The one array that holds the four tables, what each choice weighs in them, and the least weights of so many
// choices.

// Where the weights start: after four tables of 65 rows, one for each first choice, of 201 entries.
pub const WEIGHTS_START: usize = 52_260;

// Where the least weights of so many choices start: after the weights of 64 choices in four tables.
pub const LIGHTEST_START: usize = 52_516;

// How many numbers the array has: four tables of 65 rows of 65 least weights are the last of them.
pub const TABLES: usize = 69_416;
