// The limit on critical sets.

// The most sets that may be kept, 'critical sets 0..1,024', and the length of the pools.
pub const MOST_SETS: usize = 1024;
