// The map's calls that add and remove nothing: start, length, capacity, get, contains, `get_addr`, the value write, smallest and largest. Each takes any image, key, M and N, and
// answers by its definition in specs/.
#![tactic(auto)]

pub mod start; // start.rt: blank memory becomes an empty map
pub mod get; // get.rt: by a key
pub mod ends; // ends.rt: smallest and largest
