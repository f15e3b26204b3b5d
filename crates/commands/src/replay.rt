// The command `replay`: for each test of a tests file what the observed lines have at a time, and whether these are the bits that
// the test expects (specs/Replay.antt, ReplayText.antt). The whole text is made before out is touched; the waves of one test are in
// memory at a time. What `rfreplay` says in the same way is in over.rt and sampled.rt.
pub(crate) mod over;
mod preparing;
mod replaying;
pub(crate) mod sampled;
mod text;

pub(crate) use replaying::replay;
