// The command `rfreplay`: `replay` where each pin has a rise and a fall delay; and for each test whether the listed path that it is for is
// late at that time (specs/RiseFallReplay.antt, RiseFallReplayText.antt). The whole text is made before out is touched; the waves of one
// test are in memory at a time. What it has in common with `replay` is in src/replay/over.rt and sampled.rt.
mod path_word;
mod preparing;
mod replaying;
mod sampling;
mod text;

pub(crate) use replaying::rise_fall_replay;
