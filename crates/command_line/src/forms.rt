// The forms of the commands, a module each: what may stand behind the command's own word, what is asked of the words together, and how
// they become the command. `gen` and `check` have one form.
pub(crate) mod bounds;
pub(crate) mod compact;
pub(crate) mod make;
pub(crate) mod replay;
pub(crate) mod rise_fall_replay;
pub(crate) mod run;
pub(crate) mod scan;
