// What a command takes behind its own word.
ghost use Rattle.std.specs.Prelude.{◌≡◌};
ghost use Rattle.command_line.specs.Options.{AreLawful};
ghost use Rattle.command_line.specs.Reading.{Form, texts_given};
ghost use Rattle.command_line.specs.Taken.{form_seen, given_of};

use crate::taken::Taken;
use crate::{OptionName, WordsRefusal};

/// What may stand behind a command's own word.
#[derive(Clone, Copy)]
pub(crate) struct WordsForm {
    /// The options that the command knows.
    pub(crate) options: &'static [OptionName],
    /// How many positional words it takes.
    pub(crate) positional: usize,
    /// How many of these, in front, are names of files.
    pub(crate) files: usize,
}

/// The form of a command: what its words may be, each by itself and together.
pub(crate) trait CommandForm {
    ghost form: { Form };

    // What may stand behind the command's own word.
    fn words() -> WordsForm
        ensures { form_seen result ≡ form.words };

    // Why words that may stand where they do are refused before the names of files are compared, if they are.
    fn before_names(taken: &Taken) -> Option<WordsRefusal>
        ensures { result ≡ form.before_names (texts_given (given_of taken.now)) };

    // Why they are refused where all names of files differ, if they are.
    fn after_names(taken: &Taken) -> Option<WordsRefusal>
        ensures { result ≡ form.after_names (texts_given (given_of taken.now)) };

    // each option that it knows has a name of its own
    ghost lawful: { AreLawful form.words.options };
}
