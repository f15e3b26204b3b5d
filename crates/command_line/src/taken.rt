// What the words of a command gave so far, read from the left, and how one word more is taken.
ghost use Rattle.std.specs.Prelude.{◌≡◌, [], Ok, option_map, slice_index_or};
ghost use Rattle.command_line.specs.Reading.{missing_reason, name_added, none_given, option_due, option_taken, positional_taken, texts_given, value_asked, value_given, value_taken, word_taken};
ghost use Rattle.command_line.specs.Taken.{TakesAs, form_seen, given_of};

use crate::form::WordsForm;
use crate::kind::{WordKind, word_kind};
use crate::{OptionName, WordsFault, WordsRefusal};
use std::alloc::Global;

/// A word that stands for the name of a file, and its place.
#[derive(Clone, Copy)]
pub(crate) struct PlacedName<'a> {
    pub(crate) place: usize,
    pub(crate) text: &'a str,
}

/// The value that an option was given.
#[derive(Clone, Copy)]
pub(crate) struct OptionValue<'a> {
    pub(crate) option: OptionName,
    pub(crate) text: &'a str,
}

/// What the words so far gave.
#[derive(Drop)]
pub(crate) struct Taken<'a> {
    /// The positional words, in order.
    pub(crate) positional: Vec<&'a str>,
    /// The values of options, in order.
    pub(crate) values: Vec<OptionValue<'a>>,
    /// The names of files among both, in order.
    pub(crate) names: Vec<PlacedName<'a>>,
    /// The option whose value is the next word.
    pub(crate) due: Option<OptionName>,
}

impl<'a> Taken<'a> {
    // No word was read yet.
    pub(crate) fn none(alloc: Global) -> Taken<'a>
        ensures { given_of result ≡ none_given }
    {
        Taken {
            positional: Vec::new(alloc),
            values: Vec::new(alloc),
            names: Vec::new(alloc),
            due: None,
        }
    }

    // Takes the word at this place.
    pub(crate) fn take(
        &mut self,
        form: WordsForm,
        place: usize,
        word: &'a str,
    ) -> Result<(), WordsFault>
        ensures { TakesAs (word_taken (form_seen form) place word.now (given_of self.old)) (given_of self.new) result }
    {
        if let Some(option) = self.due {
            return self.take_value(option, place, word);
        }
        match word_kind(form.options, word) {
            WordKind::Alone(option) => self.expect(option),
            WordKind::Valued(option, value) => self.take_option(option, place, value),
            WordKind::Hyphened => Err(WordsFault::Refused(WordsRefusal::OptionAt(place))),
            WordKind::Empty => Err(WordsFault::Refused(WordsRefusal::EmptyAt(place))),
            WordKind::Plain => self.take_positional(form, place, word),
        }
    }

    // The positional word at this index, without bytes where there is none.
    pub(crate) fn text_at(&self, index: usize) -> &'a str
        ensures { result.now ≡ slice_index_or (given_of self.now).positional index [] }
    {
        match self.positional.get(index) {
            Some(word) => *word,
            None => "",
        }
    }

    // The value of an option, or its default where it was given none.
    pub(crate) fn value_asked(&self, option: OptionName) -> Option<&'a str>
        ensures { option_map (λ text. text.now) result ≡ value_asked option (texts_given (given_of self.now)) }
    {
        match self.value(option) {
            None => option.default(),
            value => value,
        }
    }

    // Why no further word may be missing, if one is.
    pub(crate) fn missing(&self, form: WordsForm) -> Option<WordsRefusal>
        ensures { result ≡ missing_reason (form_seen form) (given_of self.now) }
    {
        if let Some(option) = self.due {
            return Some(WordsRefusal::Value(option));
        }
        if self.positional.len() != form.positional {
            return Some(WordsRefusal::Count);
        }
        None
    }

    // An option whose value is the next word.
    fn expect(&mut self, option: OptionName) -> Result<(), WordsFault>
        ensures { TakesAs (option_due option (given_of self.old)) (given_of self.new) result }
    {
        if self.value(option).is_some() {
            return Err(WordsFault::Refused(WordsRefusal::Repeat(option)));
        }
        self.due = Some(option);
        Ok(())
    }

    // An option with its value, which the word at this place has.
    fn take_option(
        &mut self,
        option: OptionName,
        place: usize,
        value: &'a str,
    ) -> Result<(), WordsFault>
        ensures { TakesAs (option_taken option place value.now (given_of self.old)) (given_of self.new) result }
    {
        if self.value(option).is_some() {
            return Err(WordsFault::Refused(WordsRefusal::Repeat(option)));
        }
        self.take_value(option, place, value)
    }

    // The value of an option that was not given before, which the word at this place has.
    fn take_value(
        &mut self,
        option: OptionName,
        place: usize,
        value: &'a str,
    ) -> Result<(), WordsFault>
        ensures { TakesAs (value_taken option place value.now (given_of self.old)) (given_of self.new) result }
    {
        if !option.allows(value) {
            return Err(WordsFault::Refused(WordsRefusal::Value(option)));
        }
        self.values.push(OptionValue {
            option,
            text: value,
        })?;
        self.due = None;
        self.add_name(option.names_file(), place, value)
    }

    // A positional word.
    fn take_positional(
        &mut self,
        form: WordsForm,
        place: usize,
        word: &'a str,
    ) -> Result<(), WordsFault>
        ensures { TakesAs (positional_taken (form_seen form) place word.now (given_of self.old)) (given_of self.new) result }
    {
        let count = self.positional.len();
        if count == form.positional {
            return Err(WordsFault::Refused(WordsRefusal::Count));
        }
        self.positional.push(word)?;
        self.add_name(count < form.files, place, word)
    }

    // Adds a text to the names of files, if it is one.
    fn add_name(&mut self, is_name: bool, place: usize, text: &'a str) -> Result<(), WordsFault>
        ensures { TakesAs (Ok (name_added is_name place text.now (given_of self.old))) (given_of self.new) result }
    {
        if is_name {
            self.names.push(PlacedName { place, text })?;
        }
        Ok(())
    }

    // The value that an option was given, if it was.
    fn value(&self, option: OptionName) -> Option<&'a str>
        ensures { option_map (λ text. text.now) result ≡ value_given option (given_of self.now) }
    {
        let mut rest = self.values.as_slice();
        while let [value, later @ ..] = rest {
            if value.option.word() == option.word() {
                return Some(value.text);
            }
            rest = later;
        }
        None
    }
}
