// Texts of netlists of one shape and any size, for rows on what is large: wide, deep, with long names, or with a gate of many pins.
use row_answers::{Text, Trouble};

/// A shape of netlists.
#[derive(Clone, Copy)]
pub enum Shape {
    /// So many buffers of one source, all observed.
    Wide,
    /// A source and so many buffers, one behind the other, of which the last one is observed.
    Chain,
    /// The same with names of a hundred bytes.
    LongNames,
    /// An AND of so many pins, all on one source.
    Pins,
}

impl Shape {
    /// The shape of this word.
    pub fn of(word: &str) -> Result<Shape, Trouble> {
        match word {
            "wide" => Ok(Shape::Wide),
            "chain" => Ok(Shape::Chain),
            "long_names" => Ok(Shape::LongNames),
            "pins" => Ok(Shape::Pins),
            _ => Err(Trouble::NoRow),
        }
    }

    /// Adds the text of this shape and size: a head, parts of which each is like the one before, and an end.
    pub fn add(self, size: u32, text: &mut Text) {
        self.add_head(size, text);
        for number in 1..=size {
            self.add_part(number, text);
        }
        text.add(self.end());
    }

    // What stands before the parts.
    fn add_head(self, size: u32, text: &mut Text) {
        match self {
            Shape::Wide => text.add("INPUT(a)\n"),
            Shape::Chain | Shape::LongNames => self.add_chain_head(size, text),
            Shape::Pins => text.add("INPUT(a)\nOUTPUT(y)\ny = AND("),
        }
    }

    // The source of a chain, and its last line, which is observed.
    fn add_chain_head(self, size: u32, text: &mut Text) {
        text.add("INPUT(");
        self.add_name(0, text);
        text.add(")\nOUTPUT(");
        self.add_name(size, text);
        text.add(")\n");
    }

    // The buffer or the pin of this number, from 1.
    fn add_part(self, number: u32, text: &mut Text) {
        match self {
            Shape::Wide => self.add_observed_buffer(number, text),
            Shape::Chain | Shape::LongNames => self.add_chained_buffer(number, text),
            Shape::Pins => text.add(if number == 1 { "a" } else { ", a" }),
        }
    }

    // A buffer of the source.
    fn add_observed_buffer(self, number: u32, text: &mut Text) {
        text.add("OUTPUT(");
        self.add_name(number, text);
        text.add(")\n");
        self.add_name(number, text);
        text.add(" = BUFF(a)\n");
    }

    // A buffer of the line before.
    fn add_chained_buffer(self, number: u32, text: &mut Text) {
        self.add_name(number, text);
        text.add(" = BUFF(");
        self.add_name(number.saturating_sub(1), text);
        text.add(")\n");
    }

    // The name of the line of this number.
    fn add_name(self, number: u32, text: &mut Text) {
        match self {
            Shape::Wide => text.add_number("b", number as u64),
            Shape::LongNames => text.add_long_number(number),
            _ => text.add_number("n", number as u64),
        }
    }

    // What stands behind the parts.
    fn end(self) -> &'static str {
        match self {
            Shape::Pins => ")\n",
            _ => "",
        }
    }
}
