// A netlist as its text states it: one statement after another, each with the number of its line.
ghost use Rattle.std.specs.Prelude.{◌≡◌, ◌<◌, ◌≤◌, [], ◌∷◌, ◌++◌, length, slice_index_or, All, OnOk, OnErr};
ghost use Rattle.netlist.specs.declared.limits.TheConstants.{MOST_FAN_IN, MOST_STATEMENTS};
ghost use Rattle.netlist.specs.Lawful.{IsFanIn};
ghost use Rattle.netlist.specs.Names.{IsName};
ghost use Rattle.netlist.specs.NameTexts.{bytes_of};
ghost use Rattle.netlist.specs.Statements.{IsStatement, numbered, used_by};
ghost use Rattle.net_builder.specs.RawStored.{skipped, used_count};
ghost use Rattle.net_builder.specs.Reading.{form_of, own_name, statement_at, line_at};

use crate::name_list::NameList;
use netlist::{GateKind, RawStmt};
use pd_base::{Items, OutOfMemory};
use std::alloc::Global;
use std::marker::Model;

/// The form of a statement, without its names.
#[derive(Clone, Copy)]
pub enum Form {
    /// It defines a source.
    Input,
    /// It names an output.
    Output,
    /// It defines a gate of this kind.
    Gate(GateKind),
    /// It defines a flip-flop.
    Flop,
}

/// A statement as it is kept: its names are `count` names from `first` on, at most one more than a gate may have arguments.
#[derive(Clone, Copy)]
pub(crate) struct Placed {
    pub(crate) line: u32,
    pub(crate) form: Form,
    pub(crate) count: u16,
    pub(crate) first: usize,
}

// A netlist has many statements: the order of the fields leaves no gap between them.
const _: () = prove!(std::mem::size_of::<Placed>() == 16);

/// A list of statements, each with the number of its line in the text. Contracts see it as that list.
#[derive(Drop)]
pub struct RawNet {
    pub(crate) names: NameList,
    pub(crate) statements: Vec<Placed>,
}

impl Model for RawNet {
    ghost use Rattle.std.specs.Prelude.{List};
    ghost use Rattle.netlist.specs.Statements.{Numbered};

    ghost Value = { List Numbered };

    ghost use Rattle.net_builder.specs.RawStored.{statements_in, IsRaw};

    ghost view = { statements_in };

    ghost invariant = { IsRaw };
}

impl RawNet {
    /// No statements.
    pub fn new(alloc: Global) -> RawNet
        ensures { result ≡ [] }
    {
        RawNet {
            names: NameList::new(alloc),
            statements: Vec::new(alloc),
        }
    }

    /// The number of statements. Each is lawful.
    pub fn len(&self) -> usize
        ensures count { result ≡ length self.now }
        ensures few { result ≤ MOST_STATEMENTS }
        ensures lawful { All (λ s. IsStatement s.statement) self.now }
    {
        self.statements.len()
    }

    /// The number of the line on which a statement stands.
    pub fn line(&self, place: usize) -> u32
        requires { place < length self.now }
        ensures { result ≡ line_at self.now place }
    {
        self.statements[place].line
    }

    /// The form of a statement.
    pub fn form(&self, place: usize) -> Form
        requires { place < length self.now }
        ensures { result ≡ form_of (statement_at self.now place) }
    {
        self.statements[place].form
    }

    /// The name that a statement defines, or of an output's statement the output's name.
    pub fn name(&self, place: usize) -> &[u8]
        requires { place < length self.now }
        ensures { result.now ≡ own_name (statement_at self.now place) }
    {
        self.names.get(self.statements[place].first)
    }

    /// The number of names that a statement uses.
    pub fn used_len(&self, place: usize) -> usize
        requires { place < length self.now }
        ensures count { result ≡ length (used_by (statement_at self.now place)) }
        ensures few { result ≤ MOST_FAN_IN }
    {
        let placed = self.statements[place];
        used_count(placed.form, placed.count as usize)
    }

    /// A name that a statement uses, by its place from the left.
    pub fn used(&self, place: usize, argument: usize) -> &[u8]
        requires place { place < length self.now }
        requires argument { argument < length (used_by (statement_at self.now place)) }
        ensures { result.now ≡ slice_index_or (used_by (statement_at self.now place)) argument [] }
    {
        let placed = self.statements[place];
        self.names
            .get_behind(placed.first, skipped(placed.form) + argument)
    }

    /// Puts a statement last. Its names are names, a gate has 1 to 1,024 arguments, NOT and BUFF exactly one. A list has fewer
    /// than 2^31 statements. Where memory runs out the list is as before.
    pub fn push(&mut self, line: u32, stmt: RawStmt) -> Result<(), OutOfMemory>
        requires lawful { IsStatement stmt }
        requires few { length self.old < MOST_STATEMENTS }
        ensures pushed { OnOk result (self.new ≡ self.old ++ numbered line stmt ∷ []) }
        ensures kept { OnErr result (self.new ≡ self.old) }
    {
        match stmt {
            RawStmt::Input(name) => self.push_input(line, name.as_slice()),
            RawStmt::Output(name) => self.push_output(line, name.as_slice()),
            RawStmt::Gate(name, kind, arguments) => {
                self.push_owned_gate(line, name.as_slice(), kind, arguments.as_slice())
            }
            RawStmt::Flop(name, data_line) => self.push_flop(
                line,
                name.as_slice(),
                data_line.as_slice(),
            ),
        }
    }

    /// Puts the statement last that defines a source of this name. Where memory runs out the list is as before.
    pub fn push_input(&mut self, line: u32, name: &[u8]) -> Result<(), OutOfMemory>
        requires name { IsName name.now }
        requires few { length self.old < MOST_STATEMENTS }
        ensures pushed { OnOk result (self.new ≡ self.old ++ numbered line (RawStmt.Input name.now) ∷ []) }
        ensures kept { OnErr result (self.new ≡ self.old) }
    {
        let first = self.names.len();
        self.names.push(name)?;
        let form = Form::Input;
        self.statements.push(Placed {
            line,
            form,
            first,
            count: 1,
        })?;
        Ok(())
    }

    /// Puts the statement last that makes the line of this name an output. Where memory runs out the list is as before.
    pub fn push_output(&mut self, line: u32, name: &[u8]) -> Result<(), OutOfMemory>
        requires name { IsName name.now }
        requires few { length self.old < MOST_STATEMENTS }
        ensures pushed { OnOk result (self.new ≡ self.old ++ numbered line (RawStmt.Output name.now) ∷ []) }
        ensures kept { OnErr result (self.new ≡ self.old) }
    {
        let first = self.names.len();
        self.names.push(name)?;
        let form = Form::Output;
        self.statements.push(Placed {
            line,
            form,
            first,
            count: 1,
        })?;
        Ok(())
    }

    /// Puts the statement last that defines a gate of this name and kind on the lines of these names. Where memory runs
    /// out the list is as before.
    pub fn push_gate(
        &mut self,
        line: u32,
        name: &[u8],
        kind: GateKind,
        arguments: &[&[u8]],
    ) -> Result<(), OutOfMemory>
        requires name { IsName name.now }
        requires arguments { All IsName (bytes_of arguments.now) }
        requires fan_in { IsFanIn kind (length arguments.now) }
        requires few { length self.old < MOST_STATEMENTS }
        ensures pushed { OnOk result
            (self.new ≡ self.old ++ numbered line (RawStmt.Gate name.now kind (bytes_of arguments.now)) ∷ []) }
        ensures kept { OnErr result (self.new ≡ self.old) }
    {
        let first = self.names.len();
        self.names.push(name)?;
        self.names.push_all(arguments)?;
        let form = Form::Gate(kind);
        let count = arguments.len() as u16 + 1;
        self.statements.push(Placed {
            line,
            form,
            first,
            count,
        })?;
        Ok(())
    }

    // The same with arguments that own their bytes.
    fn push_owned_gate(
        &mut self,
        line: u32,
        name: &[u8],
        kind: GateKind,
        arguments: &[Items<u8>],
    ) -> Result<(), OutOfMemory>
        requires name { IsName name.now }
        requires arguments { All IsName arguments.now }
        requires fan_in { IsFanIn kind (length arguments.now) }
        requires few { length self.old < MOST_STATEMENTS }
        ensures pushed { OnOk result
            (self.new ≡ self.old ++ numbered line (RawStmt.Gate name.now kind arguments.now) ∷ []) }
        ensures kept { OnErr result (self.new ≡ self.old) }
    {
        let first = self.names.len();
        self.names.push(name)?;
        self.names.push_items(arguments)?;
        let form = Form::Gate(kind);
        let count = arguments.len() as u16 + 1;
        self.statements.push(Placed {
            line,
            form,
            first,
            count,
        })?;
        Ok(())
    }

    /// Puts the statement last that defines a flip-flop of this name, with the line of the other name as its data line.
    /// Where memory runs out the list is as before.
    pub fn push_flop(&mut self, line: u32, name: &[u8], data_line: &[u8]) -> Result<(), OutOfMemory>
        requires name { IsName name.now }
        requires data_name { IsName data_line.now }
        requires few { length self.old < MOST_STATEMENTS }
        ensures pushed { OnOk result
            (self.new ≡ self.old ++ numbered line (RawStmt.Flop name.now data_line.now) ∷ []) }
        ensures kept { OnErr result (self.new ≡ self.old) }
    {
        let first = self.names.len();
        self.names.push(name)?;
        self.names.push(data_line)?;
        let form = Form::Flop;
        self.statements.push(Placed {
            line,
            form,
            first,
            count: 2,
        })?;
        Ok(())
    }
}

// How many of a statement's names stand before those that it uses.
fn skipped(form: Form) -> usize
    ensures { result ≡ skipped form }
{
    match form {
        Form::Input | Form::Output => 0,
        Form::Gate(_) | Form::Flop => 1,
    }
}

// How many names a statement of this form uses that has so many names.
fn used_count(form: Form, count: usize) -> usize
    requires { 1 ≤ count }
    ensures { result ≡ used_count form count }
{
    match form {
        Form::Input => 0,
        Form::Gate(_) => count - 1,
        Form::Output | Form::Flop => 1,
    }
}
