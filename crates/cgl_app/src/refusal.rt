ghost use Rattle.std.specs.Prelude.{◌≡◌};
ghost use Rattle.cgl_app.specs.Refusals.{cause_status, file_in, status_in};

use cgl_check::BookRefusal;
use cgl_model::{Model, Var};

/// A file of a cut.
#[derive(Clone, Copy)]
pub enum CutFile {
    /// The deck that is read.
    Model,
    /// What is read of where the columns stand.
    Start,
    /// The deck that is written.
    Out,
    /// The derivations that are written.
    Proof,
}

/// A file of a show.
#[derive(Clone, Copy)]
pub enum ShowFile {
    /// The deck that is read.
    Model,
    /// The deck that is written.
    Out,
}

/// A file of a check.
#[derive(Clone, Copy)]
pub enum CheckFile {
    /// The deck of the model.
    Model,
    /// The deck with the cuts.
    Out,
    /// The derivations of the cuts.
    Proof,
}

/// A file of an upgrade.
#[derive(Clone, Copy)]
pub enum UpgradeFile {
    /// The derivations that are read.
    Proof,
    /// The derivations that are written.
    New,
}

/// A place of an equation over the variables of a model: that of a variable, or the right side.
#[derive(Clone, Copy)]
pub enum Spot {
    Of(Var),
    Rhs,
}

/// What stands in the way at a row or a column of a model, by its number.
#[derive(Clone, Copy)]
pub enum Cause {
    /// The basic column depends on the basic variables before it. Status 5.
    Singular {
        column: u32,
    },
    /// The row is too wide for its integer form. Status 6.
    Scale {
        row: u32,
    },
    /// The values of the columns up to this one have no common denominator within the limits. Status 6.
    TooFine {
        column: u32,
    },
    /// In this step two numbers of the row's equation and the pivot row's do not fit. Status 6.
    Overflow {
        step: u32,
        row: u32,
        column: Spot,
        left: i128,
        right: i128,
    },
}

impl Cause {
    /// The exit status that tells the cause.
    fn status(self) -> u8
        ensures { result ≡ cause_status self }
    {
        match self {
            Cause::Singular { .. } => 5,
            Cause::Scale { .. } | Cause::TooFine { .. } | Cause::Overflow { .. } => 6,
        }
    }
}

/// What is not accepted of a deck with cuts and of their derivations.
#[derive(Drop)]
pub enum Unaccepted {
    /// The deck is not the model with the cuts as further rows.
    Deck,
    /// A derivation fails, of a shared inequality or of a cut.
    Entry(BookRefusal),
}

/// Why a command did not do its work, where `F` tells the files of the command.
#[derive(Drop)]
pub enum Refusal<F> {
    /// A read of this file failed, or the shelf tells its files and this one is not there. Status 3.
    ReadFault(F),
    /// A create or an append of this file failed. Status 4.
    WriteFault(F),
    /// A put on the output failed. Status 4.
    OutputFault,
    /// This file is not in form: its first bad line, where lines are numbered from 1, and the number of the fault's
    /// kind. Status 5.
    Input { file: F, line: u64, kind: u8 },
    /// A row or a column stands in the way, which has its name in this model. No command gives it.
    Named { cause: Cause, model: Model },
    /// The deck or a derivation is not accepted. Status 1.
    NotAccepted(Unaccepted),
    /// The deck to be written has more than 2^20 rows or 2^22 entries, or a file to be written more than 2^30 bytes.
    /// Status 6.
    TooLarge,
    /// Memory was refused. Nothing else is told of when this comes. Status 7.
    Memory,
}

impl<F: Copy> Refusal<F> {
    /// The file that it is about, if there is one.
    pub fn file(&self) -> Option<F>
        ensures { result ≡ file_in self.now }
    {
        match self {
            Refusal::ReadFault(file) => Some(*file),
            Refusal::WriteFault(file) => Some(*file),
            Refusal::Input { file, .. } => Some(*file),
            Refusal::OutputFault
            | Refusal::Named { .. }
            | Refusal::NotAccepted(_)
            | Refusal::TooLarge
            | Refusal::Memory => None,
        }
    }

    /// The exit status that tells it.
    pub fn status(&self) -> u8
        ensures { result ≡ status_in self.now }
    {
        match self {
            Refusal::ReadFault(_) => 3,
            Refusal::WriteFault(_) => 4,
            Refusal::OutputFault => 4,
            Refusal::Input { .. } => 5,
            Refusal::Named { cause, .. } => cause.status(),
            Refusal::NotAccepted(_) => 1,
            Refusal::TooLarge => 6,
            Refusal::Memory => 7,
        }
    }
}
