//! The refusals and the layers, each with its number and its name.
ghost use Rattle.std.specs.Prelude.{◌≡◌, Some};
ghost use Rattle.faults.specs.Numbers.{number_of, Alone, name_of, layer_of, layer_number, layer_name};

use std::fmt;

/// Why a call refuses: one case for each number.
#[derive(Clone, Copy, PartialEq, Eq, Debug)]
pub enum Refusal {
    /// The file ends within its header.
    TooFewBytes = 1,
    /// The version is none from 1 to 32.
    Version = 2,
    /// An extent ends before the header does.
    ExtentTooSmall = 3,
    /// Two extents lead to different places.
    ExtentsDisagree = 4,
    /// The count of Doppler bins is out of range.
    Bins = 5,
    /// The count of range cells is out of range.
    Cells = 6,
    /// The count of channels is not 3.
    Channels = 7,
    /// The section of blocks runs into the data.
    SectionTooLong = 8,
    /// A block's key and size do not fit into the section.
    BlockHeadCut = 9,
    /// A block's data do not fit into the section.
    BlockDataCut = 10,
    /// The file ends within its cells.
    DataCut = 11,
    /// The block has another key.
    Key = 12,
    /// The block's data are shorter than its record.
    RecordShort = 13,
    /// The block's text has no zero at its end.
    TextWithoutZero = 14,
    /// The text cannot be written.
    TextUnfit = 15,
    /// There is no such cell or row.
    NoSuchCellOrRow = 16,
    /// A length or a count is not the one wanted.
    WrongLengthOrCount = 17,
    /// There is no field of that number.
    NoSuchField = 18,
    /// A level is none from 1 to 6.
    Level = 19,
    /// The level is too low for what is asked.
    LevelTooLow = 20,
    /// The field steers the layout and cannot be set.
    SteeringField = 21,
    /// The caller's list or table is too short.
    ListOrTableTooShort = 22,
    /// There is no file.
    NoFile = 31,
    /// The file would exceed the capacity.
    Capacity = 32,
    /// The file's version lacks what is asked.
    VersionLacksIt = 33,
    /// There is no such block.
    NoSuchBlock = 34,
    /// There is no version to raise to.
    NothingToRaise = 35,
    /// A gap stands before the data.
    Gap = 36,
    /// The level does not know the layout of the data.
    LayoutUnknown = 37,
    /// All cells are laid, or some are missing.
    CellCount = 38,
}

/// The part of a file, or the call, that a refusal speaks of.
#[derive(Clone, Copy, PartialEq, Eq, Debug)]
pub enum Layer {
    /// The file as a whole.
    File = 1,
    /// Its header.
    Header = 2,
    /// Its section of blocks.
    Section = 3,
    /// One block's data.
    Block = 4,
    /// The call and its arguments.
    Call = 5,
}

impl Refusal {
    /// The refusal's number; no two refusals share one.
    pub fn number(self) -> u8
        ensures value { result ≡ number_of self }
        ensures alone { Alone self }
    {
        self as u8
    }

    /// The layer at which judging a file or reading a block refuses so.
    pub fn layer(self) -> Layer
        ensures { result ≡ layer_of self }
    {
        match self {
            Refusal::TooFewBytes | Refusal::Version | Refusal::DataCut => Layer::File,
            Refusal::ExtentTooSmall | Refusal::ExtentsDisagree => Layer::Header,
            Refusal::Bins | Refusal::Cells | Refusal::Channels => Layer::Header,
            Refusal::SectionTooLong => Layer::Header,
            Refusal::BlockHeadCut | Refusal::BlockDataCut => Layer::Section,
            Refusal::Key | Refusal::RecordShort | Refusal::TextWithoutZero => Layer::Block,
            _ => Layer::Call,
        }
    }

    /// The refusal's name in plain words.
    pub fn name(self) -> &'static str
        ensures { result.now ≡ name_of self }
    {
        match self {
            Refusal::TooFewBytes => "too few bytes",
            Refusal::Version => "version",
            Refusal::ExtentTooSmall => "extent too small",
            Refusal::ExtentsDisagree => "extents disagree",
            Refusal::Bins => "bins",
            Refusal::Cells => "cells",
            Refusal::Channels => "channels",
            Refusal::SectionTooLong => "section too long",
            Refusal::BlockHeadCut => "block head cut",
            Refusal::BlockDataCut => "block data cut",
            Refusal::DataCut => "data cut",
            Refusal::Key => "key",
            Refusal::RecordShort => "record short",
            Refusal::TextWithoutZero => "text without zero",
            Refusal::TextUnfit => "text unfit",
            Refusal::NoSuchCellOrRow => "no such cell or row",
            Refusal::WrongLengthOrCount => "wrong length or count",
            Refusal::NoSuchField => "no such field",
            Refusal::Level => "level",
            Refusal::LevelTooLow => "level too low",
            Refusal::SteeringField => "steering field",
            Refusal::ListOrTableTooShort => "list or table too short",
            Refusal::NoFile => "no file",
            Refusal::Capacity => "capacity",
            Refusal::VersionLacksIt => "version lacks it",
            Refusal::NoSuchBlock => "no such block",
            Refusal::NothingToRaise => "nothing to raise",
            Refusal::Gap => "gap",
            Refusal::LayoutUnknown => "layout unknown at this level",
            Refusal::CellCount => "cell count",
        }
    }
}

impl Layer {
    /// The layer's number, from 1 for the file to 5 for the call.
    pub fn number(self) -> u8
        ensures { result ≡ layer_number self }
    {
        self as u8
    }

    /// The layer's name in plain words.
    pub fn name(self) -> &'static str
        ensures { result.now ≡ layer_name self }
    {
        match self {
            Layer::File => "file",
            Layer::Header => "header",
            Layer::Section => "section",
            Layer::Block => "block",
            Layer::Call => "call",
        }
    }
}

impl fmt::Display for Refusal {
    ghost output = { λ x. Some (name_of x) };

    fn fmt<W: fmt::Write>(&self, f: &mut fmt::Formatter<W>) -> fmt::Result {
        f.write_str(self.name())
    }
}

impl fmt::Display for Layer {
    ghost output = { λ x. Some (layer_name x) };

    fn fmt<W: fmt::Write>(&self, f: &mut fmt::Formatter<W>) -> fmt::Result {
        f.write_str(self.name())
    }
}
