// Statements as they were read from a script.
use crate::{Bytes, Column, Expr, Name, TestText};
use mt_base::Seq;

/// A statement of a script, with its data.
#[derive(Drop)]
pub enum Statement {
    Create(CreateText),
    Insert(InsertText),
    Select(SelectText),
    /// What a SELECT would read.
    Explain(SelectText),
    Optimize(OptimizeText),
}

/// Why a text is refused as it is read.
#[derive(Clone, Copy)]
pub enum Cause {
    /// It is no statement of the grammar. With the token at this place no statement goes on, or the byte there begins no
    /// token, or the input ends there. Bytes are counted from 0 at the statement's first.
    Grammar(usize),
    /// It is longer than a statement may be.
    LongStatement,
    /// A name in it is longer than a name may be.
    LongName,
    /// More parentheses and NOTs of a condition are open at once than may be.
    TooDeep,
}

/// Why a token can't stand where it does.
#[derive(Clone, Copy)]
pub enum Slip {
    /// No statement of the grammar goes on with it.
    Wrong,
    /// It is a name, and longer than a name may be.
    LongName,
    /// It opens a parenthesis or a NOT of a condition, and as many as may be are open.
    TooDeep,
}

/// A CREATE TABLE. Its names are as they were written.
#[derive(Drop)]
pub struct CreateText {
    /// The statement's bytes, from its first token up to its semicolon.
    pub text: Bytes,
    pub table: Name,
    /// Its columns and indexes, in the order of the text.
    pub elements: Seq<Element>,
    pub engine: EngineText,
    /// Its clauses, in the order of the text.
    pub clauses: Seq<Clause>,
}

/// A column or an index of a CREATE TABLE.
#[derive(Drop)]
pub enum Element {
    Column(Column),
    Index(IndexText),
}

/// An INDEX of a CREATE TABLE. Its names are as they were written.
#[derive(Drop)]
pub struct IndexText {
    pub name: Name,
    pub column: Name,
    pub kind: KindText,
    /// The digits of GRANULARITY: how many granules a block has.
    pub granularity: Bytes,
}

/// What an INDEX of a CREATE TABLE keeps of a block.
#[derive(Drop)]
pub enum KindText {
    MinMax,
    /// The digits of the number of values at most.
    Set(Bytes),
}

/// The engine of a CREATE TABLE. Its names are as they were written.
#[derive(Drop)]
pub enum EngineText {
    Plain,
    /// The column of the version, where there is one.
    Replacing(Option<Name>),
    /// The columns of the list; none where there is no list.
    Summing(Seq<Name>),
    /// The column of the sign.
    Collapsing(Name),
    /// The columns of the sign and of the version.
    Versioned { sign: Name, version: Name },
    Aggregating,
}

/// A clause of a CREATE TABLE. Its names are as they were written.
#[derive(Drop)]
pub enum Clause {
    /// The columns of ORDER BY.
    OrderBy(Seq<Name>),
    PartitionBy(Name),
    /// The columns of PRIMARY KEY.
    PrimaryKey(Seq<Name>),
    /// The digits of index_granularity.
    Granularity(Bytes),
}

/// An INSERT with the bytes of its data.
#[derive(Drop)]
pub struct InsertText {
    pub table: Name,
    /// The lines of its data, each with its line feed; where the input ended before the data did, also what was left of it.
    pub lines: Bytes,
    /// Whether the row that ends the data came.
    pub ended: bool,
}

/// The columns that a SELECT names.
#[derive(Drop)]
pub enum Selected {
    /// `*`
    All,
    Named(Seq<Name>),
}

/// A SELECT. Its names and literals are as they were written.
#[derive(Drop)]
pub struct SelectText {
    pub columns: Selected,
    pub table: Name,
    /// Whether it says FINAL: each key is folded wholly.
    pub is_final: bool,
    /// What stands after WHERE; no condition where there is none.
    pub condition: Expr<TestText>,
}

/// An OPTIMIZE TABLE.
#[derive(Drop)]
pub struct OptimizeText {
    pub table: Name,
    /// The string after PARTITION ID: the partition's id.
    pub partition: Option<Bytes>,
    /// Whether it says FINAL: each partition becomes one part.
    pub whole: bool,
}
