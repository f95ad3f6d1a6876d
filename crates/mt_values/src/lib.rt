//! What tables are made of: values, blocks of rows, schemas, names, commands and statements,
//! their order, and the definitions of the grammar and of the bytes that every crate above cites.
#![tactic(auto)]

mod adding;
mod annals;
mod block;
mod cell;
mod change;
mod column;
mod command;
mod conjuncts;
mod copies;
mod digits;
mod engine;
mod engine_columns;
mod eval;
mod expr;
mod filtering;
mod keyword;
mod literal;
mod literals;
mod manifest;
mod mutation;
mod order;
mod partitions;
mod row_fault;
mod schema;
mod script;
mod sorting;
mod stack;
mod statement;
mod strings;
mod testing;
mod token;
mod value;

pub use adding::{add_number, subtract_number};
pub use annals::{Annals, CountedAnnals, Noted};
pub use block::Block;
pub use cell::Cell;
pub use change::{Assigned, Assignment, Change};
pub use column::ColumnData;
pub use command::{Alter, Command, Create, Entry, Insert};
pub use conjuncts::conjuncts_are_the_condition;
pub use digits::number_within;
pub use engine::{Aggregate, Engine};
pub use engine_columns::{is_kept_apart, is_numeric, summable_places};
pub use eval::{meets, meets_at};
pub use expr::{Comparison, Expr, Joint, Literal, LiteralText, MOST_TRUTHS, Test, TestText};
pub use keyword::{is_keyword, is_reserved};
pub use literal::literal_value;
pub use literals::Literals;
pub use manifest::{FileMark, Loaded, Manifest};
pub use mt_base::{Bytes, FileId, Name, Partition, Rows, Twin};
pub use mutation::Mutation;
pub use order::{cmp_key, cmp_value, orders_are_exact, orders_are_total};
pub use partitions::rows_have_partitions_of_their_table;
pub use row_fault::{DataFault, FieldFault, RowFault};
pub use schema::{
    Column, IndexKind, KeyOrder, Schema, SchemaFault, SkipIndex,
    faults_do_not_depend_on_the_order_of_keys, has_name,
};
pub use script::Place;
pub use sorting::{all_places, cmp_cells};
pub use stack::Stack;
pub use statement::{
    Cause, Clause, CreateText, Element, EngineText, IndexText, InsertText, KindText, OptimizeText,
    SelectText, Selected, Slip, Statement,
};
pub use token::{Placed, Symbol, Token};
pub use value::{ColType, Row, Value};
