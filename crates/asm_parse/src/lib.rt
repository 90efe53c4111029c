//! Assembler text as statements (docs/FORMATS.md, "Assembler").
#![tactic(auto)]

mod asm_fault;
mod form;
mod head;
mod numbers;
mod operand;
mod parsing;
mod source_word;
mod statement;
mod statements;
mod token;

pub use asm_fault::{AsmFault, LineFault};
pub use form::{Form, form_of};
pub use head::Part;
pub use parsing::{first_line, parse};
pub use source_word::Word;
pub use statement::{Body, Expr, Operand, Statement};
pub use statements::Statements;
pub use token::{Token, tokens_into};
