use super::source_word::Word;
use arrayvec::ArrayVec;
use romp_table::Op;

/// A line of the source that has a label or a statement (docs/FORMATS.md, "Assembler").
#[derive(Drop)]
pub struct Statement {
    /// The line of the text, counted from 1.
    pub line: u32,
    pub label: Option<Word>,
    pub body: Body,
}

/// What a line says after its label.
#[derive(Drop)]
pub enum Body {
    /// Nothing.
    Nothing,
    /// An instruction and its operands in the order of the text.
    Inst(Op, ArrayVec<Operand, 4>),
    /// So many bytes of a value: 4, 2 or 1.
    Data(u8, Expr),
    /// So many zero bytes.
    Space(u32),
    /// A segment register, a segment, and whether it is also to write.
    Window(u32, u32, bool),
    /// The address at which the program begins.
    Entry(Expr),
    /// A label that other sources of the program may name.
    Export(Word),
}

/// An operand of an instruction.
#[derive(Drop)]
pub enum Operand {
    /// A register, 0 to 15.
    Register(u8),
    /// A condition, 0 to 5.
    Condition(u8),
    Value(Expr),
    /// A displacement and the register that it is counted from.
    Place(Expr, u8),
}

impl Default for Operand {
    ghost use Rattle.std.specs.Prelude.{◌≡◌};
    ghost use Rattle.asm_parse.specs.declared.statement.Operand.TheVariants.{Register};

    ghost is_default = { λ operand. operand ≡ Register 0 };

    fn default() -> Self {
        Operand::Register(0)
    }
}

/// A value of the source.
#[derive(Drop)]
pub enum Expr {
    Number(i64),
    /// The address of a label, and what is added to it.
    Label(Word, i64),
}
