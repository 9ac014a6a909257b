//! Flat code: a list of instructions. The place of an instruction is its index; each instruction
//! names the place of the one that follows it, so there are no jumps.

use abl_base::{Bytes, Row};
use bound_tree::{BufferDef, Expr, Header, Stmt, Variable};

/// An instruction.
#[derive(Drop)]
pub enum Instr {
    /// The end of a body.
    End,
    /// A block: where its body begins, and where the code continues after it.
    Block {
        header: Box<Header>,
        body: usize,
        next: usize,
    },
    /// IF: where its branches begin. The last statement of each names the place after the IF.
    If {
        test: Expr,
        then_place: usize,
        else_place: usize,
    },
    /// A statement that is neither a block nor an IF.
    Simple {
        stmt: Stmt,
        next: usize,
    },
}

/// A procedure whose body is code.
#[derive(Drop)]
pub struct ProcedureCode {
    /// The place of the `Block` that is the procedure's own.
    pub place: usize,
    /// The initial values of its undoable variables.
    pub undoable: Row,
    /// The initial values of its NO-UNDO variables.
    pub no_undo: Row,
    pub buffers: Vec<BufferDef>,
    /// The variables that are its parameters, in order.
    pub parameters: Vec<Variable>,
}

/// The code of a source.
#[derive(Drop)]
pub struct Code {
    pub instrs: Vec<Instr>,
    /// The external procedure first.
    pub procedures: Vec<ProcedureCode>,
    /// The number of streams beside the unnamed one.
    pub streams: u32,
    /// The names after OUTPUT TO, each once, in text order.
    pub outputs: Vec<Bytes>,
    /// The names after INPUT FROM, each once, in text order.
    pub inputs: Vec<Bytes>,
}
