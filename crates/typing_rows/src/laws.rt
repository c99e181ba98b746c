// What the definitions of typing say of small files. Each function does nothing; its contract is the rows.
ghost use Rattle.typing_rows.specs.Statements.{RowsOfStatements};
ghost use Rattle.typing_rows.specs.Declarations.{RowsOfDeclarations};

/// Statements and their expressions, by the rule that is told.
#[tactic(auto, using(crate::proofs::RowsStatements::rows_of_statements))]
pub fn rows_of_statements()
    ensures { RowsOfStatements }
{}

/// Declarations and initialisers, by the rule that is told.
#[tactic(auto, using(crate::proofs::RowsDeclarations::rows_of_declarations))]
pub fn rows_of_declarations()
    ensures { RowsOfDeclarations }
{}
