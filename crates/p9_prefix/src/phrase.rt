/// What is read by itself, without the file around it.
#[derive(Clone, Copy, PartialEq, Eq, Debug, Drop)]
pub enum Phrase {
    Expression,
    /// A declaration, or the head of a function with the brace of its block.
    Declaration,
}
